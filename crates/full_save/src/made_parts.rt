// The table stream of a document: its parts that are made of it, those that are carried along, and what is said of the
// text.
ghost use Rattle.std.specs.Prelude.{◌≡◌, ◌+◌, ◌^◌, ◌<◌, length, IfOk};
ghost use Rattle.doc_parts.specs.Fields.{printed_fields};
ghost use Rattle.doc_parts.specs.Stories.{printed_refs, printed_texts};
ghost use Rattle.style_sheet.specs.Written.{IsWritable};
ghost use Rattle.doc_model.specs.Collected.{joined_texts, fields_of, refs_of};
ghost use Rattle.doc_model.specs.TextLists.{cuts_of};
ghost use Rattle.full_save.specs.TableText.{FitParts, table_entries};
ghost use Rattle.full_save.specs.TableStream.{entries_bytes, AreWritten};
ghost use Rattle.full_save.specs.Made.{AreFieldParts, AreListParts, AreMadeOf, made_entries, carried_length};

use crate::lists::{cuts_of, fields_of, fields_of_texts, refs_of};
use crate::mark_parts::MarkParts;
use crate::table_parts::TableParts;
use crate::table_text::TableText;
use doc_bits::{Bytes, Memory};
use doc_columns::{ColumnDocument, ColumnTexts, Columns};
use doc_parts::{print_fields, print_refs, print_sections, print_texts};
use fib_form::TablePart;
use plain_doc::Carried;
use std::alloc::Global;

/// The parts that hold field characters: those of the main text, of the header texts and of the notes.
#[derive(Drop)]
struct FieldParts {
    main: Bytes,
    heads: Bytes,
    notes: Bytes,
}

impl FieldParts {
    /// Those of a document.
    fn of(alloc: Global, document: &ColumnDocument, text: &TableText) -> Result<FieldParts, Memory>
        requires notes { length (joined_texts document.now.notes) < 2 ^ 32 }
        requires heads { length (joined_texts document.now.heads) < 2 ^ 32 }
        ensures { IfOk result (AreFieldParts document.now text.now) }
    {
        let [main, notes, heads] = text.counts;
        Ok(FieldParts {
            main: fields_part(alloc, &document.main, main)?,
            heads: texts_fields_part(alloc, &document.heads, heads)?,
            notes: texts_fields_part(alloc, &document.notes, notes)?,
        })
    }
}

/// The parts that say where the notes, the sections and the texts of a document are.
#[derive(Drop)]
struct ListParts {
    refs: Bytes,
    note_cuts: Bytes,
    sections: Bytes,
    head_cuts: Bytes,
}

impl ListParts {
    /// Those of a document.
    fn of(alloc: Global, document: &ColumnDocument, text: &TableText) -> Result<ListParts, Memory>
        requires notes { length (joined_texts document.now.notes) < 2 ^ 32 }
        requires heads { length (joined_texts document.now.heads) < 2 ^ 32 }
        ensures { IfOk result (AreListParts document.now text.now) }
    {
        let [main, notes, heads] = text.counts;
        Ok(ListParts {
            refs: refs_part(alloc, &document.main, main)?,
            note_cuts: cuts_part(alloc, &document.notes, notes)?,
            sections: print_sections(alloc, &text.seds, main)?,
            head_cuts: cuts_part(alloc, &document.heads, heads)?,
        })
    }
}

/// The parts that are made of a document.
#[derive(Drop)]
struct MadeParts {
    sheet: Bytes,
    refs: Bytes,
    note_cuts: Bytes,
    sections: Bytes,
    head_cuts: Bytes,
    fields: FieldParts,
    marks: MarkParts,
}

impl MadeParts {
    /// The parts of a document.
    fn of(alloc: Global, document: &ColumnDocument, text: &TableText) -> Result<MadeParts, Memory>
        requires sheet { IsWritable document.now.sheet }
        requires notes { length (joined_texts document.now.notes) < 2 ^ 32 }
        requires heads { length (joined_texts document.now.heads) < 2 ^ 32 }
        requires marks { FitParts document.now.bookmarks }
        ensures { IfOk result (AreMadeOf document.now text.now) }
    {
        let [main, _, _] = text.counts;
        let sheet = document.sheet.print(alloc)?;
        let lists = ListParts::of(alloc, document, text)?;
        let fields = FieldParts::of(alloc, document, text)?;
        let marks = MarkParts::of(alloc, &document.bookmarks, main)?;
        Ok(MadeParts {
            sheet,
            refs: lists.refs,
            note_cuts: lists.note_cuts,
            sections: lists.sections,
            head_cuts: lists.head_cuts,
            fields,
            marks,
        })
    }
}

/// PlcffndRef: the references of the main text to notes, up to a last CP.
fn refs_part(alloc: Global, main: &Columns, end: u32) -> Result<Bytes, Memory>
    ensures { IfOk result (λ bytes. bytes ≡ printed_refs (refs_of main.now) end) }
{
    let refs = refs_of(alloc, main)?;
    let bytes = print_refs(alloc, &refs, end)?;
    Ok(bytes)
}

/// PlcffndTxt or PlcfHdd: where these texts are cut, up to a last CP.
fn cuts_part(alloc: Global, texts: &ColumnTexts, end: u32) -> Result<Bytes, Memory>
    requires { length (joined_texts texts.now) < 2 ^ 32 }
    ensures { IfOk result (λ bytes. bytes ≡ printed_texts (cuts_of (joined_texts texts.now) texts.now) end) }
{
    let cuts = cuts_of(alloc, texts)?;
    let bytes = print_texts(alloc, &cuts, end)?;
    Ok(bytes)
}

/// PlcfFldMom: the field characters of the main text, up to a last CP.
fn fields_part(alloc: Global, main: &Columns, end: u32) -> Result<Bytes, Memory>
    ensures { IfOk result (λ bytes. bytes ≡ printed_fields (fields_of main.now) end) }
{
    let fields = fields_of(alloc, main)?;
    let bytes = print_fields(alloc, &fields, end)?;
    Ok(bytes)
}

/// PlcfFldHdr or PlcfFldFtn: the field characters of these texts, up to a last CP.
fn texts_fields_part(alloc: Global, texts: &ColumnTexts, end: u32) -> Result<Bytes, Memory>
    requires { length (joined_texts texts.now) < 2 ^ 32 }
    ensures { IfOk result (λ bytes. bytes ≡ printed_fields (fields_of (joined_texts texts.now)) end) }
{
    let fields = fields_of_texts(alloc, texts)?;
    let bytes = print_fields(alloc, &fields, end)?;
    Ok(bytes)
}

/// The table stream of a document with this text, and the pairs of its parts.
pub fn write_table(
    alloc: Global,
    document: &ColumnDocument,
    text: &TableText,
) -> Result<TableParts, Memory>
    requires sheet { IsWritable document.now.sheet }
    requires notes { length (joined_texts document.now.notes) < 2 ^ 32 }
    requires heads { length (joined_texts document.now.heads) < 2 ^ 32 }
    requires marks { FitParts document.now.bookmarks }
    requires small { length (entries_bytes (table_entries document.now text.now)) < 2 ^ 32 }
    ensures { IfOk result (AreWritten (table_entries document.now text.now)) }
{
    let made = MadeParts::of(alloc, document, text)?;
    let table = table_of(alloc, &document.carried, text, &made);
    drop(made);
    table
}

/// The table stream of these parts, and those that are carried along.
fn table_of(
    alloc: Global,
    carried: &Carried,
    text: &TableText,
    made: &MadeParts,
) -> Result<TableParts, Memory>
    requires { length (entries_bytes (made_entries carried.now text.now made.now)) < 2 ^ 32 }
    ensures { IfOk result (AreWritten (made_entries carried.now text.now made.now)) }
{
    let marks = &made.marks;
    let mut table = TableParts::new(alloc);
    table.put_all(&[
        (TablePart::Stshf, made.sheet.as_slice()),
        (TablePart::PlcffndRef, made.refs.as_slice()),
        (TablePart::PlcffndTxt, made.note_cuts.as_slice()),
        (TablePart::PlcfSed, made.sections.as_slice()),
        (TablePart::PlcfHdd, made.head_cuts.as_slice()),
        (TablePart::PlcfBteChpx, text.characters.as_slice()),
        (TablePart::PlcfBtePapx, text.paragraphs.as_slice()),
        (TablePart::SttbfFfn, carried.fonts.as_slice()),
        (TablePart::PlcfFldMom, made.fields.main.as_slice()),
        (TablePart::PlcfFldHdr, made.fields.heads.as_slice()),
        (TablePart::PlcfFldFtn, made.fields.notes.as_slice()),
        (TablePart::SttbfBkmk, marks.names.as_slice()),
        (TablePart::PlcfBkf, marks.starts.as_slice()),
        (TablePart::PlcfBkl, marks.ends.as_slice()),
        (TablePart::Dop, carried.dop.as_slice()),
        (TablePart::SttbfAssoc, carried.assoc.as_slice()),
        (TablePart::Clx, text.clx.as_slice()),
    ])?;
    table.put_lists(carried.lst.as_slice(), carried.levels.as_slice())?;
    table.put(TablePart::PlfLfo, carried.lfo.as_slice())?;
    Ok(table)
}

/// The number of bytes of the carried parts.
pub(crate) fn carried_len(carried: &Carried) -> u64
    ensures { result ≡ carried_length carried.now }
{
    len_of(&carried.fonts)
        + len_of(&carried.dop)
        + len_of(&carried.assoc)
        + len_of(&carried.lst)
        + len_of(&carried.levels)
        + len_of(&carried.lfo)
}

/// The number of bytes.
fn len_of(bytes: &Bytes) -> u64
    ensures { result ≡ length bytes.now }
{
    bytes.as_slice().len() as u64
}
