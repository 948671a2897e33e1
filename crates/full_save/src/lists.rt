// The lists that the table stream has of the texts of a document: one step for each run of what is beside units.
ghost use Rattle.std.specs.Prelude.{◌≡◌, ◌+◌, ◌^◌, ◌<◌, ◌≤◌, ◌++◌, length, OnOk, IfOk};
ghost use Rattle.doc_model.specs.Collected.{joined_texts, refs_of, fields_of, is_auto};
ghost use Rattle.doc_model.specs.TextLists.{cuts_of};
ghost use Rattle.full_save.specs.Lists.{fields_from, FieldsGoOn, RefsGoOn};

use doc_bits::Memory;
use doc_columns::{Attached, ColumnTexts, Columns};
use doc_parts::{Cuts, Flds, Refs};
use plain_doc::NoteKind;
use run_lists::Run;
use std::alloc::Global;

/// The references of the main text to notes.
pub(crate) fn refs_of(alloc: Global, main: &Columns) -> Result<Refs, Memory>
    ensures { IfOk result (λ refs. refs ≡ refs_of main.now) }
{
    let _len = main.len();
    let mut refs = Refs::new(alloc);
    let mut place = 0;
    for run in main.attachments() {
        add_ref_run(&mut refs, place, run)?;
        place += run.count;
    }
    Ok(refs)
}

/// Appends the references of a run that begins at a place.
fn add_ref_run(refs: &mut Refs, place: u32, run: &Run<Attached>) -> Result<(), Memory>
    requires { place + run.now.count < 2 ^ 32 }
    ensures { OnOk result (RefsGoOn run.now place refs.old refs.new) }
{
    let Some(kind) = run.value.note else {
        return Ok(());
    };
    for cp in place..place + run.count {
        refs.add(cp, is_auto(kind))?;
    }
    Ok(())
}

/// Whether notes of this kind are numbered by themselves.
pub(crate) fn is_auto(kind: NoteKind) -> bool
    ensures { result ≡ is_auto kind }
{
    match kind {
        NoteKind::Auto => true,
        NoteKind::Custom => false,
    }
}

/// The field characters of a text.
pub(crate) fn fields_of(alloc: Global, text: &Columns) -> Result<Flds, Memory>
    ensures { IfOk result (λ fields. fields ≡ fields_of text.now) }
{
    let _len = text.len();
    let mut fields = Flds::new(alloc);
    add_fields(&mut fields, 0, text)?;
    Ok(fields)
}

/// The field characters of texts, which are one after the other.
pub(crate) fn fields_of_texts(alloc: Global, texts: &ColumnTexts) -> Result<Flds, Memory>
    requires { length (joined_texts texts.now) < 2 ^ 32 }
    ensures { IfOk result (λ fields. fields ≡ fields_of (joined_texts texts.now)) }
{
    let mut fields = Flds::new(alloc);
    let mut cp = 0;
    for k in 0..texts.len() {
        let text = texts.get(k);
        add_fields(&mut fields, cp, text)?;
        cp += text.len() as u32;
    }
    Ok(fields)
}

/// Appends the field characters of a text that is from a CP on.
fn add_fields(fields: &mut Flds, cp: u32, text: &Columns) -> Result<(), Memory>
    requires { cp + length text.now < 2 ^ 32 }
    ensures { OnOk result (fields.new ≡ fields.old ++ fields_from cp text.now) }
{
    let units = text.units();
    let mut place = 0;
    for run in text.attachments() {
        add_field_run(fields, units, cp, place, run)?;
        place += run.count as usize;
    }
    Ok(())
}

/// Appends the field characters of a run that begins at a place.
fn add_field_run(
    fields: &mut Flds,
    units: &[u16],
    cp: u32,
    place: usize,
    run: &Run<Attached>,
) -> Result<(), Memory>
    requires within { place + run.now.count ≤ length units.now }
    requires room { cp + length units.now < 2 ^ 32 }
    ensures { OnOk result (FieldsGoOn units.now cp run.now place fields.old fields.new) }
{
    let Some(byte) = run.value.fld else {
        return Ok(());
    };
    for at in place..place + run.count as usize {
        fields.add(cp + at as u32, units[at], byte)?;
    }
    Ok(())
}

/// The CPs that cut texts which are one after the other; none where they have no items.
pub(crate) fn cuts_of(alloc: Global, texts: &ColumnTexts) -> Result<Cuts, Memory>
    requires { length (joined_texts texts.now) < 2 ^ 32 }
    ensures { IfOk result (λ cuts. cuts ≡ cuts_of (joined_texts texts.now) texts.now) }
{
    let mut cuts = Cuts::new(alloc);
    let mut cp = 0;
    for k in 0..texts.len() {
        cuts.add(cp)?;
        cp += texts.get(k).len() as u32;
    }
    if cp == 0 {
        return Ok(Cuts::new(alloc));
    }
    cuts.add(cp)?;
    Ok(cuts)
}
