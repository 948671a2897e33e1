// What is with the units of all three stories, by columns, piece by piece.
ghost use Rattle.std.specs.Prelude.{◌≡◌, ◌↔◌, ◌-◌, ◌≤◌, length, IfOk, IsTrue, MatchOption};
ghost use Rattle.doc_bits.specs.Rules.{Hold};
ghost use Rattle.piece_table.specs.Piece.{total_length};
ghost use Rattle.file_rules.specs.FileRules.{doc_source_of};
ghost use Rattle.file_rules.specs.FormatRules.{rules_of_formats, text_count};
ghost use Rattle.file_rules.specs.PartRules.{HasPartLists, HoldButFormats};
ghost use Rattle.doc_read.specs.Sections.{AreSectionMaps};
ghost use Rattle.doc_read.specs.Passing.{AddsEach};
ghost use Rattle.doc_read.specs.Reading.{ArePassed, HaveValidPages, IsReadable, IsReadCharacter};
ghost use Rattle.doc_read.specs.Reading.{IsPieceReader, text_view};
ghost use Rattle.doc_read.specs.Attached.{IsAttachedAt};
ghost use Rattle.doc_read.specs.ReadParts.{AreColumnsOf, AreReadColumns};

use crate::attached::{CpRange, push_attachments};
use crate::marked::read_marks;
use crate::part::TextPart;
use crate::reading::{PieceReader, PlcCursors, TextSource, reader_for};
use crate::sections::SectionMaps;
use doc_bits::Memory;
use doc_columns::Attached;
use fib_form::{StoryKind, TablePart};
use file_rules::{DocParts, LoadedText, Source};
use piece_table::PieceList;
use prop_map::PropMap;
use run_lists::Runs;
use std::alloc::Global;
use std::collections::BTreeMap;

/// The properties of the units that were read, and what is beside them.
#[derive(Drop)]
pub(crate) struct ReadColumns {
    pub(crate) chps: Runs<PropMap>,
    pub(crate) attachments: Runs<Attached>,
}

/// Reads what is with the units of the CPs of all three stories, where each has its right pages.
pub(crate) fn read_columns(
    alloc: Global,
    text: &LoadedText<'_>,
    parts: &DocParts<'_>,
    sections: &SectionMaps,
) -> Result<Option<ReadColumns>, Memory>
    requires rules { HoldButFormats (doc_source_of text.now) }
    requires lists { HasPartLists (doc_source_of text.now) parts.now }
    requires sections { AreSectionMaps text.now.wd parts.now.sections sections.now }
    ensures { IfOk result (λ read. MatchOption read
        (¬ (Hold (rules_of_formats (doc_source_of text.now))))
        (λ read. Hold (rules_of_formats (doc_source_of text.now)) × AreColumnsOf (record {
          source = doc_source_of text.now;
          pieces = text.now.pieces;
          lists = parts.now;
          sections = sections.now;
        }) read)) }
{
    let source = text.source();
    has_units(&source);
    let marks = read_marks(alloc, &source, parts)?;
    let lists = TextSource {
        wd: source.wd(),
        characters: source.part(TablePart::PlcfBteChpx),
        paragraphs: source.part(TablePart::PlcfBtePapx),
        units: source.judged_units(),
        places: source.judged_places(),
        marks: &marks,
        maps: sections,
    };
    let Some(read) = columns_of_pieces(alloc, &lists, text.pieces())? else {
        return Ok(None);
    };
    Ok(Some(read))
}

/// A text has a unit for each CP of its stories. This does nothing when it runs.
fn has_units(source: &Source<'_>)
    ensures { text_count source.now ≤ length source.now.text.units }
{
    let _begin = source.story_begin(StoryKind::Heads);
}

/// The columns of all pieces, one after the other, as far as there are units; nothing where one of these has not its
/// right pages.
fn columns_of_pieces(
    alloc: Global,
    text: &TextSource<'_>,
    pieces: &PieceList,
) -> Result<Option<ReadColumns>, Memory>
    requires readable { IsReadable (text_view text.now) }
    requires enough { length text.now.units.now ≤ total_length pieces.now.pieces }
    ensures { IfOk result (λ read. MatchOption read
        (¬ (HaveValidPages (text_view text.now) 0 (length text.now.units.now)))
        (AreReadColumns (text_view text.now) pieces.now.pieces)) }
{
    let count = text.units.len();
    let mut read = ReadColumns {
        chps: Runs::new(alloc),
        attachments: Runs::new(alloc),
    };
    let mut passed = PlcCursors {
        field: 0,
        note: 0,
        section: 0,
    };
    let mut readers = Vec::new(alloc);
    let mut numbers = BTreeMap::new(alloc);
    let mut rest = text.places.skip(0);
    let mut cp = 0;
    for i in 0..pieces.len() {
        // A piece may have one unit more than the stories.
        let end = cp + (pieces.piece(i).len as usize).min(count - cp);
        let modifier = pieces.modifier(i);
        let number = reader_for(alloc, text, modifier, &mut readers, &mut numbers)?;
        let part = TextPart::new(&*text, cp, rest.skip(0));
        let right = push_piece(
            alloc,
            &part,
            CpRange { cp, end },
            &mut readers[number],
            &mut read,
            &mut passed,
        )?;
        if !right {
            return Ok(None);
        }
        rest = rest.skip(end - cp);
        cp = end;
    }
    Ok(Some(read))
}

/// Appends the properties of the units of a piece, and what is beside them, and answers whether each of these has
/// its
/// right pages.
fn push_piece(
    alloc: Global,
    part: &TextPart<'_>,
    piece: CpRange,
    reader: &mut PieceReader<'_>,
    read: &mut ReadColumns,
    passed: &mut PlcCursors,
) -> Result<bool, Memory>
    requires from { part.now.from ≡ piece.cp }
    requires reader { IsPieceReader part.now.view reader.old }
    requires ordered { piece.cp ≤ piece.end }
    requires within { piece.end ≤ length part.now.view.units }
    requires chps { length read.old.chps ≡ piece.cp }
    requires attachments { length read.old.attachments ≡ piece.cp }
    requires passed { ArePassed part.now.view.marks passed.old piece.cp }
    ensures same { reader.new ≡ reader.old }
    ensures right { IfOk result (λ right. IsTrue right ↔ HaveValidPages part.now.view piece.cp piece.end) }
    ensures passed { IfOk result (λ right. IsTrue right
        → ArePassed part.now.view.marks passed.new piece.end) }
    ensures chps { IfOk result (λ right. IsTrue right
        → AddsEach (IsReadCharacter part.now.view reader.old.characters.modifier)
        (piece.end - piece.cp) read.old.chps read.new.chps) }
    ensures attachments { IfOk result (λ right. IsTrue right
        → AddsEach (IsAttachedAt part.now.view reader.old.characters.modifier)
        (piece.end - piece.cp) read.old.attachments read.new.attachments) }
{
    let places = part.front(piece.end - piece.cp);
    let right = reader
        .characters
        .push_character_runs(alloc, &places, &mut read.chps)?;
    if !right {
        return Ok(false);
    }
    push_attachments(alloc, part, piece, reader, &mut read.attachments, passed)
}
