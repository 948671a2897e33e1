// The document of the streams of a text. A copy of WordDocument gets a FIB of the early form, and the reader of
// doc_read reads the front of the text by it. The codes that are not read are skipped in copies of the streams: those
// of Prcs where the Clx is apart, and then those of pages and styles where no unit of the text and no Sepx changes
// by it; all other streams are read as they are.
ghost use Rattle.std.specs.Prelude.{◌≡◌, ◌↔◌, ◌<◌, ◌^◌, IsTrue, length, IfOk, MatchOption, MatchResult};
ghost use Rattle.doc_bits.specs.Rules.{Hold};
ghost use Rattle.cfb_streams.specs.Contents.{HasNamed};
ghost use Rattle.cfb_streams.specs.Names.{wd_name};
ghost use Rattle.fib_versions.specs.VersionRules.{version_rules};
ghost use Rattle.file_rules.specs.Faults.{IsReadFault};
ghost use Rattle.deleted_text.specs.Places.{AreDeletions};
ghost use Rattle.huge_papx.specs.Offsets.{AreOffsets};
ghost use Rattle.fib_form.specs.Fib.{table_part};
ghost use Rattle.fib_form.specs.TableParts.{pair_number};
ghost use Rattle.fib_form.specs.declared.table_parts.TablePart.TheVariants.{PlcfBteChpx, PlcfBtePapx};
ghost use Rattle.fkp_pages.specs.Bin.{IsBinTable};
ghost use Rattle.file_rules.specs.FileRules.{FileText, doc_source_of, table_stream_name};
ghost use Rattle.file_rules.specs.FormatRules.{judged_places};
ghost use Rattle.doc_read.specs.CarriedParts.{AreWithinBounds};
ghost use Rattle.doc_meaning.specs.Skipped.{KeepsSepxs};
ghost use Rattle.doc_meaning.specs.Apart.{IsReadTable};
ghost use Rattle.doc_lift.specs.LiftedRules.{SkipsStreams, IsSkippedText, lifted_table_rules, read_table_rules};
ghost use Rattle.doc_lift.specs.LiftedTexts.{IsLiftedBy};

use crate::clx_skipping::clx_skipped;
use crate::gap_reading::{ReadText, read_filled};
use crate::skipping::{
    PLCF_BTE_CHPX, PLCF_BTE_PAPX, SkippedStreams, are_units, early_fib, keeps_sepxs,
    skipped_streams, with_fib,
};
use cfb_streams::Container;
use deleted_text::deleted_places;
use doc_bits::Memory;
use doc_columns::ColumnDocument;
use fib_versions::AnyFib;
use file_rules::{FrontText, LoadedText, ReadFault, load_front};
use huge_papx::huge_offsets;
use std::alloc::Global;

/// The pair of the sections.
const PLCF_SED: u16 = 6;

/// What is lifted out of the streams of a file: the document, the units of all CPs of the text, and of each CP of its
/// three stories whether a reviser deleted it, and which place of the stream Data its paragraph names.
#[derive(Drop)]
pub(crate) struct LiftedText {
    pub(crate) document: ColumnDocument,
    pub(crate) units: Vec<u16>,
    pub(crate) deleted: Vec<bool>,
    pub(crate) offsets: Vec<Option<u32>>,
}

/// Lifts the document of `WordDocument` and of the table stream.
pub(crate) fn lift_text(
    alloc: Global,
    container: &Container,
    fib: &AnyFib<'_>,
    wd: &[u8],
    table: &[u8],
) -> Result<LiftedText, ReadFault>
    requires bounds { AreWithinBounds container.now }
    requires there { HasNamed container.now.streams wd_name wd.now }
    requires named { HasNamed container.now.streams (table_stream_name wd.now) table.now }
    requires version { Hold (version_rules wd.now) }
    requires same { fib.now ≡ wd.now }
    ensures { MatchResult result
        (IsLiftedBy (lifted_table_rules wd.now table.now) container.now)
        (IsReadFault (lifted_table_rules wd.now table.now)) }
{
    let early = early_fib(fib);
    let read = clx_skipped(alloc, &early, table)?;
    lift_read(alloc, container, fib, wd, &read)
}

/// Lifts the document of `WordDocument` and of the table stream that is read.
fn lift_read(
    alloc: Global,
    container: &Container,
    fib: &AnyFib<'_>,
    wd: &[u8],
    table: &[u8],
) -> Result<LiftedText, ReadFault>
    requires bounds { AreWithinBounds container.now }
    requires reads { IsReadTable container.now wd.now table.now }
    requires version { Hold (version_rules wd.now) }
    requires same { fib.now ≡ wd.now }
    ensures { MatchResult result
        (IsLiftedBy (read_table_rules wd.now table.now) container.now)
        (IsReadFault (read_table_rules wd.now table.now)) }
{
    let early = early_fib(fib);
    let lifted = with_fib(alloc, wd, &early)?;
    let front = load_front(alloc, &lifted, early, table, fib.text_len())?;
    let deleted = deleted_cps(alloc, fib, wd, table, &front.text)?;
    let offsets = huge_cps(alloc, fib, wd, table, &front)?;
    let skipped = skipped_streams(alloc, fib, wd, table)?;
    let found = load_skipped(alloc, fib, wd, table, &skipped, &front.units)?;
    if let Some(text) = found {
        let front = with_text(front, text);
        let read = read_filled(alloc, container, fib, front, &skipped.wd, &skipped.table)?;
        return Ok(lifted_read(read, deleted, offsets));
    }
    let read = read_filled(alloc, container, fib, front, &lifted, table)?;
    Ok(lifted_read(read, deleted, offsets))
}

/// Of each CP of the three stories of a text, whether a reviser deleted it.
fn deleted_cps(
    alloc: Global,
    fib: &AnyFib<'_>,
    wd: &[u8],
    table: &[u8],
    text: &LoadedText<'_>,
) -> Result<Vec<bool>, Memory>
    ensures { IfOk result (λ flags. IsBinTable (table_part fib.now table.now (pair_number PlcfBteChpx))
        → AreDeletions wd.now (table_part fib.now table.now (pair_number PlcfBteChpx)) (judged_places (doc_source_of
        text.now))
        flags.items) }
{
    let source = text.source();
    let places = source.judged_places();
    deleted_places(alloc, wd, fib.part(table, PLCF_BTE_CHPX), &places)
}

/// Of each CP of the three stories of a text, which place of the stream Data its paragraph names.
fn huge_cps(
    alloc: Global,
    fib: &AnyFib<'_>,
    wd: &[u8],
    table: &[u8],
    front: &FrontText<'_>,
) -> Result<Vec<Option<u32>>, Memory>
    ensures { IfOk result (λ offsets. IsBinTable (table_part fib.now table.now (pair_number PlcfBtePapx))
        → AreOffsets wd.now (table_part fib.now table.now (pair_number PlcfBtePapx))
        (judged_places (doc_source_of front.now.text)) front.now.units.items offsets.items) }
{
    let source = front.text.source();
    let places = source.judged_places();
    let bin = fib.part(table, PLCF_BTE_PAPX);
    huge_offsets(alloc, wd, bin, &places, &front.units)
}

/// Loads the front of skipped streams, where the units of all CPs and the Sepxs are those of the file.
fn load_skipped<'a>(
    alloc: Global,
    fib: &AnyFib<'_>,
    wd: &[u8],
    table: &[u8],
    skipped: &'a SkippedStreams,
    units: &[u16],
) -> Result<Option<LoadedText<'a>>, Memory>
    requires same { fib.now ≡ wd.now }
    requires small { length wd.now < 2 ^ 32 }
    requires table_small { length table.now < 2 ^ 32 }
    requires version { Hold (version_rules wd.now) }
    requires skips { SkipsStreams wd.now table.now skipped.now.wd.items skipped.now.table.items }
    ensures { IfOk result (λ found. MatchOption found
        ((text : FileText) → ¬ IsSkippedText wd.now table.now units.now text)
        (IsSkippedText wd.now table.now units.now)) }
{
    match load_front(
        alloc,
        &skipped.wd,
        early_fib(fib),
        &skipped.table,
        fib.text_len(),
    ) {
        Ok(front) => {
            let sections = fib.part(table, PLCF_SED);
            if keeps_text(sections, wd, &skipped.wd, &front.units, units) {
                Ok(Some(front.text))
            } else {
                Ok(None)
            }
        }
        Err(ReadFault::Refused { .. }) => Ok(None),
        Err(ReadFault::Memory) => Err(Memory),
    }
}

/// Whether these units are others, and whether the Sepxs of the sections are the same in both streams.
fn keeps_text(sections: &[u8], old: &[u8], new: &[u8], new_units: &[u16], units: &[u16]) -> bool
    requires len { length new.now ≡ length old.now }
    ensures { IsTrue result ↔ (new_units.now ≡ units.now) × KeepsSepxs sections.now old.now new.now }
{
    if !are_units(new_units, units) {
        return false;
    }
    keeps_sepxs(sections, old, new)
}

/// The front of a text, with this one in place of its own.
fn with_text<'a>(front: FrontText<'_>, text: LoadedText<'a>) -> FrontText<'a>
    ensures text { result.text ≡ text.entry }
    ensures units { result.units ≡ front.entry.units }
{
    FrontText {
        text,
        units: front.units,
    }
}

/// What is lifted, of its parts. It takes no memory.
fn lifted_read(read: ReadText, deleted: Vec<bool>, offsets: Vec<Option<u32>>) -> LiftedText
    ensures { result
        ≡ record { document = read.document; units = read.units; deleted = deleted; offsets = offsets } }
{
    let ReadText { document, units } = read;
    LiftedText {
        document,
        units,
        deleted,
        offsets,
    }
}
