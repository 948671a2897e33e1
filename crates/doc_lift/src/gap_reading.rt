// The document of a text, or where a gap breaks its first broken rule, of the text with its gaps filled.
ghost use Rattle.std.specs.Prelude.{◌↔◌, IsTrue, MatchOption, MatchResult};
ghost use Rattle.file_rules.specs.Faults.{IsReadFault};
ghost use Rattle.doc_read.specs.CarriedParts.{AreWithinBounds, LeavesRoom};
ghost use Rattle.file_rules.specs.FileRules.{FileText};
ghost use Rattle.doc_lift.specs.FilledTexts.{IsFilledOf, filled_rules};
ghost use Rattle.doc_lift.specs.Filling.{AreReadStreams};
ghost use Rattle.doc_lift.specs.Reading.{IsGapFault, IsTextRead, IsReadAtGaps, IsReadWith, IsRefusedAtGap};

use crate::gap_filling::{filled_streams, is_gap_rule, load_filled};
use cfb_streams::Container;
use doc_columns::ColumnDocument;
use doc_read::read_loaded;
use fib_versions::AnyFib;
use file_rules::{FrontText, ReadFault};
use std::alloc::Global;

/// A document that is read, and the units of all CPs of the file.
#[derive(Drop)]
pub(crate) struct ReadText {
    pub(crate) document: ColumnDocument,
    pub(crate) units: Vec<u16>,
}

/// Whether a refusal names a rule that a gap breaks.
fn is_gap_fault(fault: ReadFault) -> bool
    ensures { IsTrue result ↔ IsGapFault fault }
{
    match fault {
        ReadFault::Refused { rule, .. } => is_gap_rule(rule),
        ReadFault::Memory => false,
    }
}

/// Reads the document of a text of these streams, or of that text with its gaps filled.
pub(crate) fn read_filled(
    alloc: Global,
    container: &Container,
    fib: &AnyFib<'_>,
    front: FrontText<'_>,
    wd: &[u8],
    table: &[u8],
) -> Result<ReadText, ReadFault>
    requires bounds { AreWithinBounds container.now }
    requires room { LeavesRoom container.now front.text.table }
    requires read { IsTextRead fib.now front.text wd.now table.now }
    ensures { MatchResult result
        (IsReadWith fib.now container.now front.entry.text front.entry.units.items)
        (IsReadFault (filled_rules fib.now front.entry.units.items front.entry.text)) }
{
    let FrontText { text, units } = front;
    match read_loaded(alloc, container, text) {
        Ok(document) => Ok(ReadText { document, units }),
        Err(fault) => {
            if !is_gap_fault(fault) {
                return Err(fault);
            }
            match read_gaps(alloc, container, fib, wd, table, &units)? {
                Some(document) => Ok(ReadText { document, units }),
                None => Err(fault),
            }
        }
    }
}

/// Reads the document of streams with their gaps filled, where they can be.
fn read_gaps(
    alloc: Global,
    container: &Container,
    fib: &AnyFib<'_>,
    wd: &[u8],
    table: &[u8],
    units: &[u16],
) -> Result<Option<ColumnDocument>, ReadFault>
    requires bounds { AreWithinBounds container.now }
    requires room { LeavesRoom container.now table.now }
    requires are { AreReadStreams fib.now wd.now table.now }
    ensures { MatchResult result
        (λ found. MatchOption found
        ((other : FileText) → ¬ IsFilledOf fib.now wd.now table.now units.now other)
        (IsReadAtGaps fib.now wd.now table.now units.now container.now))
        (IsRefusedAtGap fib.now wd.now table.now units.now) }
{
    let Some(filled) = filled_streams(alloc, fib, wd, table)? else {
        return Ok(None);
    };
    let Some(text) = load_filled(alloc, fib, &filled, units)? else {
        return Ok(None);
    };
    let document = read_loaded(alloc, container, text)?;
    Ok(Some(document))
}
