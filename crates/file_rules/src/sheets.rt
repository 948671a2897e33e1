// The style sheet.
ghost use Rattle.std.specs.Prelude.{MatchResult};
ghost use Rattle.doc_bits.specs.Rules.{Hold};
ghost use Rattle.file_rules.specs.Faults.{IsReadFault};
ghost use Rattle.file_rules.specs.SheetRules.{rules_of_sheet, HasSheet};

use crate::fault::refused_sheet;
use crate::{ReadFault, Source};
use fib_form::TablePart;
use std::alloc::Global;
use style_sheet::StyleSheet;

/// Reads the style sheet.
pub fn read_sheet(alloc: Global, source: &Source<'_>) -> Result<StyleSheet, ReadFault>
    ensures { MatchResult result
        (λ sheet. Hold (rules_of_sheet source.now) × HasSheet source.now sheet)
        (IsReadFault (rules_of_sheet source.now)) }
{
    let stsh = source.part(TablePart::Stshf);
    match StyleSheet::read(alloc, stsh, source.place(TablePart::Stshf)) {
        Ok(sheet) => Ok(sheet),
        Err(fault) => Err(refused_sheet(fault)),
    }
}
