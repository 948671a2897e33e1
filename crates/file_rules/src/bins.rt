// The rules on the bin tables.
ghost use Rattle.std.specs.Prelude.{◌<◌, ◌^◌, ◌+◌, length, MatchResult, IsErrOf};
ghost use Rattle.doc_bits.specs.Rules.{Hold, LeastOrNone};
ghost use Rattle.doc_parts.specs.Table.{IsWholePlc};
ghost use Rattle.file_rules.specs.Faults.{IsReadFault};
ghost use Rattle.file_rules.specs.BinRules.{HasNoAscent, BreaksBinTable, rules_of_bins};

use crate::{ReadFault, Source};
use doc_bits::{Plc, Where, plc_of};
use fib_form::TablePart;

const RULE_CHARACTER_BINS: u8 = 37;

const RULE_PARAGRAPH_BINS: u8 = 38;

/// The bytes of a page number.
const PAGE_LEN: usize = 4;

/// Checks the two bin tables.
pub fn check_bins(source: &Source<'_>) -> Result<(), ReadFault>
    ensures judged { MatchResult result
        (λ _. Hold (rules_of_bins source.now))
        (IsReadFault (rules_of_bins source.now)) }
    ensures no_memory { ¬ (IsErrOf result ReadFault.Memory) }
{
    let characters = source.part(TablePart::PlcfBteChpx);
    if let Some(offset) = wrong_bin(characters, source.place(TablePart::PlcfBteChpx)) {
        return Err(ReadFault::Refused {
            rule: RULE_CHARACTER_BINS,
            place: Where::Table,
            offset,
        });
    }
    let paragraphs = source.part(TablePart::PlcfBtePapx);
    if let Some(offset) = wrong_bin(paragraphs, source.place(TablePart::PlcfBtePapx)) {
        return Err(ReadFault::Refused {
            rule: RULE_PARAGRAPH_BINS,
            place: Where::Table,
            offset,
        });
    }
    Ok(())
}

/// Where a bin table breaks its rule: the part, or the first fc that is not above the one before it.
fn wrong_bin(bytes: &[u8], at: u32) -> Option<u32>
    requires { at + length bytes.now < 2 ^ 32 }
    ensures { LeastOrNone (BreaksBinTable bytes.now at) result }
{
    let Ok(table) = plc_of(bytes, PAGE_LEN) else {
        return Some(at);
    };
    if table.len() == 0 {
        return Some(at);
    }
    no_ascent(&table, at)
}

/// The first fc that is not above the one before it.
fn no_ascent(table: &Plc<'_>, at: u32) -> Option<u32>
    requires whole { IsWholePlc table.now }
    requires addressed { at + length table.now.bytes < 2 ^ 32 }
    ensures { LeastOrNone (HasNoAscent table.now at) result }
{
    for k in 0..table.len() {
        if table.cp(k + 1) <= table.cp(k) {
            return Some(at + 4 * (k as u32 + 1));
        }
    }
    None
}
