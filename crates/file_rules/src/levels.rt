// The rule on lists: their levels are after the part.
ghost use Rattle.std.specs.Prelude.{MatchResult, IsErrOf};
ghost use Rattle.doc_bits.specs.Rules.{Hold};
ghost use Rattle.file_rules.specs.Faults.{IsReadFault};
ghost use Rattle.file_rules.specs.ListRules.{rules_of_lists, HasLevels};

use crate::{ReadFault, Source};
use doc_bits::Where;
use doc_parts::list_levels;
use fib_form::TablePart;

pub const RULE_LISTS: u8 = 56;

/// The bytes of the levels of all lists.
pub fn read_levels<'a>(source: &Source<'a>) -> Result<&'a [u8], ReadFault>
    ensures read { MatchResult result
        (λ bytes. Hold (rules_of_lists source.now) × HasLevels source.now bytes.now)
        (IsReadFault (rules_of_lists source.now)) }
    ensures no_memory { ¬ (IsErrOf result ReadFault.Memory) }
{
    let part = source.part(TablePart::PlfLst);
    if part.is_empty() {
        return Ok(&[]);
    }
    let table = source.table();
    let at = source.place(TablePart::PlfLst);
    let lcb = part.len() as u32;
    match list_levels(table, at, lcb) {
        Ok(len) => {
            let from = (at + lcb) as usize;
            Ok(&table[from..from + len as usize])
        }
        Err(fault) => Err(ReadFault::Refused {
            rule: RULE_LISTS,
            place: Where::Table,
            offset: fault.offset,
        }),
    }
}
