// The CPs that cut a story into its texts.
ghost use Rattle.std.specs.Prelude.{◌≡◌, ◌+◌, ◌<◌, ◌^◌, None, length, IsTrue, IfOk};
ghost use Rattle.doc_bits.specs.Rules.{LeastOrNone};
ghost use Rattle.doc_parts.specs.Table.{plc_part, IsEmptyOrWhole};
ghost use Rattle.doc_parts.specs.Stories.{AreCuts};
ghost use Rattle.file_rules.specs.TextCuts.{BreaksCuts};

use doc_bits::Memory;
use doc_parts::{Cuts, PartFault, texts};
use std::alloc::Global;

/// The rule that names a fault of header texts. The caller puts its own in place of it.
const RULE_TEXTS: u8 = 54;

/// The CPs of a table, and where it first breaks its rule.
#[derive(Drop)]
pub struct JudgedCuts {
    pub list: Cuts,
    pub fault: Option<u32>,
}

/// Checks the CPs that cut a story of `story_len` units. `formed` says that the part has the length
/// that it has to have.
pub fn judged_cuts(
    alloc: Global,
    plc: &[u8],
    at: u32,
    story_len: u32,
    formed: bool,
) -> Result<JudgedCuts, Memory>
    requires addressed { at + length plc.now < 2 ^ 32 }
    requires whole { IsTrue formed → IsEmptyOrWhole (plc_part 0 plc.now) }
    ensures { IfOk result (λ judged. LeastOrNone (BreaksCuts (IsTrue formed) plc.now story_len at) judged.fault
        × (judged.fault ≡ None → AreCuts plc.now story_len judged.list)) }
{
    if !formed {
        return Ok(JudgedCuts {
            list: Cuts::new(alloc),
            fault: Some(at),
        });
    }
    match texts(alloc, plc, at, story_len, RULE_TEXTS) {
        Ok(list) => Ok(JudgedCuts { list, fault: None }),
        Err(PartFault::Rule { offset, .. }) => Ok(JudgedCuts {
            list: Cuts::new(alloc),
            fault: Some(offset),
        }),
        Err(PartFault::Memory) => Err(Memory),
    }
}
