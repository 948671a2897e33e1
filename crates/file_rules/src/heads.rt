// The rule on header texts.
ghost use Rattle.std.specs.Prelude.{◌↔◌, ◌<◌, ◌^◌, IsTrue, MatchResult};
ghost use Rattle.doc_bits.specs.Rules.{Hold};
ghost use Rattle.file_rules.specs.Faults.{IsReadFault};
ghost use Rattle.file_rules.specs.SectionRules.{HasSections};
ghost use Rattle.file_rules.specs.HeadRules.{IsHeadTable, rules_of_heads, HasHeadCuts};

use crate::text_cuts::judged_cuts;
use crate::{ReadFault, Source};
use doc_bits::Where;
use doc_parts::{Cuts, Seds};
use fib_form::{StoryKind, TablePart};
use std::alloc::Global;

pub const RULE_HEADS: u8 = 54;

/// Six separators of notes come first, and six header texts belong to each section.
const TEXTS_OF_SECTION: usize = 6;

/// Reads the CPs that cut the header texts' story.
pub fn read_heads(alloc: Global, source: &Source<'_>, sections: &Seds) -> Result<Cuts, ReadFault>
    requires { HasSections source.now sections.now }
    ensures { MatchResult result
        (λ cuts. Hold (rules_of_heads source.now) × HasHeadCuts source.now cuts)
        (IsReadFault (rules_of_heads source.now)) }
{
    let plc = source.part(TablePart::PlcfHdd);
    let at = source.place(TablePart::PlcfHdd);
    let formed = is_head_table(plc.len(), sections.len());
    let judged = judged_cuts(alloc, plc, at, source.story_len(StoryKind::Heads), formed)?;
    if let Some(offset) = judged.fault {
        return Err(ReadFault::Refused {
            rule: RULE_HEADS,
            place: Where::Table,
            offset,
        });
    }
    Ok(judged.list)
}

/// Whether a part of this length has the CPs of some texts, and not of too many.
fn is_head_table(len: usize, sections: usize) -> bool
    requires { sections < 2 ^ 32 }
    ensures { IsTrue result ↔ IsHeadTable len sections }
{
    if len == 0 {
        return true;
    }
    if len < 8 || len % 4 != 0 {
        return false;
    }
    len / 4 - 2 <= TEXTS_OF_SECTION + TEXTS_OF_SECTION * sections
}
