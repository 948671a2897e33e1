// The rule on what is after the last text of a story.
ghost use Rattle.std.specs.Prelude.{◌≡◌, ◌≤◌, MatchOption, MatchResult, IsErrOf};
ghost use Rattle.doc_bits.specs.Rules.{Hold, LeastOrNone, Nowhere, IsLeast};
ghost use Rattle.file_rules.specs.Faults.{IsReadFault};
ghost use Rattle.file_rules.specs.NoteRules.{HasNoteCuts};
ghost use Rattle.file_rules.specs.HeadRules.{HasHeadCuts};
ghost use Rattle.file_rules.specs.EndRules.{last_text_end as end_of_last, IsLooseUnit, BreaksEnd, rules_of_ends};

use crate::{ReadFault, Source};
use doc_bits::{Where, lesser};
use doc_parts::Cuts;
use fib_form::StoryKind;
use text_codes::PARAGRAPH_MARK;

const RULE_ENDS: u8 = 55;

/// Checks the ends of the notes' story and of the header texts' story, which these CPs cut.
pub fn check_ends(source: &Source<'_>, notes: &Cuts, heads: &Cuts) -> Result<(), ReadFault>
    requires notes { HasNoteCuts source.now notes.now }
    requires heads { HasHeadCuts source.now heads.now }
    ensures judged { MatchResult result
        (λ _. Hold (rules_of_ends source.now))
        (IsReadFault (rules_of_ends source.now)) }
    ensures no_memory { ¬ (IsErrOf result ReadFault.Memory) }
{
    let after_notes = stray_unit_place(source, StoryKind::Notes, notes);
    let after_heads = stray_unit_place(source, StoryKind::Heads, heads);
    match lesser(after_notes, after_heads) {
        None => Ok(()),
        Some(offset) => Err(ReadFault::Refused {
            rule: RULE_ENDS,
            place: Where::Wd,
            offset,
        }),
    }
}

/// The place of the first unit that may not be after the last text of a story.
fn stray_unit_place(source: &Source<'_>, story: StoryKind, cuts: &Cuts) -> Option<u32>
    ensures { LeastOrNone (BreaksEnd source.now story cuts.now) result }
{
    let cp = stray_unit(source.units(story), last_end(cuts) as usize)?;
    let places = source.places(story);
    Some(places.get(cp))
}

/// The CP where the last text ends; where there are no texts, the story's begin.
fn last_end(cuts: &Cuts) -> u32
    ensures { result ≡ end_of_last cuts.now }
{
    if cuts.len() == 0 {
        return 0;
    }
    cuts.get(cuts.len() - 1)
}

/// The first unit from `end` on that may not be there.
fn stray_unit(units: &[u16], end: usize) -> Option<usize>
    ensures { MatchOption result
        (Nowhere (IsLooseUnit units.now end))
        (IsLeast (λ a b. a ≤ b) (IsLooseUnit units.now end)) }
{
    if end >= units.len() {
        return None;
    }
    if units[end] != PARAGRAPH_MARK {
        return Some(end);
    }
    if end + 1 < units.len() {
        Some(end + 1)
    } else {
        None
    }
}
