// The rule on notes: their references, and the CPs that cut their story.
ghost use Rattle.std.specs.Prelude.{◌≡◌, ◌+◌, ◌<◌, ◌^◌, None};
ghost use Rattle.std.specs.Prelude.{length, IfOk, MatchOption, MatchResult};
ghost use Rattle.doc_bits.specs.Rules.{Hold, LeastOrNone};
ghost use Rattle.file_rules.specs.Faults.{IsReadFault};
ghost use Rattle.file_rules.specs.NoteRules.{ref_count, HasEntries, BreaksRefs, BreaksNoteCuts, rules_of_notes};
ghost use Rattle.file_rules.specs.NoteRules.{HasRefs, HasNoteCuts};

use crate::text_cuts::{JudgedCuts, judged_cuts};
use crate::{ReadFault, Source};
use doc_bits::{Memory, Where, lesser, plc_of};
use doc_parts::{Cuts, PartFault, RULE_NOTES, Refs, note_refs};
use fib_form::{StoryKind, TablePart};
use std::alloc::Global;

/// The bytes of a reference beside its CP.
const FRD_LEN: usize = 2;

/// The references to the notes, by their CPs in the main text, and the CPs that cut the notes' story.
#[derive(Drop)]
pub struct Notes {
    pub refs: Refs,
    pub cuts: Cuts,
}

/// Reads the references to the notes, and the CPs that cut their story.
pub fn read_notes(alloc: Global, source: &Source<'_>) -> Result<Notes, ReadFault>
    ensures { MatchResult result
        (λ notes. Hold (rules_of_notes source.now)
        × (HasRefs source.now notes.refs × HasNoteCuts source.now notes.cuts))
        (IsReadFault (rules_of_notes source.now)) }
{
    let refs = judged_refs(alloc, source)?;
    let cuts = judged_note_cuts(alloc, source)?;
    if let Some(offset) = lesser(refs.fault, cuts.fault) {
        return Err(ReadFault::Refused {
            rule: RULE_NOTES,
            place: Where::Table,
            offset,
        });
    }
    Ok(Notes {
        refs: refs.list,
        cuts: cuts.list,
    })
}

/// The references of a table, and where it first breaks the rule.
#[derive(Drop)]
struct JudgedRefs {
    list: Refs,
    fault: Option<u32>,
}

/// Reads the references of the notes up to the first one that breaks the rule.
fn judged_refs(alloc: Global, source: &Source<'_>) -> Result<JudgedRefs, Memory>
    ensures { IfOk result (λ judged. LeastOrNone (BreaksRefs source.now) judged.fault
        × (judged.fault ≡ None → HasRefs source.now judged.list)) }
{
    let plc = source.part(TablePart::PlcffndRef);
    let at = source.place(TablePart::PlcffndRef);
    match note_refs(alloc, plc, at, source.story_len(StoryKind::Main)) {
        Ok(list) => Ok(JudgedRefs { list, fault: None }),
        Err(PartFault::Rule { offset, .. }) => Ok(JudgedRefs {
            list: Refs::new(alloc),
            fault: Some(offset),
        }),
        Err(PartFault::Memory) => Err(Memory),
    }
}

/// The CPs that cut the notes' story, and where their table first breaks the rule.
fn judged_note_cuts(alloc: Global, source: &Source<'_>) -> Result<JudgedCuts, Memory>
    ensures { IfOk result (λ judged. LeastOrNone (BreaksNoteCuts source.now) judged.fault
        × (judged.fault ≡ None → HasNoteCuts source.now judged.list)) }
{
    let Some(count) = ref_count(source.part(TablePart::PlcffndRef)) else {
        return Ok(JudgedCuts {
            list: Cuts::new(alloc),
            fault: None,
        });
    };
    let plc = source.part(TablePart::PlcffndTxt);
    let at = source.place(TablePart::PlcffndTxt);
    let formed = plc.len() == 4 * (count + 2);
    judged_cuts(alloc, plc, at, source.story_len(StoryKind::Notes), formed)
}

/// The number of references, where there are some in a table of the right length.
fn ref_count(refs: &[u8]) -> Option<usize>
    requires { length refs.now < 2 ^ 32 }
    ensures { MatchOption result (¬ (HasEntries refs.now))
        (λ count. HasEntries refs.now × (count ≡ ref_count refs.now) × (count < 2 ^ 32)) }
{
    let Ok(table) = plc_of(refs, FRD_LEN) else {
        return None;
    };
    if table.len() == 0 {
        None
    } else {
        Some(table.len())
    }
}
