// The rule on field characters. Their tables are checked by the units in the text too.
ghost use Rattle.std.specs.Prelude.{◌≡◌, ◌+◌, ◌*◌, ◌<◌, ◌^◌};
ghost use Rattle.std.specs.Prelude.{None, length, map, IfOk, MatchResult};
ghost use Rattle.doc_bits.specs.Rules.{Hold, LeastOrNone};
ghost use Rattle.doc_parts.specs.Cps.{AreCpsInOrder};
ghost use Rattle.doc_parts.specs.Fields.{fld_cps, AreFieldCharacters};
ghost use Rattle.fib_form.specs.declared.stories.StoryKind.TheVariants.{Main, Notes, Heads};
ghost use Rattle.file_rules.specs.Faults.{IsReadFault};
ghost use Rattle.file_rules.specs.Rows.{HasWrongRow};
ghost use Rattle.file_rules.specs.FieldRules.{field_part, HasOtherUnit, BreaksFields, BreaksStoryFields};
ghost use Rattle.file_rules.specs.FieldRules.{rules_of_fields, HasStoryFields};

use crate::{ReadFault, Source};
use doc_bits::{Memory, Where, lesser};
use doc_parts::{Flds, LeadingFields, RULE_FIELDS, leading_fields};
use fib_form::{StoryKind, TablePart};
use std::alloc::Global;

/// The field characters of each story, by its CPs.
#[derive(Drop)]
pub struct StoryFields {
    pub main: Flds,
    pub notes: Flds,
    pub heads: Flds,
}

/// Reads the field characters of the three stories.
pub fn read_fields(alloc: Global, source: &Source<'_>) -> Result<StoryFields, ReadFault>
    ensures { MatchResult result
        (λ fields. Hold (rules_of_fields source.now)
        × (HasStoryFields source.now Main fields.main
        × (HasStoryFields source.now Notes fields.notes × HasStoryFields source.now Heads fields.heads)))
        (IsReadFault (rules_of_fields source.now)) }
{
    let main = story_fields(alloc, source, StoryKind::Main)?;
    let notes = story_fields(alloc, source, StoryKind::Notes)?;
    let heads = story_fields(alloc, source, StoryKind::Heads)?;
    if let Some(offset) = lesser(main.fault, lesser(notes.fault, heads.fault)) {
        return Err(ReadFault::Refused {
            rule: RULE_FIELDS,
            place: Where::Table,
            offset,
        });
    }
    Ok(StoryFields {
        main: main.list,
        notes: notes.list,
        heads: heads.list,
    })
}

/// The table of a story's field characters.
fn fields_of(story: StoryKind) -> TablePart
    ensures { result ≡ field_part story }
{
    match story {
        StoryKind::Main => TablePart::PlcfFldMom,
        StoryKind::Notes => TablePart::PlcfFldFtn,
        StoryKind::Heads => TablePart::PlcfFldHdr,
    }
}

/// The field characters of a story, and where its table first breaks the rule.
fn story_fields(
    alloc: Global,
    source: &Source<'_>,
    story: StoryKind,
) -> Result<LeadingFields, Memory>
    ensures { IfOk result (λ read. LeastOrNone (BreaksStoryFields source.now story) read.fault
        × (read.fault ≡ None → HasStoryFields source.now story read.list)) }
{
    let part = fields_of(story);
    judged_fields(
        alloc,
        source.part(part),
        source.place(part),
        source.units(story),
    )
}

/// The field characters of a table, and where it first breaks the rule in a story of these units.
fn judged_fields(alloc: Global, plc: &[u8], at: u32, units: &[u16]) -> Result<LeadingFields, Memory>
    requires addressed { at + length plc.now < 2 ^ 32 }
    requires few { length units.now < 2 ^ 32 }
    ensures { IfOk result (λ read. LeastOrNone (BreaksFields units.now plc.now at) read.fault
        × (read.fault ≡ None → AreFieldCharacters plc.now (length units.now) read.list)) }
{
    let read = leading_fields(alloc, plc, at, units.len() as u32)?;
    if let Some(offset) = wrong_field_unit(&read.list, at, units) {
        return Ok(LeadingFields {
            list: read.list,
            fault: Some(offset),
        });
    }
    Ok(read)
}

/// The first field character that names another unit than the one in the text.
fn wrong_field_unit(list: &Flds, at: u32, units: &[u16]) -> Option<u32>
    requires in_order { AreCpsInOrder (fld_cps (length units.now)) (map (λ fld. fld.cp) list.now) }
    requires addressed { at + 4 * length list.now < 2 ^ 32 }
    ensures { LeastOrNone
        (HasWrongRow (length list.now) (λ k. at + 4 * k) (HasOtherUnit units.now list.now))
        result }
{
    for k in 0..list.len() {
        let (cp, unit, _) = list.get(k);
        if units[cp as usize] != unit {
            return Some(at + 4 * k as u32);
        }
    }
    None
}
