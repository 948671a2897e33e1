// The Prcs that pieces name: rules 31 and 32, and their modifiers.
ghost use Rattle.std.specs.Prelude.{◌≡◌, ℕ, ◌+◌, ◌^◌, ◌<◌, ◌↔◌};
ghost use Rattle.std.specs.Prelude.{◌⊎◌, length, flat_map, slice_index_or};
ghost use Rattle.std.specs.Prelude.{false, MatchResult, IfOk, IfNone, IsTrue};
ghost use Rattle.doc_bits.specs.Rules.{LeastOrNone, Nowhere, Among, rule};
ghost use Rattle.sprm_table.specs.Sprm.{HasSprmFaultAt, IsAcceptedList};
ghost use Rattle.prop_map.specs.Formed.{prc_groups};
ghost use Rattle.prop_map.specs.Modifiers.{IsFormedModifier};
ghost use Rattle.piece_table.specs.Clx.{IsPlcPcd, prc_bytes};
ghost use Rattle.piece_table.specs.ClxRules.{IsFaultyPrc, IsLongPrc, FitsPages, IsReadPrm, AreReadPrms, IsClxFault};
ghost use Rattle.piece_table.specs.declared.pcd.Prm.TheVariants.{Prc};
ghost use Rattle.piece_table.specs.Front.{MarksNamed, clx_parts};
ghost use Rattle.piece_table.specs.Numbering.{HasMet, AreAccepted};

use crate::modifier_table::ModifierTable;
use crate::parts::{PRC_HEAD, Parts};
use crate::pcd::prm_of_piece;
use crate::{ClxFault, Prm};
use doc_bits::Memory;
use prop_map::{Modifier, PRC_GROUPS};
use sprm_table::{SprmFault, list_fault};
use std::alloc::Global;

const RULE_LONG: u8 = 32;

/// The most bytes of the character properties of a modifier, as they are printed.
const MAX_CHP: u64 = 255;

/// The most bytes of its properties of marks.
pub const MAX_PAP: u64 = 480;

/// Marks the Prcs that pieces name.
pub fn named_prcs(alloc: Global, parts: &Parts<'_>) -> Result<Vec<bool>, Memory>
    requires table { IsPlcPcd parts.now.plc }
    requires read { AreReadPrms parts.now.plc (length parts.now.prcs) }
    ensures { IfOk result (λ marks. MarksNamed (clx_parts parts.now) marks.items) }
{
    let mut marks = vec![in alloc; false; parts.prcs.len()]?;
    if parts.prcs.len() == 0 {
        return Ok(marks);
    }
    for k in 0..parts.plc.len() {
        mark(&mut marks, prm_of_piece(&parts.plc, k));
    }
    Ok(marks)
}

/// Marks the Prc that a Prm names.
fn mark(marks: &mut Vec<bool>, prm: Prm)
    requires { IsReadPrm (length marks.old.items) prm }
    ensures count { length marks.new.items ≡ length marks.old.items }
    ensures marked { (number : ℕ) → IsTrue (slice_index_or marks.new.items number false)
        ↔ (IsTrue (slice_index_or marks.old.items number false) ⊎ (prm ≡ Prc number)) }
{
    if let Prm::Prc(number) = prm {
        marks[number as usize] = true;
    }
}

/// The place of the first sprm fault in a Prc that is named. The Clx begins at `at` in the table stream.
pub fn faulty_prc(parts: &Parts<'_>, marks: &[bool], at: u32) -> Option<u32>
    requires place { at + length (flat_map prc_bytes parts.now.prcs) < 2 ^ 32 }
    requires marks { MarksNamed (clx_parts parts.now) marks.now }
    ensures least { LeastOrNone (Among (length parts.now.prcs) (IsFaultyPrc (clx_parts parts.now) at)) result }
    ensures accepted { IfNone result (AreAccepted (clx_parts parts.now) (length parts.now.prcs)) }
{
    let mut place = at;
    for i in 0..parts.prcs.len() {
        let list = parts.prcs.list(i);
        if marks[i] {
            if let Some(offset) = sprm_fault(list) {
                return Some(place + (PRC_HEAD + offset) as u32);
            }
        }
        place += (PRC_HEAD + list.len()) as u32;
    }
    None
}

/// Where the first sprm fault of a Prc is in its list.
fn sprm_fault(list: &[u8]) -> Option<usize>
    ensures least { LeastOrNone (HasSprmFaultAt list.now prc_groups) result }
    ensures accepted { IfNone result (IsAcceptedList list.now prc_groups) }
{
    match list_fault(list, PRC_GROUPS) {
        None => None,
        Some(SprmFault::Short { at }) => Some(at),
        Some(SprmFault::Refused { at }) => Some(at),
    }
}

/// The modifiers of the Prcs that are named, or the first one that is too long.
pub fn prc_modifiers(
    alloc: Global,
    parts: &Parts<'_>,
    marks: &[bool],
    at: u32,
) -> Result<ModifierTable, ClxFault>
    requires place { at + length (flat_map prc_bytes parts.now.prcs) < 2 ^ 32 }
    requires marks { MarksNamed (clx_parts parts.now) marks.now }
    requires accepted { AreAccepted (clx_parts parts.now) (length parts.now.prcs) }
    ensures { MatchResult result
        (λ table. Nowhere (Among (length parts.now.prcs) (IsLongPrc (clx_parts parts.now) at))
        × HasMet parts.now.prcs table.modifiers.items table.numbers.items)
        (IsClxFault (rule 32 (Among (length parts.now.prcs) (IsLongPrc (clx_parts parts.now) at)))) }
{
    let mut table = ModifierTable::new(alloc)?;
    let mut place = at;
    for i in 0..parts.prcs.len() {
        let list = parts.prcs.list(i);
        if marks[i] {
            let modifier = Modifier::read(alloc, list)?;
            if !fits_pages(&modifier) {
                return Err(ClxFault::Rule {
                    rule: RULE_LONG,
                    offset: place,
                });
            }
            table.put(2 * i + 1, modifier)?;
        }
        place += (PRC_HEAD + list.len()) as u32;
    }
    Ok(table)
}

/// Whether the properties fit the pages of characters and of marks.
fn fits_pages(modifier: &Modifier) -> bool
    requires { IsFormedModifier modifier.now }
    ensures { IsTrue result ↔ FitsPages modifier.now }
{
    modifier.chp.printed_len() <= MAX_CHP && modifier.pap.printed_len() <= MAX_PAP
}
