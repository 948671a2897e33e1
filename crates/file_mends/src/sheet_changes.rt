// How a style sheet is changed of which a slot breaks its rule.
ghost use Rattle.std.specs.Prelude.{◌≡◌, ◌↔◌, ◌+◌, ◌<◌, ◌≤◌, [], ◌∷◌, suc, IfOk, IsTrue, MatchOption, drop};
ghost use Rattle.doc_bits.specs.Number.{number_bytes};
ghost use Rattle.style_sheet.specs.Counted.{IsCountedPart};
ghost use Rattle.style_sheet.specs.Stsh.{HasStshif, cstd, slot_place};
ghost use Rattle.file_mends.specs.declared.mends.FileMend.TheVariants.{StyleEmptied, StylesCut};
ghost use Rattle.file_mends.specs.SheetChanges.{ChangesSheet, ChangesSlot, IsSheetRule};

use crate::mends::FileMend;
use crate::sheet_places::SheetPlace;
use crate::slots::{SlotPlace, are_within, slot_at};
use doc_bits::{Bytes, Memory};
use std::alloc::Global;
use style_sheet::{RULE_STYLE_LISTS, RULE_STYLES, has_stshif, next_place};

/// [MS-DOC] STSH: the styles with numbers that do not change.
const FIXED_STYLES: usize = 15;

/// Bytes of the table stream, from one of them on, with the mend that they are.
#[derive(Drop)]
pub(crate) struct SheetChange {
    pub(crate) mend: FileMend,
    pub(crate) at: usize,
    pub(crate) bytes: Bytes,
}

/// Whether it is a rule on slots.
pub(crate) fn is_sheet_rule(rule: u8) -> bool
    ensures { IsTrue result ↔ IsSheetRule rule }
{
    rule == RULE_STYLES || rule == RULE_STYLE_LISTS
}

/// The change of a sheet of which a slot breaks its rule at an offset of the table stream.
pub(crate) fn sheet_change(
    alloc: Global,
    sheet: &SheetPlace<'_>,
    rule: u8,
    offset: u32,
) -> Result<Option<SheetChange>, Memory>
    requires { IsSheetRule rule }
    ensures { IfOk result (λ found. MatchOption found
        ((change : SheetChange) → ¬ ChangesSheet sheet.now rule offset change)
        (ChangesSheet sheet.now rule offset)) }
{
    if !has_stshif(sheet.part) {
        return Ok(None);
    }
    let Some(slot) = slot_at(sheet.part, sheet.at, offset) else {
        return Ok(None);
    };
    slot_change(alloc, sheet, slot)
}

/// The change that makes one of the slots empty, or ends the sheet before it.
fn slot_change(
    alloc: Global,
    sheet: &SheetPlace<'_>,
    slot: SlotPlace,
) -> Result<Option<SheetChange>, Memory>
    requires stshif { HasStshif sheet.now.part }
    requires slot { slot.istd < cstd sheet.now.part }
    requires place { slot.place ≡ slot_place sheet.now.part slot.istd }
    ensures { IfOk result (λ found. MatchOption found
        ((change : SheetChange) → ¬ ChangesSlot sheet.now slot.istd change)
        (ChangesSlot sheet.now slot.istd)) }
{
    if are_within(sheet.part) {
        if slot.istd == 0 {
            return Ok(None);
        }
        let change = emptied(alloc, sheet, slot)?;
        return Ok(Some(change));
    }
    if slot.istd < FIXED_STYLES {
        return Ok(None);
    }
    let change = cut_before(alloc, sheet, slot.istd)?;
    Ok(Some(change))
}

/// The slots from one on, which is empty.
fn emptied(alloc: Global, sheet: &SheetPlace<'_>, slot: SlotPlace) -> Result<SheetChange, Memory>
    requires place { slot.place ≡ slot_place sheet.now.part slot.istd }
    requires within { IsCountedPart sheet.now.part slot.place }
    ensures { IfOk result (λ change. change ≡ record {
      mend = StyleEmptied slot.istd;
      at = sheet.now.at + slot_place sheet.now.part slot.istd;
      bytes = 0 ∷ 0 ∷ drop (slot_place sheet.now.part (suc slot.istd)) sheet.now.part;
    }) }
{
    let next = next_place(sheet.part, slot.place).min(sheet.part.len());
    let mut bytes = Bytes::new(alloc);
    bytes.push_all(&[0, 0])?;
    bytes.push_all(&sheet.part[next..])?;
    Ok(SheetChange {
        mend: FileMend::StyleEmptied(slot.istd),
        at: sheet.at + slot.place,
        bytes,
    })
}

/// The number of slots of a sheet that ends before one of them.
fn cut_before(alloc: Global, sheet: &SheetPlace<'_>, istd: usize) -> Result<SheetChange, Memory>
    requires { istd < 65536 }
    ensures { IfOk result (λ change. change ≡ record {
      mend = StylesCut istd;
      at = sheet.now.at + 2;
      bytes = number_bytes 2 istd;
    }) }
{
    let mut bytes = Bytes::new(alloc);
    bytes.push16(istd as u16)?;
    Ok(SheetChange {
        mend: FileMend::StylesCut(istd),
        at: sheet.at + 2,
        bytes,
    })
}
