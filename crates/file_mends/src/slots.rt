// [MS-DOC] STSH: the slot of a style sheet in which an offset of the table stream is.
ghost use Rattle.std.specs.Prelude.{ℕ, ◌≡◌, ◌↔◌, ◌+◌, ◌^◌, ◌<◌, ◌≤◌, IsTrue, MatchOption, length};
ghost use Rattle.style_sheet.specs.Counted.{IsCountedPart};
ghost use Rattle.style_sheet.specs.Stsh.{HasStshif, slot_place};
ghost use Rattle.file_mends.specs.Slots.{AreSlotsWithin, SlotEndsBefore, IsSlotOf};

use doc_bits::get16;
use style_sheet::{first_slot, next_place};

/// [MS-DOC] Stshif: where cstd is, the number of slots.
const CSTD: usize = 2;

/// A slot by its number, and where its cbStd is in the sheet.
#[derive(Clone, Copy)]
pub(crate) struct SlotPlace {
    pub(crate) istd: usize,
    pub(crate) place: usize,
}

/// The slot in which an offset of the table stream is, of a sheet that begins at another one.
pub(crate) fn slot_at(part: &[u8], at: usize, offset: u32) -> Option<SlotPlace>
    requires stshif { HasStshif part.now }
    requires at { at < 2 ^ 32 }
    ensures { MatchOption result
        ((istd : ℕ) → ¬ IsSlotOf part.now at offset istd)
        (λ slot. IsSlotOf part.now at offset slot.istd × (slot.place ≡ slot_place part.now slot.istd)) }
{
    let mut place = first_slot(part);
    for istd in 0..get16(part, CSTD) {
        if !ends_before(part, at, place, offset) {
            return Some(SlotPlace {
                istd: istd as usize,
                place,
            });
        }
        place = next_place(part, place);
    }
    None
}

/// Whether all slots are within the sheet.
pub(crate) fn are_within(part: &[u8]) -> bool
    requires { HasStshif part.now }
    ensures { IsTrue result ↔ AreSlotsWithin part.now }
{
    let mut place = first_slot(part);
    for _istd in 0..get16(part, CSTD) {
        if !is_within(part, place) {
            return false;
        }
        place = next_place(part, place);
    }
    true
}

/// Whether a slot is within the sheet, and ends at or before an offset.
fn ends_before(part: &[u8], at: usize, place: usize, offset: u32) -> bool
    requires { at < 2 ^ 32 }
    ensures { IsTrue result ↔ SlotEndsBefore part.now at place offset }
{
    if !is_within(part, place) {
        return false;
    }
    at + place + 2 + get16(part, place) as usize <= offset as usize
}

/// Whether a slot is within the sheet.
fn is_within(part: &[u8], place: usize) -> bool
    ensures { IsTrue result ↔ IsCountedPart part.now place }
{
    if part.len() < 2 || part.len() - 2 < place {
        return false;
    }
    get16(part, place) as usize <= part.len() - 2 - place
}
