// [MS-DOC] STSH: the lists of its styles, skipped in place.
ghost use Rattle.std.specs.Prelude.{◌≡◌, ◌^◌, ◌<◌, ◌≤◌, length};
ghost use Rattle.doc_bits.specs.Number.{u16_at};
ghost use Rattle.style_sheet.specs.Counted.{IsCountedPart};
ghost use Rattle.style_sheet.specs.StyleDefinition.{IsStd};
ghost use Rattle.style_sheet.specs.Stsh.{HasStshif, IsSlotAt, AreSlots};
ghost use Rattle.part_skips.specs.Sheets.{SkipsCounted, SkipsStd, PutsSlot, SkipsSlots, SkipsSheet, PutsSheet};

use doc_bits::get16;
use prl_skips::skip_range;
use style_sheet::{first_slot, first_upx, has_stshif, kind_number, next_place, wrong_slot};

/// Skips the codes in the lists of the styles of a sheet, where its slots are within it and hold styles.
pub fn skip_sheet(stsh: &mut [u8])
    requires { length stsh.old < 2 ^ 32 }
    ensures { SkipsSheet stsh.old stsh.new }
{
    if !has_stshif(stsh) {
        return;
    }
    if wrong_slot(stsh, 0).is_some() {
        return;
    }
    skip_slots(stsh);
}

/// Skips the codes of the sheet in a range of a stream. No byte outside of the range changes.
pub fn skip_sheet_in(stream: &mut [u8], from: usize, to: usize)
    requires ordered { from ≤ to }
    requires within { to ≤ length stream.old }
    requires small { length stream.old < 2 ^ 32 }
    ensures { PutsSheet from to stream.old stream.new }
{
    skip_sheet(&mut stream[from..to]);
}

/// Skips the codes in the lists of all slots.
fn skip_slots(stsh: &mut [u8])
    requires stshif { HasStshif stsh.old }
    requires slots { AreSlots stsh.old }
    ensures { SkipsSlots stsh.old stsh.new }
{
    let base = get16(stsh, 4) as usize;
    let mut place = first_slot(stsh);
    for _slot in 0..get16(stsh, 2) {
        let next = next_place(stsh, place);
        skip_slot(stsh, place, base);
        place = next;
    }
}

/// Skips the codes in the lists of the style in a slot, where there is one.
fn skip_slot(stsh: &mut [u8], place: usize, base: usize)
    requires slot { IsSlotAt stsh.old base place }
    requires base { (8 < base) × (base < 20) }
    ensures { PutsSlot base place stsh.old stsh.new }
{
    let from = place + 2;
    let to = from + get16(stsh, place) as usize;
    if from < to {
        skip_std(&mut stsh[from..to], base);
    }
}

/// Skips the codes in the lists of a style.
fn skip_std(std: &mut [u8], base: usize)
    requires std { IsStd std.old base }
    requires base { (8 < base) × (base < 20) }
    ensures { SkipsStd base std.old std.new }
{
    let at = first_upx(std, base);
    match kind_number(std) {
        1 => {
            let next = next_place(std, at);
            skip_counted(std, at, 2);
            skip_counted(std, next, 0);
        }
        2 => skip_counted(std, at, 0),
        _ => {}
    }
}

/// Skips the codes of the list that is behind so many bytes of what is counted at a place.
fn skip_counted(bytes: &mut [u8], at: usize, head: usize)
    requires counted { IsCountedPart bytes.old at }
    requires head { head ≤ u16_at bytes.old at }
    ensures { SkipsCounted at head bytes.old bytes.new }
{
    let from = at + 2;
    let to = from + get16(bytes, at) as usize;
    skip_range(bytes, from + head, to);
}
