// [MS-DOC] STSH: the changes of tab stops in the styles of paragraphs.
ghost use Rattle.std.specs.Prelude.{◌≡◌, ◌+◌, ◌^◌, ◌<◌, OnOk, length};
ghost use Rattle.style_sheet.specs.StyleDefinition.{IsStd};
ghost use Rattle.style_sheet.specs.Stsh.{HasStshif, AreSlots, IsSlotAt};
ghost use Rattle.tab_stops.specs.Lists.{PushesStops};
ghost use Rattle.tab_stops.specs.Sheets.{AreSheetStops, AreSlotsStops, AreSlotStops, AreStyleStops};

use crate::lists::push_list;
use doc_bits::{Memory, get16};
use style_sheet::{first_slot, first_upx, has_stshif, kind_number, next_place, wrong_slot};

/// [MS-DOC] Stshif: where cstd is, the number of slots, and cbSTDBaseInFile.
const CSTD: usize = 2;

const STD_BASE: usize = 4;

/// [MS-DOC] stk of a style of paragraphs.
const STK_PARA: u16 = 1;

/// [MS-DOC] cbUpx and istd, before the list of a style of paragraphs.
const UPX_HEAD: usize = 4;

/// Appends where the codes are in the styles of a sheet that begins at a place.
pub fn push_sheet_stops(places: &mut Vec<usize>, part: &[u8], at: usize) -> Result<(), Memory>
    requires short { length part.now < 2 ^ 32 }
    requires room { at + length part.now < 2 ^ 63 }
    ensures { OnOk result (PushesStops (AreSheetStops part.now at) places.old.items places.new.items) }
{
    if !has_stshif(part) {
        return Ok(());
    }
    match wrong_slot(part, 0) {
        Some(_) => Ok(()),
        None => push_slots(places, part, at),
    }
}

/// The same, where all slots are empty or hold styles.
fn push_slots(places: &mut Vec<usize>, part: &[u8], at: usize) -> Result<(), Memory>
    requires stshif { HasStshif part.now }
    requires slots { AreSlots part.now }
    requires room { at + length part.now < 2 ^ 63 }
    ensures { OnOk result (PushesStops (AreSlotsStops part.now at) places.old.items places.new.items) }
{
    let base = get16(part, STD_BASE) as usize;
    let mut place = first_slot(part);
    for _istd in 0..get16(part, CSTD) {
        push_slot(places, part, at, place, base)?;
        place = next_place(part, place);
    }
    Ok(())
}

/// Appends those of the style in a slot.
fn push_slot(
    places: &mut Vec<usize>,
    part: &[u8],
    at: usize,
    place: usize,
    base: usize,
) -> Result<(), Memory>
    requires slot { IsSlotAt part.now base place }
    requires base { (8 < base) × (base < 20) }
    requires room { at + length part.now < 2 ^ 63 }
    ensures { OnOk result
        (PushesStops (AreSlotStops part.now at base place) places.old.items places.new.items) }
{
    let from = place + 2;
    let to = from + get16(part, place) as usize;
    if from == to {
        return Ok(());
    }
    push_style(places, &part[from..to], at + from, base)
}

/// Appends those of a style that begins at a place.
fn push_style(places: &mut Vec<usize>, std: &[u8], at: usize, base: usize) -> Result<(), Memory>
    requires std { IsStd std.now base }
    requires base { (8 < base) × (base < 20) }
    requires room { at + length std.now < 2 ^ 64 }
    ensures { OnOk result (PushesStops (AreStyleStops std.now at base) places.old.items places.new.items) }
{
    if kind_number(std) != STK_PARA {
        return Ok(());
    }
    let upx = first_upx(std, base);
    let from = upx + UPX_HEAD;
    let to = upx + 2 + get16(std, upx) as usize;
    push_list(places, &std[from..to], at + from)
}
