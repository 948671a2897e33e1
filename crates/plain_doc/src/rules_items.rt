// The rules on each item.
ghost use Rattle.std.specs.Prelude.{◌+◌, ◌^◌, ◌<◌};
ghost use Rattle.std.specs.Prelude.{◌↔◌, IsTrue};
ghost use Rattle.std.specs.Option.{ForSome};
ghost use Rattle.doc_bits.specs.declared.places.Where.TheVariants.{Main};
ghost use Rattle.prop_map.specs.Formed.{IsFormedMap};
ghost use Rattle.doc_model.specs.Document.{HasPropertyMaps};
ghost use Rattle.plain_doc.specs.RulesOfItems.{HasMarkRight, HasSectionRight, HasFieldRight, HasNoteRight};
ghost use Rattle.plain_doc.specs.RulesOfItems.{IsPlacedRight, IsShortChp, IsShortPap, IsShortSect, HasShortProperties};

use crate::{Item, Mark};
use doc_bits::Where;
use prop_map::PropMap;
use text_codes::{CELL_MARK, PARAGRAPH_MARK, SECTION_MARK};

/// The most bytes of the printed properties of a character: a Chpx counts them by a byte.
pub const MAX_CHPX_GRPPRL: u64 = 255;

/// The most bytes of the printed properties of a mark: a Papx holds so many beside its style number.
const MAX_PAPX_GRPPRL: u64 = 480;

/// The most bytes of the printed properties of a section.
const MAX_SEPX_GRPPRL: u64 = 500;

/// Whether what the item has is where it may, in a text of so many items.
pub(crate) fn is_placed_right(part: Where, len: usize, place: usize, item: &Item) -> bool
    requires { place < 2 ^ 32 }
    ensures { IsTrue result ↔ IsPlacedRight part len place item.now }
{
    has_mark_right(item)
        && has_section_right(part, len, place, item)
        && has_field_right(item)
        && has_note_right(part, item)
}

/// Whether a mark is exactly where a paragraph ends.
fn has_mark_right(item: &Item) -> bool
    ensures { IsTrue result ↔ HasMarkRight item.now }
{
    let ends = item.unit == PARAGRAPH_MARK || item.unit == CELL_MARK || item.sect.is_some();
    item.mark.is_some() == ends
}

/// Whether a section ends at the last item of the main text, and else at a page break of it alone.
fn has_section_right(part: Where, len: usize, place: usize, item: &Item) -> bool
    requires { place < 2 ^ 32 }
    ensures { IsTrue result ↔ HasSectionRight part len place item.now }
{
    let is_last = place + 1 == len;
    if part == Where::Main {
        if is_last {
            item.sect.is_some()
        } else {
            item.sect.is_none() || item.unit == SECTION_MARK
        }
    } else {
        item.sect.is_none()
    }
}

/// Whether the byte of a field is on a field character alone.
fn has_field_right(item: &Item) -> bool
    ensures { IsTrue result ↔ HasFieldRight item.now }
{
    item.fld.is_none() || (0x13 <= item.unit && item.unit <= 0x15)
}

/// Whether a note is referred to in the main text alone.
fn has_note_right(part: Where, item: &Item) -> bool
    ensures { IsTrue result ↔ HasNoteRight part item.now }
{
    item.note.is_none() || part == Where::Main
}

/// Whether the properties of an item are short enough for a file.
pub(crate) fn has_short_properties(item: &Item) -> bool
    requires { HasPropertyMaps item.now }
    ensures { IsTrue result ↔ HasShortProperties item.now }
{
    is_short_chp(&item.chp) && has_short_pap(&item.mark) && has_short_sect(&item.sect)
}

/// Whether the properties of a character are short enough for a file.
pub(crate) fn is_short_chp(chp: &PropMap) -> bool
    requires { IsFormedMap chp.now }
    ensures { IsTrue result ↔ IsShortChp chp.now }
{
    chp.printed_len() <= MAX_CHPX_GRPPRL
}

/// Whether the properties of a mark are short enough for a file.
pub(crate) fn is_short_pap(pap: &PropMap) -> bool
    requires { IsFormedMap pap.now }
    ensures { IsTrue result ↔ IsShortPap pap.now }
{
    pap.printed_len() <= MAX_PAPX_GRPPRL
}

/// Whether the properties of a mark, where there is one, are short enough for a file.
fn has_short_pap(mark: &Option<Mark>) -> bool
    requires { ForSome mark.now (λ mark. IsFormedMap mark.pap) }
    ensures { IsTrue result ↔ ForSome mark.now (λ mark. IsShortPap mark.pap) }
{
    match mark {
        None => true,
        Some(mark) => is_short_pap(&mark.pap),
    }
}

/// Whether the properties of a section, where one ends, are short enough for a file.
fn has_short_sect(sect: &Option<PropMap>) -> bool
    requires { ForSome sect.now IsFormedMap }
    ensures { IsTrue result ↔ ForSome sect.now IsShortSect }
{
    match sect {
        None => true,
        Some(sect) => sect.printed_len() <= MAX_SEPX_GRPPRL,
    }
}
