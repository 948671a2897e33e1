// What is visible of a unit.
ghost use Rattle.std.specs.Prelude.{◌≡◌, ℕ, ◌+◌, ◌<◌, ◌≤◌, length, slice_index, IsTrue};
ghost use Rattle.doc_view.specs.Blocks.{IsItself, is_itself};
ghost use Rattle.doc_view.specs.Glyphs.{control_glyph, drawn_unit, visible_glyph, is_stand_in};
ghost use Rattle.doc_view.specs.Glyphs.{is_windows, stand_in_glyph, unit_glyph, windows_unit};
ghost use Rattle.text_codes.specs.Halves.{is_surrogate};

use char_formats::CharFormat;
use symbol_fonts::{SymbolFonts, is_sign, shown_unit};
use text_codes::{PICTURE, REPLACEMENT, SPACE, unit_of_byte};
use view_places::Glyph;

/// The unit of a drawing, where it is special.
const DRAWING: u16 = 0x08;

/// A hyphen at which no line is broken.
const NON_BREAKING_HYPHEN: u16 = 0x2011;

/// How many units are looked at together.
const PART_LEN: usize = 8;

/// What is visible of a unit of this format, at which a section ends or not.
pub(crate) fn glyph_of(
    fonts: SymbolFonts,
    format: &CharFormat,
    ends_section: bool,
    unit: u16,
) -> Option<Glyph>
    ensures { result ≡ visible_glyph fonts format.now ends_section unit }
{
    if is_stand_in(format, unit) {
        return stand_in_glyph(format);
    }
    unit_glyph(drawn_unit(fonts, format, unit), ends_section)
}

/// Whether a unit represents something else than text.
fn is_stand_in(format: &CharFormat, unit: u16) -> bool
    ensures { result ≡ is_stand_in format.now unit }
{
    format.special && (unit == PICTURE || unit == DRAWING)
}

/// What such a unit represents: nothing where it has the data of a field.
fn stand_in_glyph(format: &CharFormat) -> Option<Glyph>
    ensures { result ≡ stand_in_glyph format.now }
{
    if format.of_field {
        None
    } else if format.object {
        Some(Glyph::Object)
    } else {
        Some(Glyph::Picture(format.picture))
    }
}

/// The unit that is drawn: of one that is no control, or of a symbol in place of it, what its font shows.
fn drawn_unit(fonts: SymbolFonts, format: &CharFormat, unit: u16) -> u16
    ensures { result ≡ drawn_unit fonts format.now unit }
{
    if unit < SPACE {
        return unit;
    }
    match format.symbol {
        None => shown_unit(fonts.font(format.font), unit),
        Some(symbol) => shown_unit(fonts.font(Some(symbol.font)), symbol.code),
    }
}

/// What is visible of a unit of text.
pub(crate) fn unit_glyph(unit: u16, ends_section: bool) -> Option<Glyph>
    ensures { result ≡ unit_glyph unit ends_section }
{
    if unit < SPACE {
        return control_glyph(unit, ends_section);
    }
    Some(Glyph::Unit(if is_windows(unit) {
        windows_unit(unit)
    } else {
        unit
    }))
}

/// What is visible of a control.
fn control_glyph(unit: u16, ends_section: bool) -> Option<Glyph>
    requires { unit < 0x20 }
    ensures { result ≡ control_glyph unit ends_section }
{
    match unit {
        0x09 => Some(Glyph::Tab),
        0x0B => Some(Glyph::LineBreak),
        0x0E => Some(Glyph::LineBreak),
        0x0C => {
            if ends_section {
                None
            } else {
                Some(Glyph::PageBreak)
            }
        }
        0x1E => Some(Glyph::Unit(NON_BREAKING_HYPHEN)),
        _ => None,
    }
}

/// Whether a unit is a byte of Windows-1252 that is not ASCII's.
#[inline(always)]
fn is_windows(unit: u16) -> bool
    ensures { result ≡ is_windows unit }
{
    unit >= 0x7F && unit <= 0x9F
}

/// Whether a unit may be half of a character.
#[inline(always)]
fn is_surrogate(unit: u16) -> bool
    ensures { result ≡ is_surrogate unit }
{
    unit >= 0xD800 && unit < 0xE000
}

/// The character of such a byte, or the replacement character.
fn windows_unit(unit: u16) -> u16
    requires { unit ≤ 0x9F }
    ensures { result ≡ windows_unit unit }
{
    match unit {
        0x80 => 0x20AC,
        0x8E => 0x017D,
        0x9E => 0x017E,
        _ => {
            let drawn = unit_of_byte(unit as u8);
            if drawn == unit { REPLACEMENT } else { drawn }
        }
    }
}

/// Where the units end that are visible as themselves, from a place on and before another.
pub(crate) fn itself_end(units: &[u16], from: usize, until: usize) -> usize
    requires ahead { from ≤ until }
    requires within { until ≤ length units.now }
    ensures ahead { from ≤ result }
    ensures within { result ≤ until }
    ensures units { (k : ℕ) → from ≤ k → k < result → IsItself (slice_index units.now k) }
{
    let begin = parts_end(units, from, until);
    for k in begin..until {
        if !is_character(units[k]) {
            return k;
        }
    }
    until
}

/// Where the whole parts of such units end.
fn parts_end(units: &[u16], from: usize, until: usize) -> usize
    requires ahead { from ≤ until }
    requires within { until ≤ length units.now }
    ensures ahead { from ≤ result }
    ensures within { result ≤ until }
    ensures units { (k : ℕ) → from ≤ k → k < result → IsItself (slice_index units.now k) }
{
    let mut end = from;
    while until - end >= PART_LEN {
        if !are_characters(units, end) {
            return end;
        }
        end += PART_LEN;
    }
    end
}

/// Whether each unit of the part from a place on is visible as itself.
#[inline(always)]
fn are_characters(units: &[u16], at: usize) -> bool
    requires { at + PART_LEN ≤ length units.now }
    ensures { IsTrue result → (k : ℕ) → k < PART_LEN → IsItself (slice_index units.now (at + k)) }
{
    let mut all = true;
    for k in 0..PART_LEN {
        all &= is_character(units[at + k]);
    }
    all
}

/// Whether a unit is visible as itself: it is a character then.
#[inline(always)]
fn is_character(unit: u16) -> bool
    ensures { IsTrue result → IsItself unit }
{
    is_itself(unit)
}

/// Whether it is no control, no byte of Windows-1252, no half of a character and no sign of a symbol font.
#[inline(always)]
fn is_itself(unit: u16) -> bool
    ensures { result ≡ is_itself unit }
{
    // Without jumps, so that eight units are tested at once.
    (unit >= SPACE) & (!is_windows(unit) & (!is_surrogate(unit) & !is_sign(unit)))
}
