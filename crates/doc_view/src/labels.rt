// What is visible of a label.
ghost use Rattle.std.specs.Prelude.{◌≡◌};
ghost use Rattle.doc_view.specs.Labels.{label_glyph};

use crate::glyph::unit_glyph;
use view_places::Glyph;

/// The characters of symbol fonts.
const FIRST_SYMBOL: u16 = 0xF000;

const LAST_SYMBOL: u16 = 0xF0FF;

const BULLET: u16 = 0x2022;

/// What is visible of a unit of a label.
pub fn label_glyph(unit: u16) -> Option<Glyph>
    ensures { result ≡ label_glyph unit }
{
    if unit >= FIRST_SYMBOL && unit <= LAST_SYMBOL {
        return Some(Glyph::Unit(BULLET));
    }
    unit_glyph(unit, true)
}
