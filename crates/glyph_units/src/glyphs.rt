// Glyphs that are units.
ghost use Rattle.std.specs.Prelude.{◌≡◌};
ghost use Rattle.glyph_units.specs.Glyphs.{unit_in};

use view_places::Glyph;

/// The unit that a glyph is, where it is one.
pub fn unit_in(glyph: Glyph) -> Option<u16>
    ensures { result ≡ unit_in glyph }
{
    match glyph {
        Glyph::Unit(unit) => Some(unit),
        Glyph::Tab => None,
        Glyph::LineBreak => None,
        Glyph::PageBreak => None,
        Glyph::NoteMark(_) => None,
        Glyph::Picture(_) => None,
        Glyph::Object => None,
    }
}
