// Units of UTF-16 one by one.
ghost use Rattle.std.specs.Prelude.{◌≡◌, if◌then◌else◌};
ghost use Rattle.std.specs.Char.{IsScalar};
ghost use Rattle.glyph_units.specs.Units.{alone};

/// The replacement character.
pub const REPLACEMENT: u32 = 0xFFFD;

/// The character of a unit that is in no pair.
pub fn alone(unit: u16) -> u32
    ensures is { result ≡ alone unit }
    ensures scalar { IsScalar result }
{
    if unit >= 0xD800 && unit < 0xE000 {
        REPLACEMENT
    } else {
        unit as u32
    }
}
