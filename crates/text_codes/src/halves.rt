// Halves of characters.
ghost use Rattle.std.specs.Prelude.{◌≡◌, true, false, MatchOption};
ghost use Rattle.text_codes.specs.Halves.{is_high};
ghost use Rattle.std.specs.Char.{IsScalar};
ghost use Rattle.text_codes.specs.Shown.{is_pair, pair_code};

/// Whether a unit is the first half of characters.
pub fn is_high(unit: u16) -> bool
    ensures { result ≡ is_high unit }
{
    unit >= 0xD800 && unit < 0xDC00
}

/// The character of two halves, where they are one.
pub fn pair(first: u16, second: u16) -> Option<u32>
    ensures { MatchOption result
        (is_pair first second ≡ false)
        (λ code. (is_pair first second ≡ true) × ((code ≡ pair_code first second) × IsScalar code)) }
{
    if first >= 0xD800 && first < 0xDC00 && second >= 0xDC00 && second < 0xE000 {
        let high = (first - 0xD800) as u32;
        let low = (second - 0xDC00) as u32;
        Some(0x10000 + high * 0x400 + low)
    } else {
        None
    }
}
