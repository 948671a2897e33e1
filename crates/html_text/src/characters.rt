// Characters that could be read as markup.
ghost use Rattle.std.specs.Prelude.{◌≡◌, ◌∷◌, [], IfSome, MatchOption};
ghost use Rattle.std.specs.Str.{IsAscii};
ghost use Rattle.html_text.specs.Tokens.{escaped};

/// The reference that represents a character in a page, in ASCII; none where the character represents itself.
pub fn reference(code: u32) -> Option<&'static [u8]>
    ensures is { MatchOption result (escaped code ≡ code ∷ []) (λ text. escaped code ≡ text.now) }
    ensures ascii { IfSome result (λ text. IsAscii text.now) }
{
    match code {
        0x26 => Some(b"&amp;"),
        0x3C => Some(b"&lt;"),
        0x3E => Some(b"&gt;"),
        0x22 => Some(b"&quot;"),
        _ => None,
    }
}
