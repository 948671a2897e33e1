// The symbol fonts of a document.
ghost use Rattle.std.specs.Prelude.{◌≡◌};
ghost use Rattle.symbol_fonts.specs.Fonts.{first_named, fonts_in, is_dingbats, is_font_named, is_number, other_font};
ghost use Rattle.symbol_fonts.specs.Fonts.{symbol_font, symbol_fonts};

use crate::SymbolFont;
use doc_bits::get16;

/// The names of the fonts, in units of two bytes with a zero behind them.
const SYMBOL: &[u8] = b"S\0y\0m\0b\0o\0l\0\0\0";

const WINGDINGS: &[u8] = b"W\0i\0n\0g\0d\0i\0n\0g\0s\0\0\0";

const WINGDINGS_2: &[u8] = b"W\0i\0n\0g\0d\0i\0n\0g\0s\0 \02\0\0\0";

const WINGDINGS_3: &[u8] = b"W\0i\0n\0g\0d\0i\0n\0g\0s\0 \03\0\0\0";

const WEBDINGS: &[u8] = b"W\0e\0b\0d\0i\0n\0g\0s\0\0\0";

const ZAPF_DINGBATS: &[u8] = b"Z\0a\0p\0f\0D\0i\0n\0g\0b\0a\0t\0s\0\0\0";

const MONOTYPE_SORTS: &[u8] = b"M\0o\0n\0o\0t\0y\0p\0e\0 \0S\0o\0r\0t\0s\0\0\0";

/// [MS-DOC] SttbfFfn: where the first font is.
const FIRST_FONT: usize = 4;

/// [MS-DOC] FFN: where its name is.
const NAME_PLACE: usize = 39;

/// The numbers of the symbol fonts of a document, of each the first of its name.
#[derive(Clone, Copy, PartialEq, Eq)]
pub struct SymbolFonts {
    pub symbol: Option<u16>,
    pub wingdings: Option<u16>,
    pub wingdings_2: Option<u16>,
    pub wingdings_3: Option<u16>,
    pub webdings: Option<u16>,
    pub zapf_dingbats: Option<u16>,
    /// Its signs are those of Zapf Dingbats.
    pub monotype_sorts: Option<u16>,
}

impl SymbolFonts {
    /// Those of a font table, [MS-DOC] SttbfFfn. It is linear in the table.
    pub fn of(table: &[u8]) -> SymbolFonts
        ensures { result ≡ symbol_fonts table.now }
    {
        SymbolFonts {
            symbol: first_named(table, SYMBOL),
            wingdings: first_named(table, WINGDINGS),
            wingdings_2: first_named(table, WINGDINGS_2),
            wingdings_3: first_named(table, WINGDINGS_3),
            webdings: first_named(table, WEBDINGS),
            zapf_dingbats: first_named(table, ZAPF_DINGBATS),
            monotype_sorts: first_named(table, MONOTYPE_SORTS),
        }
    }

    /// Which symbol font the font with this number is.
    pub fn font(self, number: Option<u16>) -> Option<SymbolFont>
        ensures { result ≡ symbol_font self number }
    {
        match number {
            None => None,
            Some(number) => self.font_of(number),
        }
    }

    fn font_of(self, number: u16) -> Option<SymbolFont>
        ensures { result ≡ symbol_font self (Some number) }
    {
        if is_number(self.symbol, number) {
            Some(SymbolFont::Symbol)
        } else if is_number(self.wingdings, number) {
            Some(SymbolFont::Wingdings)
        } else {
            self.other_font(number)
        }
    }

    /// The same of the fonts but Symbol and Wingdings.
    fn other_font(self, number: u16) -> Option<SymbolFont>
        ensures { result ≡ other_font self number }
    {
        if is_number(self.wingdings_2, number) {
            Some(SymbolFont::Wingdings2)
        } else if is_number(self.wingdings_3, number) {
            Some(SymbolFont::Wingdings3)
        } else if is_number(self.webdings, number) {
            Some(SymbolFont::Webdings)
        } else if self.is_dingbats(number) {
            Some(SymbolFont::Dingbats)
        } else {
            None
        }
    }

    /// Whether the signs of a font are those of Zapf Dingbats.
    fn is_dingbats(self, number: u16) -> bool
        ensures { result ≡ is_dingbats self number }
    {
        is_number(self.zapf_dingbats, number) || is_number(self.monotype_sorts, number)
    }
}

/// Whether a font has this number.
fn is_number(font: Option<u16>, number: u16) -> bool
    ensures { result ≡ is_number font number }
{
    match font {
        None => false,
        Some(font) => font == number,
    }
}

/// The number of the first font of a name.
fn first_named(table: &[u8], name: &[u8]) -> Option<u16>
    ensures { result ≡ first_named name.now 0 (fonts_in table.now) }
{
    if table.len() < FIRST_FONT {
        return None;
    }
    let mut at = FIRST_FONT;
    for number in 0..get16(table, 0) {
        if at >= table.len() {
            return None;
        }
        let end = at + 1 + table[at] as usize;
        if end > table.len() {
            return None;
        }
        if is_named(&table[at + 1..end], name) {
            return Some(number);
        }
        at = end;
    }
    None
}

/// Whether a font has this name.
fn is_named(font: &[u8], name: &[u8]) -> bool
    ensures { result ≡ is_font_named name.now font.now }
{
    let end = NAME_PLACE + name.len();
    end <= font.len() && &font[NAME_PLACE..end] == name
}
