// What layers of properties make of a format, whatever it was.
ghost use Rattle.std.specs.Prelude.{◌≡◌, ◌==◌, ◌<◌, ℕ, length, Option, Some, None, if◌then◌else◌};
ghost use Rattle.char_formats.specs.Formats.{font_of, position_of, symbol_of, format_in};
ghost use Rattle.char_formats.specs.Flags.{code_at, flag_at, flag_after, flag_then};
ghost use Rattle.char_formats.specs.Changes.{Act, no_act, with_layer, with_value, IsChangeOf};

use crate::flag::Flag;
use crate::{CharFormat, Position, Symbol};
use doc_bits::get16;
use effective_props::is_byte;
use prop_map::PropMap;
use sprm_table::{Code, SPRM_C_ISS, SPRM_C_SYMBOL};

/// [MS-DOC] sprmCRgFtc2.
const SPRM_C_RG_FTC2: Code = Code(0x4A51);

/// How many properties that are on or off are looked at.
const FLAG_COUNT: usize = 12;

/// Their codes, ascending: sprmCFData, sprmCFOle2, sprmCFBold, sprmCFItalic, sprmCFStrike, sprmCFSmallCaps, sprmCFCaps,
/// sprmCFVanish, sprmCFSpec, sprmCFObj, sprmCKul, sprmCFDStrike.
const FLAG_CODES: [u16; FLAG_COUNT] = [
    0x0806, 0x080A, 0x0835, 0x0836, 0x0837, 0x083A, 0x083B, 0x083C, 0x0855, 0x0856, 0x2A3E, 0x2A53,
];

/// The last of them.
const SPRM_C_F_D_STRIKE: u16 = 0x2A53;

/// What is made of each property.
#[derive(Clone, Copy)]
pub(crate) struct Change {
    /// Of those that are on or off, in the order of their codes.
    pub(crate) flags: [Flag; FLAG_COUNT],
    pub(crate) position: Option<Position>,
    pub(crate) symbol: Option<Option<Symbol>>,
    pub(crate) font: Option<Option<u16>>,
}

impl Change {
    /// Nothing is changed.
    pub(crate) fn none() -> Change
        ensures { IsChangeOf no_act result }
    {
        Change {
            flags: [Flag::Keep; FLAG_COUNT],
            position: None,
            symbol: None,
            font: None,
        }
    }

    /// This change and then another one.
    pub(crate) fn then(&self, next: &Change) -> Change
        ensures { (one other : Act) → IsChangeOf one self.now → IsChangeOf other next.now →
            IsChangeOf (λ code before. other code (one code before)) result }
    {
        let mut made = *self;
        add_flags(&mut made.flags, &next.flags);
        made.position = next.position.or(self.position);
        made.symbol = next.symbol.or(self.symbol);
        made.font = next.font.or(self.font);
        made
    }

    /// Lays a map over what there is.
    pub(crate) fn lay_all(&mut self, map: &PropMap)
        ensures { (act : Act) → IsChangeOf act self.old → IsChangeOf (with_layer map.now act) self.new }
    {
        let mut left = map.entries();
        while let Some((code, value)) = left.next() {
            self.lay(code, value);
        }
    }

    /// Lays a value over what there is.
    fn lay(&mut self, code: Code, value: &[u8])
        ensures { (act : Act) → IsChangeOf act self.old → IsChangeOf (with_value code.0 value.now act) self.new }
    {
        lay_flag(&mut self.flags, code, value);
        self.position = position_after(self.position, code, value);
        self.symbol = symbol_after(self.symbol, code, value);
        self.font = font_after(self.font, code, value);
    }

    /// The format of a character of which nothing was said before, and which names a picture or none.
    pub(crate) fn format(&self, picture: Option<u32>) -> CharFormat
        ensures { (act : Act) → IsChangeOf act self.now → result ≡ format_in picture (λ code. act code None) }
    {
        let [
            data,
            ole,
            bold,
            italic,
            strike,
            small_caps,
            caps,
            hidden,
            special,
            object,
            underline,
            twice,
        ] = self.flags;
        CharFormat {
            bold: bold.is_on(),
            italic: italic.is_on(),
            underline: underline.is_on(),
            strike: strike.is_on() | twice.is_on(),
            small_caps: small_caps.is_on(),
            caps: caps.is_on(),
            position: self.position.unwrap_or(Position::Normal),
            hidden: hidden.is_on(),
            special: special.is_on(),
            of_field: data.is_on(),
            object: ole.is_on() | object.is_on(),
            symbol: self.symbol.unwrap_or(None),
            font: self.font.unwrap_or(None),
            picture,
        }
    }
}

/// Puts each change of the one list behind that of the other.
fn add_flags(flags: &mut [Flag], next: &[Flag])
    requires count { length flags.old ≡ 12 }
    requires next_count { length next.now ≡ 12 }
    ensures { (i : ℕ) → i < 12 → flag_at flags.new i ≡ flag_then (flag_at flags.old i) (flag_at next.now i) }
{
    for i in 0..FLAG_COUNT {
        flags[i] = flags[i].then(next[i]);
    }
}

/// Lays a value over what there is at its code.
fn lay_flag(flags: &mut [Flag], code: Code, value: &[u8])
    requires { length flags.old ≡ 12 }
    ensures { (i : ℕ) → i < 12 → flag_at flags.new i ≡ flag_after (flag_at flags.old i) (code_at i) code.0 value.now }
{
    if code.0 > SPRM_C_F_D_STRIKE {
        return;
    }
    for i in 0..FLAG_COUNT {
        flags[i] = flag_after(flags[i], FLAG_CODES[i], code, value);
    }
}

/// The change at one code after a value at some code.
fn flag_after(before: Flag, own: u16, code: Code, value: &[u8]) -> Flag
    ensures { result ≡ flag_after before own code.0 value.now }
{
    if own == code.0 {
        before.then(Flag::by(code, value))
    } else {
        before
    }
}

/// The position after a value at a code.
fn position_after(before: Option<Position>, code: Code, value: &[u8]) -> Option<Position>
    ensures { result ≡ (if code.0 == 0x2A48 then Some (position_of (Some value.now)) else before) }
{
    if code != SPRM_C_ISS {
        return before;
    }
    if is_byte(value, 1) {
        return Some(Position::Raised);
    }
    if is_byte(value, 2) {
        return Some(Position::Lowered);
    }
    Some(Position::Normal)
}

/// The symbol after a value at a code.
fn symbol_after(before: Option<Option<Symbol>>, code: Code, value: &[u8]) -> Option<Option<Symbol>>
    ensures { result ≡ (if code.0 == 0x6A09 then Some (symbol_of (Some value.now)) else before) }
{
    if code != SPRM_C_SYMBOL {
        return before;
    }
    if value.len() == 4 {
        return Some(Some(Symbol {
            font: get16(value, 0),
            code: get16(value, 2),
        }));
    }
    Some(None)
}

/// The font after a value at a code.
fn font_after(before: Option<Option<u16>>, code: Code, value: &[u8]) -> Option<Option<u16>>
    ensures { result ≡ (if code.0 == 0x4A51 then Some (font_of (Some value.now)) else before) }
{
    if code != SPRM_C_RG_FTC2 {
        return before;
    }
    if value.len() == 2 {
        return Some(Some(get16(value, 0)));
    }
    Some(None)
}
