// What values make of a property that is on or off.
ghost use Rattle.std.specs.Prelude.{◌≡◌, Some, false};
ghost use Rattle.sprm_table.specs.Codes.{class_of};
ghost use Rattle.effective_props.specs.Toggles.{is_byte};
ghost use Rattle.effective_props.specs.Values.{is_toggle};
ghost use Rattle.char_formats.specs.Formats.{is_nonzero_value};
ghost use Rattle.char_formats.specs.Flags.{does, flag_then, toggle_flag, flag_by};

use effective_props::{TOGGLE_AS_STYLE, TOGGLE_OPPOSITE, is_byte};
use sprm_table::{Class, Code, class};

/// What is made of a property that is on or off, whatever it was.
#[derive(Clone, Copy)]
pub(crate) enum Flag {
    Keep,
    Turn,
    Set(bool),
}

impl Flag {
    /// What a value at a code makes of it.
    pub(crate) fn by(code: Code, value: &[u8]) -> Flag
        ensures { result ≡ flag_by code.0 value.now }
    {
        match class(code) {
            Class::Toggle => toggle(value),
            _ => Flag::Set(is_set(value)),
        }
    }

    /// This change and then another one.
    pub(crate) fn then(self, next: Flag) -> Flag
        ensures { result ≡ flag_then self next }
    {
        match next {
            Flag::Keep => self,
            Flag::Set(on) => Flag::Set(on),
            Flag::Turn => match self {
                Flag::Keep => Flag::Turn,
                Flag::Turn => Flag::Keep,
                Flag::Set(on) => Flag::Set(!on),
            },
        }
    }

    /// Whether a property that was off is on after it.
    pub(crate) fn is_on(self) -> bool
        ensures { result ≡ does self false }
    {
        match self {
            Flag::Keep => false,
            Flag::Turn => true,
            Flag::Set(on) => on,
        }
    }
}

/// [MS-DOC] ToggleOperand.
fn toggle(value: &[u8]) -> Flag
    ensures { result ≡ toggle_flag value.now }
{
    if is_byte(value, TOGGLE_AS_STYLE) {
        return Flag::Keep;
    }
    if is_byte(value, TOGGLE_OPPOSITE) {
        return Flag::Turn;
    }
    Flag::Set(is_set(value))
}

/// Whether the value sets what it is a value of.
fn is_set(value: &[u8]) -> bool
    ensures { result ≡ is_nonzero_value (Some value.now) }
{
    !is_byte(value, 0)
}
