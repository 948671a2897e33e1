// [MS-DOC] ToggleOperand.
ghost use Rattle.std.specs.Prelude.{◌≡◌, Some};
ghost use Rattle.std.specs.Option.{option_map};
ghost use Rattle.effective_props.specs.Toggles.{is_byte, opposite, toggled};

/// Keeps what the layers before have.
pub const TOGGLE_AS_STYLE: u8 = 0x80;

/// Turns it round.
pub const TOGGLE_OPPOSITE: u8 = 0x81;

/// What a toggle's value makes of the value so far, where that changes.
pub(crate) fn toggle<'a>(before: Option<&'a [u8]>, value: &'a [u8]) -> Option<&'a [u8]>
    ensures { option_map (λ v. v.now) result ≡ toggled (option_map (λ v. v.now) before.entry) value.now }
{
    if is_byte(value, TOGGLE_AS_STYLE) {
        return before;
    }
    if is_byte(value, TOGGLE_OPPOSITE) {
        return Some(opposite(before));
    }
    Some(value)
}

/// The opposite of the value so far, where there may be none.
fn opposite<'a>(before: Option<&'a [u8]>) -> &'a [u8]
    ensures { result.now ≡ opposite (option_map (λ v. v.now) before.entry) }
{
    match before {
        None => &[1],
        Some(value) => { if is_byte(value, 0) { &[1] } else { &[0] } }
    }
}

/// Whether the value is this one byte.
pub fn is_byte(value: &[u8], byte: u8) -> bool
    ensures { result ≡ is_byte value.now byte }
{
    value.len() == 1 && value[0] == byte
}
