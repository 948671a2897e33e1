// The characters that represent fields.

/// The character that begins a field.
pub const FIELD_BEGIN: u16 = 0x13;

/// The character between the instruction of a field and its result.
pub const FIELD_SEPARATOR: u16 = 0x14;

/// The character that ends a field.
pub const FIELD_END: u16 = 0x15;

/// The first unit that is no control.
pub const SPACE: u16 = 0x20;

/// The unit of a picture, where it is special.
pub const PICTURE: u16 = 0x01;

/// The replacement character.
pub const REPLACEMENT: u16 = 0xFFFD;
