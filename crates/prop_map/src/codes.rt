// Codes by their names in the standard, the groups that places hold, and what a map may hold.
ghost use Rattle.std.specs.Prelude.{◌↔◌, IsTrue};
ghost use Rattle.sprm_table.specs.Sprm.{IsPrl, IsProperty};
ghost use Rattle.prop_map.specs.Formed.{IsMapEntry};

use sprm_table::{Class, Code, OperandSize, class, held, operand_size};

/// The groups that a place for character properties holds. Bit sgc is set for each.
pub const CHARACTER_GROUPS: u8 = 0x04;

/// The groups that a place for paragraph properties holds: paragraphs and tables.
pub const PARAGRAPH_GROUPS: u8 = 0x22;

/// The groups that a place for section properties holds.
pub const SECTION_GROUPS: u8 = 0x10;

/// The groups that a Prc holds: characters, paragraphs and tables.
pub const PRC_GROUPS: u8 = 0x26;

/// Whether a map at a place with these groups may hold the value at the code.
pub fn may_hold(groups: u8, code: Code, value: &[u8]) -> bool
    ensures { IsTrue result ↔ IsMapEntry groups (code.0, value.now) }
{
    is_property_of(groups, code, value)
}

/// Whether an entry with the code and the value sets the code, at a place with these groups.
fn is_property_of(groups: u8, code: Code, value: &[u8]) -> bool
    ensures { IsTrue result ↔ IsProperty groups (code.0, value.now) }
{
    if !held(groups, code) || !is_prl(code, value) {
        return false;
    }
    match class(code) {
        Class::Plain | Class::Toggle => true,
        Class::Clear | Class::Style | Class::Refused => false,
    }
}

/// Whether the value has the size of the code's operand, and the code is not the one that ends lists.
fn is_prl(code: Code, value: &[u8]) -> bool
    ensures { IsTrue result ↔ IsPrl (code.0, value.now) }
{
    if code.0 == 0 {
        return false;
    }
    match operand_size(code) {
        OperandSize::Fixed(size) => value.len() == size,
        OperandSize::CountedByByte => value.len() <= 255,
        OperandSize::CountedByWord => value.len() <= 65534,
    }
}
