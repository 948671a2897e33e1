// Structures of numbers, field by field.
ghost use Rattle.std.specs.Prelude.{◌≡◌, ◌++◌, OnOk};
ghost use Rattle.doc_bits.specs.Number.{number_bytes};
ghost use Rattle.cfb_layout.specs.Fields.{field_bytes, fields_bytes};

use doc_bits::{Bytes, Memory};

/// A number of a structure, by its width of four bytes, two or one.
#[derive(Clone, Copy)]
pub enum Field {
    Long(u32),
    Word(u16),
    Byte(u8),
}

/// Appends a byte.
fn push_byte(out: &mut Bytes, value: u8) -> Result<(), Memory>
    ensures { OnOk result (out.new ≡ out.old ++ number_bytes 1 value) }
{
    out.push_all(&[value])?;
    Ok(())
}

/// Appends a field.
fn push_field(out: &mut Bytes, field: Field) -> Result<(), Memory>
    ensures { OnOk result (out.new ≡ out.old ++ field_bytes field) }
{
    match field {
        Field::Long(value) => out.push32(value),
        Field::Word(value) => out.push16(value),
        Field::Byte(value) => push_byte(out, value),
    }
}

/// Appends fields, one after another.
pub(crate) fn push_fields(out: &mut Bytes, fields: &[Field]) -> Result<(), Memory>
    ensures { OnOk result (out.new ≡ out.old ++ fields_bytes fields.now) }
{
    for field in fields {
        push_field(out, *field)?;
    }
    Ok(())
}
