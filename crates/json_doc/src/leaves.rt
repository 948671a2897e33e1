// What single fields are written as.
ghost use Rattle.std.specs.Prelude.{OnOk};
ghost use Rattle.serde_json.specs.Written.{compact_text};
ghost use Rattle.json_values.specs.Digits.{bytes_json, units_json};
ghost use Rattle.json_values.specs.Out.{Adds};
ghost use Rattle.json_values.specs.Rows.{number_json};

use doc_bits::{Bytes, Memory, Units};
use json_values::{JsonOut, write_bytes, write_number, write_units};
use std::alloc::Global;

/// Writes bytes.
pub(crate) fn write_part(out: &mut JsonOut, bytes: &Bytes) -> Result<(), Memory>
    ensures { OnOk result (Adds out.old out.new (compact_text (bytes_json bytes.now))) }
{
    write_bytes(out, bytes.as_slice())
}

/// Writes the units of a name.
pub(crate) fn write_name(out: &mut JsonOut, name: &Units) -> Result<(), Memory>
    ensures { OnOk result (Adds out.old out.new (compact_text (units_json name.now))) }
{
    write_units(out, name.as_slice())
}

/// Writes a number of 32 bits.
pub(crate) fn write_place(alloc: Global, out: &mut JsonOut, place: u32) -> Result<(), Memory>
    ensures { OnOk result (Adds out.old out.new (compact_text (number_json place))) }
{
    write_number(alloc, out, u64::from(place))
}

/// Writes a number of 16 bits.
pub(crate) fn write_short(alloc: Global, out: &mut JsonOut, number: u16) -> Result<(), Memory>
    ensures { OnOk result (Adds out.old out.new (compact_text (number_json number))) }
{
    write_number(alloc, out, u64::from(number))
}

/// Writes a number of 8 bits.
pub(crate) fn write_byte(alloc: Global, out: &mut JsonOut, number: u8) -> Result<(), Memory>
    ensures { OnOk result (Adds out.old out.new (compact_text (number_json number))) }
{
    write_number(alloc, out, u64::from(number))
}
