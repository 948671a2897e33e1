// Numbers and null, which serde_json writes.
ghost use Rattle.std.specs.Prelude.{OnOk};
ghost use Rattle.serde_json.specs.Data.{null, number, unsigned};
ghost use Rattle.serde_json.specs.Written.{compact_text};
ghost use Rattle.json_values.specs.Out.{Adds};

use crate::JsonOut;
use doc_bits::Memory;
use serde_json::Value;
use std::alloc::Global;

/// Writes a whole number.
pub fn write_number(alloc: Global, out: &mut JsonOut, value: u64) -> Result<(), Memory>
    ensures { OnOk result (Adds out.old out.new (compact_text (number (unsigned value)))) }
{
    let text = Value::from(value).to_string(alloc)?;
    out.push(&text)
}

/// Writes that nothing is there.
pub fn write_null(out: &mut JsonOut) -> Result<(), Memory>
    ensures { OnOk result (Adds out.old out.new (compact_text null)) }
{
    out.push("null")
}
