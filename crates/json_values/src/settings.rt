// Properties as an object, written entry by entry.
ghost use Rattle.std.specs.Prelude.{OnOk};
ghost use Rattle.serde_json.specs.Written.{compact_text, comma_if};
ghost use Rattle.json_values.specs.Out.{Adds};
ghost use Rattle.json_values.specs.Settings.{properties_json, entry_text};

use crate::JsonOut;
use crate::digits::{push_word, write_bytes};
use doc_bits::Memory;
use prop_map::PropMap;

/// Writes the value that represents properties.
pub fn write_properties(out: &mut JsonOut, set: &PropMap) -> Result<(), Memory>
    ensures { OnOk result (Adds out.old out.new (compact_text (properties_json set.now))) }
{
    out.push("{")?;
    let mut later = false;
    let mut left = set.entries();
    while let Some((code, value)) = left.next() {
        push_entry(out, later, code.0, value)?;
        later = true;
    }
    out.push("}")
}

/// Writes an entry, behind a comma where one is before it.
fn push_entry(out: &mut JsonOut, later: bool, code: u16, value: &[u8]) -> Result<(), Memory>
    ensures { OnOk result (Adds out.old out.new (entry_text later (code, value.now))) }
{
    push_comma(out, later)?;
    out.push("\"")?;
    push_word(out, code)?;
    out.push("\":")?;
    write_bytes(out, value)
}

/// Writes a comma where something is before.
pub fn push_comma(out: &mut JsonOut, later: bool) -> Result<(), Memory>
    ensures { OnOk result (Adds out.old out.new (comma_if later)) }
{
    if later { out.push(",") } else { Ok(()) }
}
