// The properties that an object spells.
ghost use Rattle.serde_json.specs.View.{view};
ghost use Rattle.edit_script.specs.Json.{GivesReading};
ghost use Rattle.edit_script.specs.Values.{properties_of};

use crate::ShapeError;
use crate::hex::code_in;
use crate::values::bytes_in;
use prop_map::{Draft, PropMap};
use serde_json::Value;
use sprm_table::Code;
use std::alloc::Global;

/// Properties: an object whose keys are codes of four digits, its values those of their operands, two digits a byte.
pub fn properties_in(alloc: Global, value: &Value) -> Result<PropMap, ShapeError>
    ensures { GivesReading result (properties_of (view value.now)) }
{
    let Some(members) = value.as_object() else {
        return Err(ShapeError::Shape);
    };
    let mut draft = Draft::new(alloc);
    for (key, value) in members.iter() {
        let Some(code) = code_in(key.as_bytes()) else {
            return Err(ShapeError::Shape);
        };
        draft.put(Code(code), bytes_in(alloc, value)?)?;
    }
    Ok(draft.into_map(alloc)?)
}
