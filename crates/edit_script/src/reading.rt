// Bytes read as a script.
ghost use Rattle.std.specs.Prelude.{◌≡◌, ◌⊎◌, ◌≤◌, map, length, MatchResult};
ghost use Rattle.serde_json.specs.View.{view};
ghost use Rattle.serde_json.specs.Errors.{IsMemory};
ghost use Rattle.edit_script.specs.Json.{IsJson};
ghost use Rattle.edit_script.specs.Scripts.{most_commands, IsScript, IsScriptFault, IsScriptOf, IsMembersFault};

use crate::shapes::command_in;
use crate::{Script, ScriptFault, ShapeError};
use serde_json::{Error, Value};
use std::alloc::Global;

/// The most commands of a script.
const MAX_COMMANDS: usize = 4096;

/// Reads a script: a JSON array of commands, the last of them a save. `Json` comes where the bytes are no JSON, else
/// `Shape` with index 0 where they are no array, else `TooLong` where it has more than 4,096 members, else `Shape` with
/// the first member that is no command, or with the number of members where the last is no save.
pub fn read_script(alloc: Global, bytes: &[u8]) -> Result<Script, ScriptFault>
    ensures { MatchResult result (IsScript bytes.now) (IsScriptFault bytes.now) }
{
    let value = json_of(alloc, bytes)?;
    match value.as_array() {
        None => Err(ScriptFault::Shape { index: 0 }),
        Some(members) => script_of(alloc, members.as_slice()),
    }
}

/// The value that the bytes spell.
fn json_of(alloc: Global, bytes: &[u8]) -> Result<Value, ScriptFault>
    ensures { MatchResult result (λ value. IsJson bytes.now (view value)) (IsScriptFault bytes.now) }
{
    match Value::from_slice(alloc, bytes) {
        Ok(value) => Ok(value),
        Err(error) => Err(fault_of(&error)),
    }
}

/// Why the bytes are not read as JSON.
fn fault_of(error: &Error) -> ScriptFault
    ensures json { result ≡ ScriptFault.Json → ¬ (IsMemory error.now) }
    ensures either { (result ≡ ScriptFault.Json) ⊎ (result ≡ ScriptFault.Memory) }
{
    if error.is_memory() {
        ScriptFault::Memory
    } else {
        ScriptFault::Json
    }
}

/// The commands of the members of an array.
fn script_of(alloc: Global, members: &[Value]) -> Result<Script, ScriptFault>
    ensures { MatchResult result (IsScriptOf (map view members.now)) (IsMembersFault (map view members.now)) }
{
    if members.len() > MAX_COMMANDS {
        return Err(ScriptFault::TooLong);
    }
    let mut script = Script::new(alloc);
    for member in members {
        match command_in(alloc, member) {
            Ok(command) => script.add(command)?,
            Err(ShapeError::Shape) => return Err(shape_at(&script)),
            Err(ShapeError::Memory) => return Err(ScriptFault::Memory),
        }
    }
    if script.ends_with_save() {
        Ok(script)
    } else {
        Err(shape_at(&script))
    }
}

/// A wrong shape behind these commands.
fn shape_at(script: &Script) -> ScriptFault
    requires { length script.now ≤ most_commands }
    ensures { result ≡ ScriptFault.Shape (length script.now) }
{
    ScriptFault::Shape {
        index: script.len() as u32,
    }
}
