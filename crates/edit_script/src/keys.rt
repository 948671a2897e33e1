// The keys of an object.
ghost use Rattle.std.specs.Prelude.{◌≡◌, Some, None, MatchResult};
ghost use Rattle.serde_json.specs.Find.{get};
ghost use Rattle.serde_json.specs.View.{view};
ghost use Rattle.edit_script.specs.Keys.{keys_in};

use crate::ShapeError;
use serde_json::Value;

/// How many keys a value has: those of an object.
pub fn key_count(value: &Value) -> usize
    ensures { result ≡ keys_in (view value.now) }
{
    match value.as_object() {
        None => 0,
        Some(members) => members.len(),
    }
}

/// The value at a key.
pub fn member<'a>(value: &'a Value, name: &str) -> Result<&'a Value, ShapeError>
    ensures { MatchResult result
        (λ found. get name.now (view value.now) ≡ Some (view found.now))
        (λ fault. (fault ≡ ShapeError.Shape) × (get name.now (view value.now) ≡ None)) }
{
    match value.get(name) {
        None => Err(ShapeError::Shape),
        Some(found) => Ok(found),
    }
}
