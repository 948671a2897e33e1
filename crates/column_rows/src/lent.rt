// Large values that a test makes, looks at and lets go. Who owns one at many points is dear to prove, so each is owned
// here, where nothing is known of its parts.
use doc_bits::Memory;

/// Whether a value was made of which a test holds.
pub fn is_made<T: Drop, E: Drop, F: FnOnce(&T) -> Result<bool, Memory>>(
    made: Result<T, E>,
    test: F,
) -> Result<bool, Memory>
    requires { F.IsAlwaysCallable test }
{
    match made {
        Ok(value) => test(&value),
        Err(_) => Ok(false),
    }
}
