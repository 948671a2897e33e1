// Large values that a test makes and looks at. Who owns one at many points is dear to prove, so each is owned here,
// where nothing is known of its parts.
use doc_bits::Memory;

/// Whether a value was made of which a test holds.
pub(crate) fn is_made<T: Drop, E: Drop, F: FnOnce(&T) -> Result<bool, Memory>>(
    made: Result<T, E>,
    test: F,
) -> Result<bool, Memory>
    requires { F.IsAlwaysCallable test }
{
    match made {
        Ok(value) => test(&value),
        Err(_) => Ok(false),
    }
}

/// A value to which something was done, where that was done.
pub(crate) fn given<T: Drop, E: Drop>(value: T, done: Result<(), E>) -> Result<T, E> {
    match done {
        Ok(()) => Ok(value),
        Err(fault) => Err(fault),
    }
}
