// What becomes of a value that is owned while something else is made.
ghost use Rattle.std.specs.Prelude.{◌≡◌, Ok, Err, MatchResult};
ghost use Rattle.std.specs.Result.{IsOk};

/// An answer, once the value that it was made of is dropped.
pub fn drop_then<T: Drop, A>(value: T, answer: A) -> A
    ensures { result ≡ answer }
{
    drop(value);
    answer
}

/// The value with what was made of it. Where nothing was made the value is dropped.
pub fn with_result<T: Drop, U, E>(value: T, made: Result<U, E>) -> Result<(T, U), E>
    ensures { MatchResult result
        (λ both. (both.0 ≡ value) × (made ≡ Ok both.1)) (λ fault. made ≡ Err fault) }
{
    match made {
        Ok(made) => Ok((value, made)),
        Err(fault) => Err(fault),
    }
}

/// What was made, where the verdict on it is good; else it is dropped.
pub fn keep_if_ok<T: Drop, E: Drop>(made: T, verdict: Result<(), E>) -> Result<T, E>
    ensures { MatchResult result
        (λ given. (given ≡ made) × IsOk verdict)
        (λ fault. verdict ≡ Err fault) }
{
    match verdict {
        Ok(()) => Ok(made),
        Err(fault) => Err(fault),
    }
}
