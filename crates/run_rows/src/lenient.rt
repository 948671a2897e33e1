// A guard of a kind of its own.
ghost use Rattle.std.specs.Prelude.{[]};
ghost use Rattle.edit_guards.specs.Policies.{lock_of};

use edit_guards::{Facts, Guard};

/// Allows each edit.
#[derive(Drop)]
pub struct Lenient;

impl Guard for Lenient {
    ghost policy = { λ _. lock_of [] };

    fn may(&self, _facts: Facts) -> bool {
        true
    }

    fn note(&mut self, _facts: Facts) {}
}
