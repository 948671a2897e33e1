ghost use Rattle.std.specs.Prelude.{◌≡◌, ◌↔◌, IsTrue};
ghost use Rattle.edit_guards.specs.Policies.{Policy, Grants, policy_after};

use crate::facts::Facts;

/// Someone who may refuse an edit, and who is told of each edit that was accepted. Neither call takes
/// memory.
pub trait Guard: Drop {
    /// What the guard allows from now on.
    ghost policy: { Self → Policy };

    /// Whether the guard allows an edit that does this.
    fn may(&self, facts: Facts) -> bool
        ensures grants { IsTrue result ↔ Grants (policy self.now) facts };

    /// Tells the guard of an edit that was accepted, and that all guards allowed.
    fn note(&mut self, facts: Facts)
        requires granted { Grants (policy self.old) facts }
        ensures after { policy self.new ≡ policy_after (policy self.old) facts };
}
