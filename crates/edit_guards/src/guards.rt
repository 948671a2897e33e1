ghost use Rattle.std.specs.Prelude.{◌≡◌, ◌↔◌, IsTrue, map, MatchOption};
ghost use Rattle.edit_guards.specs.Policies.{Grants, policy_after, AllGrant, IsFirstRefuser, policies_after};

use crate::facts::Facts;
use crate::guard::Guard;

/// Tells the boxed guard of an edit that it allows.
fn tell(guard: &mut Box<dyn Guard>, facts: Facts)
    requires granted { Grants (policy guard.old) facts }
    ensures after { policy guard.new ≡ policy_after (policy guard.old) facts }
{
    guard.note(facts);
}

/// The index of the first guard that refuses an edit that does this. It takes no memory.
pub fn first_refuser(guards: &[Box<dyn Guard>], facts: Facts) -> Option<usize>
    ensures { MatchOption result
        (AllGrant (map (λ b. policy b) guards.now) facts)
        (IsFirstRefuser (map (λ b. policy b) guards.now) facts) }
{
    guards.iter().position(
        |guard| -> bool
            ensures { IsTrue result ↔ ¬ (Grants (policy guard.now) facts) }
        { !guard.may(facts) },
    )
}

/// Tells each guard of an edit that was accepted, and that all of them allow. It takes no memory.
pub fn note_all(guards: &mut [Box<dyn Guard>], facts: Facts)
    requires granted { AllGrant (map (λ b. policy b) guards.old) facts }
    ensures after { map (λ b. policy b) guards.new ≡ policies_after (map (λ b. policy b) guards.old) facts }
{
    for guard in guards.iter_mut() {
        tell(guard, facts);
    }
}
