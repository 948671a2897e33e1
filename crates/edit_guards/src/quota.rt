ghost use Rattle.std.specs.Prelude.{◌≡◌};
ghost use Rattle.edit_guards.specs.Policies.{quota_of};

use crate::facts::Facts;
use crate::guard::Guard;
use std::marker::Model;

/// A guard that lets edits add so many items in all, and locks no style.
#[derive(Drop)]
pub struct UnitQuota {
    left: u64,
}

impl Model for UnitQuota {
    ghost use Rattle.std.specs.Prelude.{ℕ};

    ghost Value = { ℕ };

    ghost view = { λ q. q.left };
}

impl UnitQuota {
    /// A guard that lets edits add `units` items in all.
    pub fn new(units: u64) -> UnitQuota
        ensures { result ≡ units }
    {
        UnitQuota { left: units }
    }
}

impl Guard for UnitQuota {
    ghost policy = { quota_of };

    fn may(&self, facts: Facts) -> bool {
        u64::from(facts.units_in) <= self.left
    }

    fn note(&mut self, facts: Facts) {
        self.left -= u64::from(facts.units_in);
    }
}
