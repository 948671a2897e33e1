ghost use Rattle.std.specs.Prelude.{◌≡◌, IfOk};
ghost use Rattle.edit_guards.specs.Policies.{lock_of};

use crate::facts::Facts;
use crate::guard::Guard;
use doc_bits::Memory;
use std::alloc::Global;
use std::marker::Model;

/// A guard that refuses edits which concern one of its styles, and lets edits add any number of items.
#[derive(Drop)]
pub struct StyleLock {
    styles: Vec<u16>,
}

impl Model for StyleLock {
    ghost use Rattle.std.specs.Prelude.{List, ℕ};

    ghost Value = { List ℕ };

    ghost view = { λ l. l.styles.items };
}

impl StyleLock {
    /// A guard that locks these styles.
    pub fn new(alloc: Global, styles: &[u16]) -> Result<StyleLock, Memory>
        ensures { IfOk result (λ lock. lock ≡ styles.now) }
    {
        Ok(StyleLock {
            styles: styles.to_vec(alloc)?,
        })
    }
}

impl Guard for StyleLock {
    ghost policy = { lock_of };

    fn may(&self, facts: Facts) -> bool {
        !self.styles.contains(&facts.style)
    }

    fn note(&mut self, _facts: Facts) {}
}
