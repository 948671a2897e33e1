// The levels of a list.
ghost use Rattle.std.specs.Prelude.{◌≡◌, ◌<◌, ◌++◌, ◌∷◌, [], length, slice_get, Some, OnOk};

use crate::level::Level;
use doc_bits::Memory;
use std::alloc::Global;
use std::marker::Model;

/// The levels of a list.
#[derive(Drop)]
pub(crate) struct Levels {
    items: Vec<Level>,
}

impl Model for Levels {
    ghost use Rattle.std.specs.Prelude.{List};
    ghost use Rattle.std.specs.Coded.{coded_list};
    ghost use Rattle.list_numbers.specs.declared.level.Level.{Level};
    ghost use Rattle.list_numbers.specs.contracts.level.Level as level;

    ghost Value = { List Level };

    ghost coded = { coded_list level.the_row.coded };

    ghost view = { λ l. l.items.items };
}

impl Levels {
    pub(crate) fn new(alloc: Global) -> Levels
        ensures { result ≡ [] }
    {
        Levels {
            items: Vec::new(alloc),
        }
    }

    pub(crate) fn len(&self) -> usize
        ensures { result ≡ length self.now }
    {
        self.items.len()
    }

    pub(crate) fn get(&self, i: usize) -> &Level
        requires { i < length self.now }
        ensures { slice_get self.now i ≡ Some result.now }
    {
        &self.items[i]
    }

    pub(crate) fn add(&mut self, level: Level) -> Result<(), Memory>
        ensures { OnOk result (self.new ≡ self.old ++ level ∷ []) }
    {
        self.items.push(level)?;
        Ok(())
    }
}
