// The numbers of paragraphs.
ghost use Rattle.std.specs.Prelude.{◌≡◌, ◌<◌, ◌++◌, ◌∷◌, [], length, slice_get, Some, None, MatchOption, OnOk, OnErr};
ghost use Rattle.std.specs.Prelude.{option_map};

use doc_bits::{Memory, Units};
use std::alloc::Global;
use std::marker::Model;

/// The numbers of paragraphs, and nothing where a paragraph has none. After want of memory it is what it was.
#[derive(Drop)]
pub struct Numbers {
    items: Vec<Option<Units>>,
}

impl Model for Numbers {
    ghost use Rattle.std.specs.Prelude.{List, Option, ℕ};
    ghost use Rattle.std.specs.Coded.{coded_list, coded_option, coded_ℕ};

    ghost Value = { List (Option (List ℕ)) };

    ghost coded = { coded_list (coded_option (coded_list coded_ℕ)) };

    ghost view = { λ n. n.items.items };
}

impl Numbers {
    pub fn new(alloc: Global) -> Numbers
        ensures { result ≡ [] }
    {
        Numbers {
            items: Vec::new(alloc),
        }
    }

    /// How many paragraphs there are.
    pub fn len(&self) -> usize
        ensures { result ≡ length self.now }
    {
        self.items.len()
    }

    /// The number of a paragraph, where it has one.
    pub fn get(&self, i: usize) -> Option<&Units>
        requires { i < length self.now }
        ensures { slice_get self.now i ≡ Some (option_map (λ units. units.now) result) }
    {
        match &self.items[i] {
            None => None,
            Some(units) => Some(units),
        }
    }

    /// Puts the number of a further paragraph last.
    pub fn add(&mut self, number: Option<Units>) -> Result<(), Memory>
        ensures ok { OnOk result (self.new ≡ self.old ++ number ∷ []) }
        ensures err { OnErr result (self.new ≡ self.old) }
    {
        self.items.push(number)?;
        Ok(())
    }
}
