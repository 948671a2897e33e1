// A chain of bases as a list of style numbers.
ghost use Rattle.std.specs.Prelude.{◌≡◌, ◌<◌, [], ◌∷◌, ◌++◌, length, slice_get, Some, OnOk, OnErr};

use doc_bits::Memory;
use std::alloc::Global;
use std::marker::Model;

/// Style numbers, from the root of a chain of bases to the style itself.
#[derive(Drop)]
pub struct Chain {
    items: Vec<u16>,
}

impl Model for Chain {
    ghost use Rattle.std.specs.Prelude.{ℕ, List};

    ghost Value = { List ℕ };

    ghost view = { λ c. c.items.items };
}

impl Chain {
    pub fn new(alloc: Global) -> Chain
        ensures { result ≡ [] }
    {
        Chain {
            items: Vec::new(alloc),
        }
    }

    /// The chain of these numbers.
    pub(crate) fn from_vec(items: Vec<u16>) -> Chain
        ensures { result ≡ items.items }
    {
        Chain { items }
    }

    pub fn len(&self) -> usize
        ensures { result ≡ length self.now }
    {
        self.items.len()
    }

    pub fn get(&self, i: usize) -> u16
        requires { i < length self.now }
        ensures { slice_get self.now i ≡ Some result }
    {
        self.items[i]
    }

    pub fn add(&mut self, istd: u16) -> Result<(), Memory>
        ensures ok { OnOk result (self.new ≡ self.old ++ istd ∷ []) }
        ensures err { OnErr result (self.new ≡ self.old) }
    {
        self.items.push(istd)?;
        Ok(())
    }
}
