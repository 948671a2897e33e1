// Places of lists in a stream, each of which is found again by the part where it begins.
ghost use Rattle.std.specs.Prelude.{◌≡◌, ◌++◌, [], ◌∷◌, slice_get, Some, IfSome, OnOk, OnErr};

use doc_bits::Memory;
use std::alloc::Global;
use std::collections::BTreeMap;
use std::marker::Model;

/// A place is looked for by the part of the stream where it begins: so many bytes, as many as a page has.
const PART_LEN: usize = 512;

/// So many places of a part are looked at: two that begin with each byte.
const MAX_TURNS: usize = 2 * PART_LEN;

/// Where a list begins and ends, and one more than the number of the place before it in its part, or 0.
#[derive(Clone, Copy)]
struct ListPlace {
    from: usize,
    to: usize,
    before: usize,
}

/// Places of lists, each with a number: the first that is added has 0. Another place may be added twice.
#[derive(Drop)]
pub struct ListPlaces {
    items: Vec<ListPlace>,
    /// By the part, one more than the number of the last place, but for the part of the place that was added last.
    /// A wrong one would only cost time.
    heads: BTreeMap<usize, usize>,
    last_part: usize,
}

impl Model for ListPlaces {
    ghost use Rattle.std.specs.Prelude.{List, ℕ, map};

    ghost Value = { List (ℕ × ℕ) };

    ghost view = { λ p. map (λ place. (place.from, place.to)) p.items.items };
}

impl ListPlaces {
    /// No places. It takes no memory.
    pub fn new(alloc: Global) -> ListPlaces
        ensures { result ≡ [] }
    {
        ListPlaces {
            items: Vec::new(alloc),
            heads: BTreeMap::new(alloc),
            last_part: 0,
        }
    }

    /// The number of a place that was added.
    pub fn number_of(&self, from: usize, to: usize) -> Option<usize>
        ensures { IfSome result (λ number. slice_get self.now number ≡ Some (from, to)) }
    {
        let mut left = self.head(from / PART_LEN);
        for _turn in 0..MAX_TURNS {
            if left == 0 || self.items.len() < left {
                return None;
            }
            let place = self.items[left - 1];
            if place.from == from && place.to == to {
                return Some(left - 1);
            }
            left = place.before;
        }
        None
    }

    /// Adds a place, which gets the next number.
    pub fn add(&mut self, from: usize, to: usize) -> Result<(), Memory>
        ensures ok { OnOk result (self.new ≡ self.old ++ (from, to) ∷ []) }
        ensures err { OnErr result (self.new ≡ self.old) }
    {
        let part = from / PART_LEN;
        let before = self.head(part);
        if part != self.last_part {
            self.heads.insert(self.last_part, self.items.len())?;
        }
        self.items.push(ListPlace { from, to, before })?;
        self.last_part = part;
        Ok(())
    }

    /// One more than the number of the last place of a part, or 0.
    fn head(&self, part: usize) -> usize {
        if part == self.last_part {
            return self.items.len();
        }
        match self.heads.get(&part) {
            None => 0,
            Some(number) => *number,
        }
    }
}
