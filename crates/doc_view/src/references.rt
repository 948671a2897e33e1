// The notes that a text refers to.
ghost use Rattle.std.specs.Prelude.{◌≡◌, ◌+◌, ◌++◌, ◌<◌, ◌≤◌, [], ◌∷◌, length, Some, IfOk, slice_get};

use doc_bits::Memory;
use std::alloc::Global;
use std::marker::Model;

/// Where a text refers to a note: the note's number, where it is numbered, and whether this is shown.
#[derive(Clone, Copy, PartialEq, Eq)]
pub struct Reference {
    pub number: Option<u32>,
    pub is_shown: bool,
}

/// References in their order, and room for more.
#[derive(Drop)]
pub struct References {
    list: Vec<Reference>,
    room: usize,
}

impl Model for References {
    ghost use Rattle.std.specs.Prelude.{◌+◌, ◌≤◌, length, vec_capacity};
    ghost use Rattle.doc_view.specs.Kept.{KeptReferences};

    ghost Value = { KeptReferences };

    ghost view = { λ r. record { list = r.list.items; room = r.room } };

    ghost invariant = { λ r. length r.list.items + r.room ≤ vec_capacity r.list };
}

impl References {
    /// Room for so many references.
    pub fn new(alloc: Global, room: usize) -> Result<References, Memory>
        ensures { IfOk result (λ references. references ≡ record { list = []; room = room }) }
    {
        let list = Vec::with_capacity(alloc, room)?;
        Ok(References { list, room })
    }

    /// No room.
    pub fn none(alloc: Global) -> References
        ensures { result ≡ record { list = []; room = 0 } }
    {
        References {
            list: Vec::new(alloc),
            room: 0,
        }
    }

    /// Adds one more. It takes no memory.
    pub fn add(&mut self, reference: Reference)
        requires { 1 ≤ self.old.room }
        ensures list { self.new.list ≡ self.old.list ++ reference ∷ [] }
        ensures room { self.new.room + 1 ≡ self.old.room }
    {
        self.room -= 1;
        let end = self.list.len();
        // Where there is room, an insertion leaves the block of memory as it is.
        self.list.insert(end, reference).unwrap();
    }

    /// How many there are.
    pub fn len(&self) -> usize
        ensures { result ≡ length self.now.list }
    {
        self.list.len()
    }

    /// The one of a number.
    pub fn get(&self, number: usize) -> Reference
        requires { number < length self.now.list }
        ensures { slice_get self.now.list number ≡ Some result }
    {
        self.list[number]
    }
}
