ghost use Rattle.std.specs.Prelude.{◌≡◌};
ghost use Rattle.sprm_table.specs.Sprm.{fault_place};

/// The first fault of a list, with the offset of its code in the list's bytes.
#[derive(Clone, Copy, PartialEq, Eq)]
pub enum SprmFault {
    /// The operand leaves the list.
    Short { at: usize },
    /// The code is one that is not read, of a group that the place holds.
    Refused { at: usize },
}

impl SprmFault {
    /// The offset of the code, in bytes from the start of the list.
    pub fn at(self) -> usize
        ensures { result ≡ fault_place self }
    {
        match self {
            SprmFault::Short { at } => at,
            SprmFault::Refused { at } => at,
        }
    }
}
