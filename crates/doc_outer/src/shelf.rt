ghost use Rattle.std.specs.Prelude.{◌≡◌, ◌≤◌, ℕ, length, Option, IfOk, OnOk, IsErrOf};
ghost use Rattle.doc_outer.specs.Counts.{Rose, CountGoesOn};
ghost use Rattle.doc_outer.specs.Held.{Files, held_with, OthersStay, Told, ReadsPart, IsAbsent};

use doc_bits::Memory;
use thiserror::Error;

/// Why a read gives no bytes.
#[derive(Clone, Copy, Debug, PartialEq, Eq, Error)]
pub enum ShelfFault {
    #[error("the name is not there")]
    Missing,
    #[error("the read failed")]
    Failed,
    #[error("out of memory")]
    Memory,
}

/// Why bytes are not put.
#[derive(Clone, Copy, Debug, PartialEq, Eq, Error)]
pub enum PutFault {
    #[error("the put failed")]
    Failed,
    #[error("out of memory")]
    Memory,
}

impl From<Memory> for PutFault {
    ghost use Rattle.doc_outer.specs.declared.shelf.PutFault.TheVariants.{Memory};

    ghost from_gives = { λ _ e. e ≡ Memory };

    fn from(_: Memory) -> Self {
        PutFault::Memory
    }
}

/// Files by their names.
pub trait Shelf {
    /// What each name holds, where the shelf tells it.
    ghost held: { Self → Option Files };

    /// How often a call failed.
    ghost faults: { Self → ℕ };

    /// How often a put failed.
    ghost put_faults: { Self → ℕ };

    /// How often a name was not there.
    ghost missed: { Self → ℕ };

    /// Reads the bytes of a name from the byte `at` on into the front of the buffer, and answers how
    /// many. The buffer behind them may hold anything.
    fn read_at(&mut self, name: &str, at: u64, buf: &mut [u8]) -> Result<usize, ShelfFault>
        ensures kept { held self.new ≡ held self.old }
        ensures within { IfOk result (λ count. count ≤ length buf.old) }
        ensures bytes { IfOk result (λ count.
            Told (held self.old) name.now (ReadsPart at count buf.new)) }
        ensures absent { IsErrOf result ShelfFault.Missing
            → Told (held self.old) name.now IsAbsent }

        // A refusal shows in its own count, and want of memory in none.
        ensures failed { IsErrOf result ShelfFault.Failed
            → Rose (faults self.old) (faults self.new) }
        ensures missing { IsErrOf result ShelfFault.Missing
            → Rose (missed self.old) (missed self.new) }
        ensures no_fault { IsErrOf result ShelfFault.Missing → faults self.new ≡ faults self.old }
        ensures memory { IsErrOf result ShelfFault.Memory
            → (faults self.new ≡ faults self.old) × (missed self.new ≡ missed self.old) }

        // Counts never fall.
        ensures faults { CountGoesOn (faults self.old) (faults self.new) }
        ensures missed { CountGoesOn (missed self.old) (missed self.new) }
        ensures put_faults { put_faults self.new ≡ put_faults self.old };

    /// Lets a name hold exactly these bytes. After `Failed` nothing is said of what it holds.
    fn put(&mut self, name: &str, bytes: &[u8]) -> Result<(), PutFault>
        ensures holds { OnOk result (held self.new ≡ held_with (held self.old) name.now bytes.now) }
        ensures others { OthersStay name.now (held self.old) (held self.new) }

        // A failure shows in both counts, and want of memory in nothing.
        ensures failed { IsErrOf result PutFault.Failed
            → Rose (faults self.old) (faults self.new) × Rose (put_faults self.old) (put_faults self.new) }
        ensures memory { IsErrOf result PutFault.Memory
            → (held self.new ≡ held self.old)
            × ((faults self.new ≡ faults self.old)
            × ((put_faults self.new ≡ put_faults self.old) × (missed self.new ≡ missed self.old))) }

        // Counts never fall.
        ensures faults { CountGoesOn (faults self.old) (faults self.new) }
        ensures put_faults { CountGoesOn (put_faults self.old) (put_faults self.new) }
        ensures missed { CountGoesOn (missed self.old) (missed self.new) };
}
