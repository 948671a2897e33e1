use doc_bits::Memory;
use edit_ops::EditFault;
use thiserror::Error;

/// Why a command stops its script.
#[derive(Clone, Copy, Debug, PartialEq, Eq, Error)]
pub enum Stop {
    /// The edit is refused.
    #[error("the edit is refused: {0}")]
    Refused(EditFault),
    /// The edit is accepted, and the guard of this index is the first that does not allow it.
    #[error("guard {guard} does not allow the edit")]
    Guarded { guard: usize },
    /// The file counts so many fast saves in a row, which is as many as it can.
    #[error("{count} fast saves in a row")]
    Sixteenth { count: u8 },
    /// The text may be in so many pieces, which is too near to 16,384.
    #[error("{pieces} pieces")]
    TooManyPieces { pieces: u64 },
    /// The file of a save needs so many sectors, which is more than 13,952.
    #[error("{sectors} sectors are needed")]
    TooLarge { sectors: u64 },
}

/// Why a script is not run to its end.
#[derive(Clone, Copy, Debug, PartialEq, Eq, Error)]
pub enum RunFault {
    /// The first command that stops it, counted from 0.
    #[error("command {index}: {stop}")]
    Stopped { index: usize, stop: Stop },
    #[error("out of memory")]
    Memory,
}

impl From<Memory> for RunFault {
    ghost use Rattle.std.specs.Prelude.{◌≡◌};
    ghost use Rattle.script_run.specs.declared.faults.RunFault.TheVariants.{Memory};

    ghost from_gives = { λ _ e. e ≡ Memory };

    fn from(_: Memory) -> Self {
        RunFault::Memory
    }
}
