use doc_bits::Memory;
use std::alloc::{AllocError, AllocFailed};
use thiserror::Error;

/// Why bytes are not read as a script.
#[derive(Clone, Copy, Debug, Error)]
pub enum ScriptFault {
    #[error("not JSON")]
    Json,
    /// The first member that is no command, counted from 0, or the number of members where no save is last.
    #[error("command {index} has a wrong shape")]
    Shape { index: u32 },
    #[error("too long")]
    TooLong,
    #[error("out of memory")]
    Memory,
}

/// Why a value is not read: it has not the form that is wanted, or memory is refused.
#[derive(Clone, Copy, Debug, Error)]
pub enum ShapeError {
    #[error("wrong shape")]
    Shape,
    #[error("out of memory")]
    Memory,
}

impl From<Memory> for ScriptFault {
    ghost use Rattle.std.specs.Prelude.{◌≡◌};
    ghost use Rattle.edit_script.specs.declared.faults.ScriptFault.TheVariants.{Memory};

    ghost from_gives = { λ _ e. e ≡ Memory };

    fn from(_: Memory) -> Self {
        ScriptFault::Memory
    }
}

impl From<Memory> for ShapeError {
    ghost use Rattle.std.specs.Prelude.{◌≡◌};
    ghost use Rattle.edit_script.specs.declared.faults.ShapeError.TheVariants.{Memory};

    ghost from_gives = { λ _ e. e ≡ Memory };

    fn from(_: Memory) -> Self {
        ShapeError::Memory
    }
}
