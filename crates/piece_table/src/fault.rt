use doc_bits::Memory as NoMemory;
use thiserror::Error;

/// Why a Clx is refused: the first broken rule at its least place, in bytes from the start of the table stream, or want
/// of memory.
#[derive(Clone, Copy, Debug, Error)]
pub enum ClxFault {
    #[error("rule {rule} is broken at {offset}")]
    Rule { rule: u8, offset: u32 },
    #[error("out of memory")]
    Memory,
}

impl From<NoMemory> for ClxFault {
    ghost use Rattle.std.specs.Prelude.{◌≡◌};
    ghost use Rattle.piece_table.specs.declared.fault.ClxFault.TheVariants.{Memory};

    ghost from_gives = { λ _ fault. fault ≡ Memory };

    fn from(_: NoMemory) -> Self {
        ClxFault::Memory
    }
}
