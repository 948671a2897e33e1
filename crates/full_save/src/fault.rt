use doc_bits::Memory;
use thiserror::Error;

/// Why a document is not saved.
#[derive(Clone, Copy, Debug, Error)]
pub enum SaveFault {
    /// Its file needs so many sectors, which is more than 13,952.
    #[error("{sectors} sectors are needed")]
    TooLarge { sectors: u64 },
    #[error("out of memory")]
    Memory,
}

impl From<Memory> for SaveFault {
    ghost use Rattle.std.specs.Prelude.{◌≡◌};
    ghost use Rattle.full_save.specs.declared.fault.SaveFault.TheVariants.{Memory};

    ghost from_gives = { λ _ e. e ≡ Memory };

    fn from(_: Memory) -> Self {
        SaveFault::Memory
    }
}
