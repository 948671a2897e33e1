use doc_bits::Memory;
use thiserror::Error;

/// Why a document is not saved behind the stream that is there.
#[derive(Clone, Copy, Debug, Error)]
pub enum AppendFault {
    /// Fifteen quick saves were made in a row.
    #[error("15 quick saves in a row")]
    Sixteenth,
    /// The file needs so many sectors, which is more than 13,952.
    #[error("{sectors} sectors are needed")]
    TooLarge { sectors: u64 },
    #[error("out of memory")]
    Memory,
}

impl From<Memory> for AppendFault {
    ghost use Rattle.std.specs.Prelude.{◌≡◌};
    ghost use Rattle.fast_save_layout.specs.declared.fault.AppendFault.TheVariants.{Memory};

    ghost from_gives = { λ _ e. e ≡ Memory };

    fn from(_: Memory) -> Self {
        AppendFault::Memory
    }
}
