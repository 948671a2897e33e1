use doc_bits::Memory;
use thiserror::Error;

/// Why streams are not laid out in a container.
#[derive(Clone, Copy, Debug, PartialEq, Eq, Error)]
pub enum LayoutFault {
    /// They need so many sectors, which is more than 13,952.
    #[error("{sectors} sectors are needed")]
    TooLarge { sectors: u64 },
    #[error("out of memory")]
    Memory,
}

impl From<Memory> for LayoutFault {
    ghost use Rattle.std.specs.Prelude.{◌≡◌};
    ghost use Rattle.cfb_layout.specs.declared.faults.LayoutFault.TheVariants.{Memory};

    ghost from_gives = { λ _ e. e ≡ Memory };

    fn from(_: Memory) -> Self {
        LayoutFault::Memory
    }
}
