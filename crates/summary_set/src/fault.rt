ghost use Rattle.std.specs.Prelude.{◌≡◌};

use doc_bits::Memory;
use thiserror::Error;

/// Why a stream is no property set: the place of the first condition that fails, in bytes from its beginning.
#[derive(Clone, Copy, Debug, Error)]
pub enum SetFault {
    #[error("the property set is wrong at {at}")]
    Form { at: u32 },
    #[error("out of memory")]
    Memory,
}

impl From<Memory> for SetFault {
    ghost use Rattle.std.specs.Prelude.{◌≡◌};
    ghost use Rattle.summary_set.specs.declared.fault.SetFault.TheVariants.{Memory};

    ghost from_gives = { λ _ e. e ≡ Memory };

    fn from(_: Memory) -> Self {
        SetFault::Memory
    }
}
