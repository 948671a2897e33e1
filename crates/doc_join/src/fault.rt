// Why two documents are not joined.

use doc_bits::{Memory, Where};
use thiserror::Error;

/// Why two documents are not joined: their styles do not fit one sheet, or the joined document breaks a rule.
#[derive(Clone, Copy, Debug, PartialEq, Eq, Error)]
pub enum JoinFault {
    /// The slots of both sheets together.
    #[error("{slots} styles together")]
    Styles { slots: u32 },
    #[error("rule {rule} is broken at {at}")]
    Unsound { rule: u8, place: Where, at: u32 },
    #[error("out of memory")]
    Memory,
}

impl From<Memory> for JoinFault {
    ghost use Rattle.std.specs.Prelude.{◌≡◌};
    ghost use Rattle.doc_join.specs.declared.fault.JoinFault.TheVariants.{Memory};

    ghost from_gives = { λ _ e. e ≡ Memory };

    fn from(_: Memory) -> Self {
        JoinFault::Memory
    }
}
