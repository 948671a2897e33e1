// Why bytes are not read as a document.
use doc_bits::{Memory, Where};
use thiserror::Error;

/// Why bytes are not read as a document.
#[derive(Clone, Copy, Debug, PartialEq, Eq, Error)]
pub enum JsonFault {
    #[error("not JSON")]
    Json,
    /// The value of no well-formed document.
    #[error("wrong shape")]
    Shape,
    /// The first rule that the document breaks, at its first place.
    #[error("rule {rule} is broken at {at}")]
    Unsound { rule: u8, place: Where, at: u32 },
    #[error("out of memory")]
    Memory,
}

impl From<Memory> for JsonFault {
    ghost use Rattle.std.specs.Prelude.{◌≡◌};
    ghost use Rattle.json_doc.specs.declared.fault.JsonFault.TheVariants.{Memory};

    ghost from_gives = { λ _ e. e ≡ Memory };

    fn from(_: Memory) -> Self {
        JsonFault::Memory
    }
}
