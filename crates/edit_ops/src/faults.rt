use doc_bits::{Memory, Where};
use thiserror::Error;

/// Why an edit is refused.
#[derive(Clone, Copy, Debug, PartialEq, Eq, Error)]
pub enum EditFault {
    /// A place that the command names is not there.
    #[error("out of range")]
    Range,
    /// A text, a code or a value that may not be put.
    #[error("wrong code")]
    Code,
    /// The first rule that the changed document would break, at its first place.
    #[error("rule {rule} would be broken at {at}")]
    Rule { rule: u8, place: Where, at: u32 },
    /// The rule on sizes, 68, 70 or 71, that would be broken, and where.
    #[error("limit of rule {rule} at {at}")]
    Limit { rule: u8, place: Where, at: u32 },
    #[error("out of memory")]
    Memory,
}

impl From<Memory> for EditFault {
    ghost use Rattle.std.specs.Prelude.{◌≡◌};
    ghost use Rattle.edit_ops.specs.declared.faults.EditFault.TheVariants.{Memory};

    ghost from_gives = { λ _ e. e ≡ Memory };

    fn from(_: Memory) -> Self {
        EditFault::Memory
    }
}
