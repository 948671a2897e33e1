ghost use Rattle.std.specs.Prelude.{◌≡◌};

use doc_bits::Memory;
use thiserror::Error;

/// The first broken rule of an STSH, with its least offset in the table stream.
#[derive(Clone, Copy, Debug, Error)]
pub enum StyleFault {
    #[error("rule {rule} is broken at {offset} in the table stream")]
    Rule { rule: u8, offset: u32 },
    #[error("out of memory")]
    Memory,
}

impl From<Memory> for StyleFault {
    ghost use Rattle.std.specs.Prelude.{◌≡◌};
    ghost use Rattle.style_sheet.specs.declared.fault.StyleFault.TheVariants.{Memory};

    ghost from_gives = { λ _ e. e ≡ Memory };

    fn from(_: Memory) -> Self {
        StyleFault::Memory
    }
}
