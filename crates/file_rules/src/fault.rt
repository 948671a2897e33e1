ghost use Rattle.std.specs.Prelude.{◌≡◌};
ghost use Rattle.file_rules.specs.Faults.{part_refusal, clx_refusal, cfb_refusal, style_refusal, page_refusal};

use cfb_streams::CfbFault;
use direct_props::PageFault;
use doc_bits::{Memory, Where};
use doc_parts::PartFault;
use piece_table::ClxFault;
use style_sheet::StyleFault;
use thiserror::Error;

/// Why a file is not read: the first broken rule and its place, or want of memory.
#[derive(Clone, Copy, Debug, Error)]
pub enum ReadFault {
    #[error("rule {rule} is broken at {offset}")]
    Refused { rule: u8, place: Where, offset: u32 },
    #[error("out of memory")]
    Memory,
}

impl From<Memory> for ReadFault {
    ghost use Rattle.std.specs.Prelude.{◌≡◌};
    ghost use Rattle.file_rules.specs.declared.fault.ReadFault.TheVariants.{Memory};

    ghost from_gives = { λ _ e. e ≡ Memory };

    fn from(_: Memory) -> Self {
        ReadFault::Memory
    }
}

/// The refusal of a file with a refused part of the table stream.
pub(crate) fn refused_part(fault: PartFault) -> ReadFault
    ensures { result ≡ part_refusal fault }
{
    match fault {
        PartFault::Rule { rule, offset } => ReadFault::Refused {
            rule,
            place: Where::Table,
            offset,
        },
        PartFault::Memory => ReadFault::Memory,
    }
}

/// The refusal of a file whose Clx is refused.
pub(crate) fn refused_clx(fault: ClxFault) -> ReadFault
    ensures { result ≡ clx_refusal fault }
{
    match fault {
        ClxFault::Rule { rule, offset } => ReadFault::Refused {
            rule,
            place: Where::Table,
            offset,
        },
        ClxFault::Memory => ReadFault::Memory,
    }
}

/// The refusal of a file that is no container.
pub fn refused_container(fault: CfbFault) -> ReadFault
    ensures { result ≡ cfb_refusal fault }
{
    match fault {
        CfbFault::Rule { rule, offset } => ReadFault::Refused {
            rule,
            place: Where::File,
            offset,
        },
        CfbFault::Memory => ReadFault::Memory,
    }
}

/// The refusal of a file with a refused style sheet.
pub(crate) fn refused_sheet(fault: StyleFault) -> ReadFault
    ensures { result ≡ style_refusal fault }
{
    match fault {
        StyleFault::Rule { rule, offset } => ReadFault::Refused {
            rule,
            place: Where::Table,
            offset,
        },
        StyleFault::Memory => ReadFault::Memory,
    }
}

/// The refusal of a file with a broken rule on pages.
pub(crate) fn refused_page(fault: PageFault) -> ReadFault
    ensures { result ≡ page_refusal fault }
{
    ReadFault::Refused {
        rule: fault.rule,
        place: Where::Wd,
        offset: fault.offset,
    }
}
