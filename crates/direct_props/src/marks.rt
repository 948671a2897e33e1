// The style number and the direct properties of paragraph marks.
ghost use Rattle.std.specs.Prelude.{◌<◌, ◌^◌, length, IfOk};
ghost use Rattle.prop_map.specs.Formed.{IsPropertyMap, paragraph_groups};
ghost use Rattle.prop_map.specs.Modifiers.{IsFormedModifier};
ghost use Rattle.fkp_pages.specs.declared.kind.PageKind.TheVariants.{Papx};
ghost use Rattle.fkp_pages.specs.Bin.{IsBinTable};
ghost use Rattle.direct_props.specs.Direct.{IsDirectMark};
ghost use Rattle.direct_props.specs.PageRules.{IsValidPlace};

use crate::PlaceReader;
use doc_bits::Memory;
use fkp_pages::PageKind;
use prop_map::{Modifier, PropMap};
use std::alloc::Global;

/// The style number and the direct properties of a paragraph mark.
#[derive(Drop)]
pub struct DirectMark {
    pub istd: u16,
    pub pap: PropMap,
}

/// Reads the mark at a byte place, in a piece with the modifier.
pub fn read_mark(
    alloc: Global,
    wd: &[u8],
    bin: &[u8],
    fc: u32,
    modifier: &Modifier,
) -> Result<DirectMark, Memory>
    requires table { IsBinTable bin.now }
    requires small { length wd.now < 2 ^ 32 }
    requires right { IsValidPlace Papx wd.now bin.now fc }
    ensures mark { IfOk result (λ mark. IsDirectMark wd.now bin.now fc modifier.now mark.istd mark.pap) }
    ensures formed { IfOk result (λ mark. IsFormedModifier modifier.now → IsPropertyMap paragraph_groups mark.pap) }
{
    let mut reader = PlaceReader::new(alloc, PageKind::Papx, wd, bin, modifier)?;
    match reader.read_mark(alloc, fc)? {
        None => unreachable!(),
        Some(mark) => Ok(mark),
    }
}
