// One map put over another.
ghost use Rattle.std.specs.Prelude.{true, false, IfOk};
ghost use Rattle.prop_map.specs.Modifiers.{IsOver, IsClearedWhere};

use crate::PropMap;
use crate::block::Block;
use crate::draft::Draft;
use doc_bits::Memory;
use std::alloc::Global;

/// The entries of `top`, and those of `base` at other codes. Where `clear` is set, only the codes
/// that sprmCPlain leaves are taken from `base`.
pub(crate) fn over(
    alloc: Global,
    base: &PropMap,
    clear: bool,
    top: &PropMap,
) -> Result<PropMap, Memory>
    ensures { IfOk result (IsOver clear top.now base.now) }
{
    // Where one of them says nothing, the other is shared.
    if base.is_empty() {
        let copy = top.copy(alloc)?;
        return Ok(copy);
    }
    if !clear {
        let both = over_all(alloc, base, top)?;
        return Ok(both);
    }
    let mut draft = clear_properties(alloc, base)?;
    draft.put_all(alloc, top)?;
    let made = draft.into_map(alloc)?;
    Ok(made)
}

/// The entries of `top`, and those of `base` at other codes.
fn over_all(alloc: Global, base: &PropMap, top: &PropMap) -> Result<PropMap, Memory>
    ensures { IfOk result (IsOver false top.now base.now) }
{
    if top.is_empty() {
        let copy = base.copy(alloc)?;
        return Ok(copy);
    }
    let block = Block::merge(alloc, base.entries(), top.entries())?;
    let made = PropMap::from_block(alloc, block)?;
    Ok(made)
}

/// What sprmCPlain leaves of a map, to be changed.
fn clear_properties(alloc: Global, base: &PropMap) -> Result<Draft, Memory>
    ensures { IfOk result (IsClearedWhere true base.now) }
{
    let mut draft = Draft::new(alloc);
    draft.put_all(alloc, base)?;
    draft.clear();
    Ok(draft)
}
