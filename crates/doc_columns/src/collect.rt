// The items of a run, put one by one.
ghost use Rattle.std.specs.Prelude.{◌≡◌, ◌+◌, ◌<◌, ◌≤◌, ◌^◌, ◌++◌, length, OnOk};
ghost use Rattle.run_lists.specs.Spread.{expanded, total_len};
ghost use Rattle.run_lists.specs.Places.{IsAtRunBegin};
ghost use Rattle.doc_columns.specs.RunItems.{HasMapsWith, run_items};

use crate::Attached;
use crate::columns::item_with;
use doc_bits::Memory;
use plain_doc::Items;
use prop_map::PropMap;
use run_lists::{Cursor, Run, Shared, seek};
use std::alloc::Global;

/// The units of a text and the runs of their properties.
#[derive(Drop)]
pub(crate) struct TextParts<'a> {
    pub(crate) units: &'a [u16],
    pub(crate) chps: &'a [Run<PropMap>],
}

/// Appends the items of a run from a place on.
pub(crate) fn push_run(
    alloc: Global,
    parts: &TextParts<'_>,
    cursor: &mut Cursor,
    place: usize,
    run: &Run<Attached>,
    items: &mut Items,
) -> Result<(), Memory>
    requires within { place + run.now.count ≤ length parts.now.units.now }
    requires long { total_len parts.now.chps.now ≡ length parts.now.units.now }
    requires at { IsAtRunBegin parts.now.chps.now cursor.old }
    requires ahead { cursor.old.begin ≤ place }
    requires few { length items.old + run.now.count < 2 ^ 32 }
    requires maps { HasMapsWith parts.now.units.now (expanded parts.now.chps.now) place run.now }
    ensures at { OnOk result (IsAtRunBegin parts.now.chps.now cursor.new) }
    ensures ahead { OnOk result (cursor.new.begin ≤ place + run.now.count) }
    ensures items { OnOk result (items.new ≡ items.old
        ++ run_items parts.now.units.now (expanded parts.now.chps.now) place run.now) }
{
    for at in place..place + run.count as usize {
        let chp = seek(parts.chps, cursor, at).copy(alloc)?;
        let attached = run.value.copy(alloc)?;
        items.add(item_with(parts.units[at], chp, attached))?;
    }
    Ok(())
}
