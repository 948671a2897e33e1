// Tab stops, layer by layer: a tree, so that each change costs the logarithm of its size.
ghost use Rattle.std.specs.Prelude.{◌≡◌, map, Some, OnOk, IfOk};
ghost use Rattle.std.specs.Ordering.{int_cmp};
ghost use Rattle.std.specs.BTreeMap.{IsOrdered, Updates};
ghost use Rattle.effective_props.specs.TabChange.{deleted_count, added_count};
ghost use Rattle.effective_props.specs.Stops.{AreStops};
ghost use Rattle.effective_props.specs.StopSteps.{ChangesByLayer, DeletesUpTo, AddsUpTo, kinds_in, tab_of};

use crate::tab_change::TabChange;
use crate::{Tab, Tabs};
use doc_bits::Memory;
use prop_map::PropMap;
use sprm_table::SPRM_P_CHG_TABS_PAPX;
use std::alloc::Global;
use std::collections::BTreeMap;

/// The stops of the layers.
pub(crate) fn stops_of(alloc: Global, layers: &[PropMap]) -> Result<Tabs, Memory>
    ensures { IfOk result (AreStops layers.now) }
{
    let mut stops = BTreeMap::new(alloc);
    for layer in layers {
        change_by_layer(&mut stops, layer)?;
    }
    let tabs = tabs_of(alloc, stops)?;
    Ok(tabs)
}

/// The stops as a list.
fn tabs_of(alloc: Global, stops: BTreeMap<i16, u8>) -> Result<Tabs, Memory>
    ensures tabs { IfOk result (λ tabs. tabs ≡ map tab_of stops.entries) }
    ensures ordered { IsOrdered int_cmp stops }
{
    let mut tabs = Tabs::new(alloc);
    for (at, kind) in stops {
        tabs.add(Tab { at, kind })?;
    }
    Ok(tabs)
}

/// Deletes and adds the stops that a layer names.
fn change_by_layer(stops: &mut BTreeMap<i16, u8>, layer: &PropMap) -> Result<(), Memory>
    ensures { OnOk result (ChangesByLayer layer.now (kinds_in stops.old) (kinds_in stops.new)) }
{
    if let Some(value) = layer.get(SPRM_P_CHG_TABS_PAPX) {
        if let Some(change) = TabChange::of(value) {
            delete(stops, &change);
            add(stops, &change)?;
        }
    }
    Ok(())
}

/// Deletes the stops of a change.
fn delete(stops: &mut BTreeMap<i16, u8>, change: &TabChange<'_>)
    ensures { DeletesUpTo change.now (deleted_count change.now) (kinds_in stops.old) (kinds_in stops.new) }
{
    for i in 0..change.deleted() {
        stops.remove(&change.deleted_position(i));
    }
}

/// Adds the stops of a change.
fn add(stops: &mut BTreeMap<i16, u8>, change: &TabChange<'_>) -> Result<(), Memory>
    ensures { OnOk result (AddsUpTo change.now (added_count change.now) (kinds_in stops.old) (kinds_in stops.new)) }
{
    for i in 0..change.added() {
        put(stops, change.added_tab(i))?;
    }
    Ok(())
}

/// Puts a stop, in place of what was at its position.
fn put(stops: &mut BTreeMap<i16, u8>, tab: Tab) -> Result<(), Memory>
    ensures { OnOk result (Updates int_cmp stops.old stops.new tab.at (Some tab.kind)) }
{
    stops.insert(tab.at, tab.kind)?;
    Ok(())
}
