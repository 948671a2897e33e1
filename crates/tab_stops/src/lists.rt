// [MS-DOC] sprmPChgTabs in a list, where it deletes no tab stop.
ghost use Rattle.std.specs.Prelude.{◌≡◌, ◌+◌, ◌^◌, ◌<◌, ◌++◌, OnOk, length};
ghost use Rattle.sprm_table.specs.Sprm.{IsAcceptedList};
ghost use Rattle.tab_stops.specs.Lists.{AreListStops, PushesStops, deletes_no_stop, stop_of};

use doc_bits::Memory;
use sprm_table::{Code, SprmIter, list_fault};

/// [MS-DOC] sprmPChgTabs.
const SPRM_P_CHG_TABS: Code = Code(0xC615);

/// [MS-DOC] PChgTabsOperand: a cb that is not the number of bytes.
const OTHER_CB: usize = 255;

/// Appends where the codes are of a list that begins at a place.
pub(crate) fn push_list(places: &mut Vec<usize>, list: &[u8], from: usize) -> Result<(), Memory>
    requires { from + length list.now < 2 ^ 64 }
    ensures { OnOk result (PushesStops (AreListStops list.now from) places.old.items places.new.items) }
{
    match list_fault(list, 0) {
        Some(_) => Ok(()),
        None => push_spelt(places, list, from),
    }
}

/// The same of a list that is not cut short.
fn push_spelt(places: &mut Vec<usize>, list: &[u8], from: usize) -> Result<(), Memory>
    requires spelt { IsAcceptedList list.now 0 }
    requires room { from + length list.now < 2 ^ 64 }
    ensures { OnOk result (PushesStops (AreListStops list.now from) places.old.items places.new.items) }
{
    let mut prls = SprmIter::new(list);
    let mut at = 0;
    while let Some((code, begin, end)) = prls.next() {
        push_stop(places, code, &list[begin..end], from + at)?;
        at = end;
    }
    Ok(())
}

/// Appends the place of a code, where it deletes no stop.
fn push_stop(places: &mut Vec<usize>, code: Code, value: &[u8], place: usize) -> Result<(), Memory>
    ensures { OnOk result (places.new.items ≡ places.old.items ++ stop_of place (code.0, value.now)) }
{
    if deletes_no_stop(code, value) {
        places.push(place)?;
    }
    Ok(())
}

/// Whether a code changes tab stops, and deletes none.
fn deletes_no_stop(code: Code, value: &[u8]) -> bool
    ensures { result ≡ deletes_no_stop (code.0, value.now) }
{
    code == SPRM_P_CHG_TABS && !value.is_empty() && value.len() < OTHER_CB && value[0] == 0
}
