// A walk from entry to entry of a stream, and the lists that it comes by.
ghost use Rattle.std.specs.Prelude.{◌≤◌, length, IsTrue, IfSome, IfOk};
ghost use Rattle.sprm_table.specs.Sprm.{EndsSprmList};
ghost use Rattle.overlapping_grpprls.specs.Walks.{IsWalkEntry, IsPrlWalk, IsAmongPlaces, ComesBy};

use crate::ListRange;
use crate::ranges::Lists;
use doc_bits::{Memory, get16};
use sprm_table::{Code, SprmIter, is_refused};

/// An entry: its code, where it begins, and where its value begins and ends, in bytes of the stream.
#[derive(Clone, Copy)]
pub(crate) struct WalkEntry {
    pub(crate) code: Code,
    pub(crate) at: usize,
    pub(crate) from: usize,
    pub(crate) to: usize,
}

/// The entry at a place. Nothing where it is refused, or where none is there.
pub(crate) fn entry_at(lists: &Lists<'_>, at: usize) -> Option<WalkEntry>
    requires { at ≤ length lists.now.stream.now }
    ensures { IfSome result (IsWalkEntry lists.now.stream.now lists.now.groups at) }
{
    let mut prls = SprmIter::new(&lists.stream[at..]);
    let (code, from, to) = prls.next()?;
    if is_refused(lists.groups, code) {
        return None;
    }
    Some(WalkEntry {
        code,
        at,
        from: at + from,
        to: at + to,
    })
}

/// Walks on over the entries that end at a place or before it, and keeps the places: where the walk is then.
pub(crate) fn advance(
    lists: &Lists<'_>,
    at: usize,
    to: usize,
    places: &mut Vec<usize>,
) -> Result<usize, Memory>
    requires { IsPrlWalk lists.now.stream.now lists.now.groups at places.old.items }
    ensures { IfOk result (λ at. IsPrlWalk lists.now.stream.now lists.now.groups at places.new.items) }
{
    let mut here = at;
    while let Some(entry) = entry_at(lists, here) {
        if to < entry.to {
            return Ok(here);
        }
        places.push(entry.to)?;
        here = entry.to;
    }
    Ok(here)
}

/// Whether a walk came by a list that ends where the walk is.
pub(crate) fn passes_list(lists: &Lists<'_>, range: ListRange, at: usize, places: &[usize]) -> bool
    ensures { IsTrue result → ComesBy lists.now.stream.now range at places.now }
{
    if range.to < at {
        return false;
    }
    if lists.stream.len() < range.to {
        return false;
    }
    if !has_place(places, range.from) {
        return false;
    }
    ends_list(&lists.stream[at..range.to])
}

/// Whether a list ends before these bytes.
fn ends_list(rest: &[u8]) -> bool
    ensures { IsTrue result → EndsSprmList rest.now }
{
    rest.len() < 2 || get16(rest, 0) == 0
}

/// Whether the place is one of these, which ascend.
fn has_place(places: &[usize], place: usize) -> bool
    ensures { IsTrue result → IsAmongPlaces places.now place }
{
    let mut low = 0;
    let mut high = places.len();
    while low < high {
        let middle = low + (high - low) / 2;
        if places[middle] < place {
            low = middle + 1;
        } else {
            high = middle;
        }
    }
    if low < places.len() && places[low] == place {
        return true;
    }
    false
}
