// The maps of lists that lie over one another, made at once.
ghost use Rattle.std.specs.Prelude.{IfOk, OnOk};
ghost use Rattle.std.specs.List.{All};
ghost use Rattle.overlapping_grpprls.specs.Keeping.{IsWalkedMap, AreKeptOf};

use crate::ListRange;
use crate::judging::MAX_WALKS;
use crate::keeping::{advance_recording, map_from};
use crate::ranges::{
    Begin, End, Lists, begins_of, ends_of, first_unfinished, group_end, is_open, mark,
};
use crate::walk::{WalkEntry, passes_list};
use doc_bits::Memory;
use prop_map::PropMap;
use std::alloc::Global;

/// A list, and what it makes of no properties.
#[derive(Drop)]
pub struct WalkedMap {
    pub range: ListRange,
    pub map: PropMap,
}

/// The maps of lists at a place that holds these groups, as acting with each on no properties makes them. `groups` has
/// bit sgc set for each. Not each list has one here: of a list that lies over no other, that few walks come by, or that
/// clears, nothing is said, and of equal ones the first has it.
pub fn walked_maps(
    alloc: Global,
    stream: &[u8],
    ranges: &[ListRange],
    groups: u8,
) -> Result<Vec<WalkedMap>, Memory>
    ensures { IfOk result (λ made. All (IsWalkedMap stream.now groups) made.items) }
{
    let lists = Lists {
        stream,
        ranges,
        groups,
    };
    let mut made = Vec::new(alloc);
    let mut done = vec![in alloc; false; ranges.len()]?;
    let begins = begins_of(alloc, ranges)?;
    let mut first = 0;
    while first < begins.len() {
        let end = group_end(&begins, first);
        make_group(alloc, &lists, &begins[first..end], &mut done, &mut made)?;
        first = end;
    }
    Ok(made)
}

/// Makes the maps of lists that lie over one another.
fn make_group(
    alloc: Global,
    lists: &Lists<'_>,
    group: &[Begin],
    done: &mut [bool],
    made: &mut Vec<WalkedMap>,
) -> Result<(), Memory>
    requires { All (IsWalkedMap lists.now.stream.now lists.now.groups) made.old.items }
    ensures { OnOk result (All (IsWalkedMap lists.now.stream.now lists.now.groups) made.new.items) }
{
    if group.len() < 2 {
        return Ok(());
    }
    let ends = ends_of(alloc, group)?;
    let mut next = 0;
    for _walk in 0..MAX_WALKS {
        next = first_unfinished(group, done, next);
        if group.len() <= next {
            return Ok(());
        }
        make_walk(alloc, lists, group[next].from, &ends, done, made)?;
        next += 1;
    }
    Ok(())
}

/// Makes the maps of the lists that one walk comes by.
fn make_walk(
    alloc: Global,
    lists: &Lists<'_>,
    start: usize,
    ends: &[End],
    done: &mut [bool],
    made: &mut Vec<WalkedMap>,
) -> Result<(), Memory>
    requires { All (IsWalkedMap lists.now.stream.now lists.now.groups) made.old.items }
    ensures { OnOk result (All (IsWalkedMap lists.now.stream.now lists.now.groups) made.new.items) }
{
    if lists.stream.len() < start {
        return Ok(());
    }
    let mut places = vec![in alloc; start; 1]?;
    let mut kept = Vec::new(alloc);
    let mut at = start;
    for end in ends {
        at = advance_recording(lists, at, end.to, &mut places, &mut kept)?;
        let range = ListRange {
            from: end.from,
            to: end.to,
        };
        if is_open(done, end.number) && passes_list(lists, range, at, &places) {
            push_map(alloc, lists, range, &kept, made)?;
            mark(done, end.number);
        }
    }
    Ok(())
}

/// Adds the map of a list that ends where a walk is, unless it is that of the list before it.
fn push_map(
    alloc: Global,
    lists: &Lists<'_>,
    range: ListRange,
    kept: &[WalkEntry],
    made: &mut Vec<WalkedMap>,
) -> Result<(), Memory>
    requires kept { AreKeptOf lists.now.stream.now lists.now.groups range kept.now }
    requires made { All (IsWalkedMap lists.now.stream.now lists.now.groups) made.old.items }
    ensures { OnOk result (All (IsWalkedMap lists.now.stream.now lists.now.groups) made.new.items) }
{
    if is_last(made, range) {
        return Ok(());
    }
    let map = map_from(alloc, lists, kept, range.from)?;
    made.push(WalkedMap { range, map })?;
    Ok(())
}

/// Whether the map that was made last is that of an equal list.
fn is_last(made: &[WalkedMap], range: ListRange) -> bool {
    match made.last() {
        None => false,
        Some(last) => last.range == range,
    }
}
