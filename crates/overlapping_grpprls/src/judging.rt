// Lists that lie over one another, checked at once.
ghost use Rattle.std.specs.Prelude.{IfOk, OnOk};
ghost use Rattle.std.specs.List.{All};
ghost use Rattle.overlapping_grpprls.specs.Walks.{IsAcceptedRange, IsPrlWalk};

use crate::ListRange;
use crate::ranges::{
    Begin, End, Lists, begins_of, ends_of, first_unfinished, group_end, is_open, mark,
};
use crate::walk::{advance, passes_list};
use doc_bits::Memory;
use std::alloc::Global;

/// So many walks are made over lists that lie over one another.
pub const MAX_WALKS: usize = 16;

/// The lists that were seen to be right, at a place that holds these groups. `groups` has bit sgc set for each. Of the
/// others nothing is said: one that lies over no other, or that few walks come by, is not looked at.
pub fn right_lists(
    alloc: Global,
    stream: &[u8],
    ranges: &[ListRange],
    groups: u8,
) -> Result<Vec<ListRange>, Memory>
    ensures { IfOk result (λ right. All (IsAcceptedRange stream.now groups) right.items) }
{
    let lists = Lists {
        stream,
        ranges,
        groups,
    };
    let mut right = Vec::new(alloc);
    let mut done = vec![in alloc; false; ranges.len()]?;
    let begins = begins_of(alloc, ranges)?;
    let mut first = 0;
    while first < begins.len() {
        let end = group_end(&begins, first);
        check_group(alloc, &lists, &begins[first..end], &mut done, &mut right)?;
        first = end;
    }
    Ok(right)
}

/// Checks lists that lie over one another.
fn check_group(
    alloc: Global,
    lists: &Lists<'_>,
    group: &[Begin],
    done: &mut [bool],
    right: &mut Vec<ListRange>,
) -> Result<(), Memory>
    requires { All (IsAcceptedRange lists.now.stream.now lists.now.groups) right.old.items }
    ensures { OnOk result (All (IsAcceptedRange lists.now.stream.now lists.now.groups) right.new.items) }
{
    if group.len() < 2 {
        return Ok(());
    }
    let ends = ends_of(alloc, group)?;
    let mut next = 0;
    for _walk in 0..MAX_WALKS {
        next = first_unfinished(group, done, next);
        if group.len() <= next {
            return Ok(());
        }
        check_walk(alloc, lists, group[next].from, &ends, done, right)?;
        next += 1;
    }
    Ok(())
}

/// Checks the lists that one walk comes by.
fn check_walk(
    alloc: Global,
    lists: &Lists<'_>,
    start: usize,
    ends: &[End],
    done: &mut [bool],
    right: &mut Vec<ListRange>,
) -> Result<(), Memory>
    requires { All (IsAcceptedRange lists.now.stream.now lists.now.groups) right.old.items }
    ensures { OnOk result (All (IsAcceptedRange lists.now.stream.now lists.now.groups) right.new.items) }
{
    if lists.stream.len() < start {
        return Ok(());
    }
    let mut places = vec![in alloc; start; 1]?;
    let mut at = start;
    for end in ends {
        at = advance(lists, at, end.to, &mut places)?;
        if is_open(done, end.number) && check(lists, *end, at, &places, right)? {
            mark(done, end.number);
        }
    }
    Ok(())
}

/// Checks a list that may end where the walk is.
fn check(
    lists: &Lists<'_>,
    end: End,
    at: usize,
    places: &[usize],
    right: &mut Vec<ListRange>,
) -> Result<bool, Memory>
    requires walk { IsPrlWalk lists.now.stream.now lists.now.groups at places.now }
    requires right { All (IsAcceptedRange lists.now.stream.now lists.now.groups) right.old.items }
    ensures { OnOk result (All (IsAcceptedRange lists.now.stream.now lists.now.groups) right.new.items) }
{
    let range = ListRange {
        from: end.from,
        to: end.to,
    };
    if !passes_list(lists, range, at, places) {
        return Ok(false);
    }
    right.push(range)?;
    Ok(true)
}
