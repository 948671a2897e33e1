// Lists in a stream, and which of them lie over one another. Nothing is claimed of the order: a wrong one costs time.
ghost use Rattle.std.specs.Prelude.{◌<◌, ◌≤◌, length};

use doc_bits::Memory;
use std::alloc::Global;

/// Where a list begins and ends in a stream, in bytes.
#[derive(Clone, Copy, PartialEq, Eq)]
pub struct ListRange {
    pub from: usize,
    pub to: usize,
}

/// Lists of a stream, at a place that holds these groups.
#[derive(Clone, Copy)]
pub(crate) struct Lists<'a> {
    pub(crate) stream: &'a [u8],
    pub(crate) ranges: &'a [ListRange],
    pub(crate) groups: u8,
}

/// A list in the order of beginnings.
#[derive(Clone, Copy, PartialEq, Eq, PartialOrd, Ord)]
pub(crate) struct Begin {
    pub(crate) from: usize,
    pub(crate) to: usize,
    pub(crate) number: usize,
}

/// A list in the order of ends.
#[derive(Clone, Copy, PartialEq, Eq, PartialOrd, Ord)]
pub(crate) struct End {
    pub(crate) to: usize,
    pub(crate) from: usize,
    pub(crate) number: usize,
}

/// The lists in the order of their beginnings.
pub(crate) fn begins_of(alloc: Global, ranges: &[ListRange]) -> Result<Vec<Begin>, Memory> {
    let mut begins = Vec::with_capacity(alloc, ranges.len())?;
    for number in 0..ranges.len() {
        let range = ranges[number];
        begins.push(Begin {
            from: range.from,
            to: range.to,
            number,
        })?;
    }
    begins.sort_unstable();
    Ok(begins)
}

/// The lists in the order of their ends.
pub(crate) fn ends_of(alloc: Global, group: &[Begin]) -> Result<Vec<End>, Memory> {
    let mut ends = Vec::with_capacity(alloc, group.len())?;
    for begin in group {
        ends.push(End {
            to: begin.to,
            from: begin.from,
            number: begin.number,
        })?;
    }
    ends.sort_unstable();
    Ok(ends)
}

/// The first list from a place of the group on that is not done.
pub(crate) fn first_unfinished(group: &[Begin], done: &[bool], from: usize) -> usize {
    for next in from..group.len() {
        if is_open(done, group[next].number) {
            return next;
        }
    }
    group.len()
}

/// Whether a list is not done.
pub(crate) fn is_open(done: &[bool], number: usize) -> bool {
    number < done.len() && !done[number]
}

/// Notes that a list is done.
pub(crate) fn mark(done: &mut [bool], number: usize) {
    if number < done.len() {
        done[number] = true;
    }
}

/// Where the lists end that lie over one another from the first on.
pub(crate) fn group_end(begins: &[Begin], first: usize) -> usize
    requires { first < length begins.now }
    ensures later { first < result }
    ensures within { result ≤ length begins.now }
{
    let mut last = begins[first].to;
    for next in first + 1..begins.len() {
        if last <= begins[next].from {
            return next;
        }
        last = last.max(begins[next].to);
    }
    begins.len()
}
