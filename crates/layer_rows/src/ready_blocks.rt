// The border of what is made ready: a list in blocks takes a ready block where the block of a place is full, and else
// none.
ghost use Rattle.std.specs.Prelude.{◌≡◌};

use chunked_list::{BlockList, Measured};
use doc_bits::Memory;
use std::alloc::Global;
use std::test::Fail;

/// An item of no units.
#[derive(Clone, Copy)]
struct Mark {
    number: usize,
}

impl Measured for Mark {
    ghost units = { λ mark. 0 };

    fn units(&self) -> u32 {
        0
    }
}

/// Puts a mark before that of this number, where a block is ready.
fn put(list: &mut BlockList<Mark>, i: usize, number: usize) {
    let len = list.len();
    if i <= len && len < 1000 && 1 <= list.spare() {
        list.insert(i, Mark { number });
    }
}

/// Puts so many marks, each last.
fn fill(list: &mut BlockList<Mark>, count: usize) -> Result<(), Memory> {
    for number in 0..count {
        list.reserve(1)?;
        put(list, number, number);
    }
    Ok(())
}

/// The items, the place of one more, and the blocks that are ready before it and after it.
struct Row(usize, usize, usize, usize);

const ROWS: [Row; 8] = [
    Row(0, 0, 1, 0),
    Row(1, 1, 1, 1),
    Row(127, 127, 1, 1),
    Row(127, 0, 2, 2),
    Row(128, 128, 1, 0),
    Row(128, 0, 3, 2),
    Row(129, 129, 1, 1),
    Row(129, 0, 1, 1),
];

/// Whether one of the marks has the number 1,000.
fn has_thousand(marks: &[Mark]) -> bool {
    for mark in marks {
        if mark.number == 1000 {
            return true;
        }
    }
    false
}

/// Whether the blocks of a row are taken, and the mark is in the list.
fn takes(list: &mut BlockList<Mark>, row: &Row) -> Result<bool, Memory> {
    fill(list, row.0)?;
    list.reserve(row.2)?;
    // What is ready is not made again.
    list.reserve(row.2)?;
    let ready = list.spare();
    put(list, row.1, 1000);
    let left = list.spare();
    let all = list.to_vec()?;
    Ok(
        ready == row.2
            && left == row.3
            && all.len() == row.0.saturating_add(1)
            && has_thousand(&all),
    )
}

/// Whether a new list takes entries as the row says.
fn are_taken(alloc: Global, row: &Row) -> Result<bool, Memory> {
    let mut list = BlockList::new(alloc);
    let taken = takes(&mut list, row);
    drop(list);
    taken
}

/// Whether a new list takes entries as each row says.
fn are_all_taken(alloc: Global, rows: &[Row]) -> Result<bool, Memory> {
    for row in rows {
        if !are_taken(alloc, row)? {
            return Ok(false);
        }
    }
    Ok(true)
}

#[test]
fn a_full_block_takes_a_ready_one(rt: HostRuntime) -> Result<(), Fail> {
    assert!(rt; are_all_taken(rt.alloc(), &ROWS)?);
    Ok(())
}
