// Lists of many pieces: their blocks are divided and joined, and CPs are found in few steps.
ghost use Rattle.std.specs.Prelude.{◌≡◌, ◌+◌, ◌<◌, ◌≤◌, OnOk};
ghost use Rattle.piece_table.specs.Piece.{total_length};

use crate::tally::Tally;
use doc_bits::{Memory, Steps};
use piece_table::{Piece, PieceList, Spot};
use std::alloc::Global;
use std::marker::Brand;
use std::sync::ledger::{Blank, Ledger as Account};
use std::test::Fail;

/// The byte of a list's first unit.
const START: u32 = 1024;

/// The pieces of a list in which places are found. All have two units but the last.
const MANY: u32 = 16_000;

/// Its units.
const MANY_UNITS: u32 = 40_000;

/// The pieces of a list that ranges are taken out of.
const SOME: u32 = 1_024;

/// Its units.
const SOME_UNITS: u32 = 2_560;

/// Where a list is split first.
#[derive(Clone, Copy)]
enum Order {
    Front,
    Back,
    Middle,
}

/// The number of the piece, of so many, that begins at the k-th split.
fn piece_of(order: Order, pieces: u32, k: u32) -> u32 {
    match order {
        Order::Front => k.saturating_add(1),
        Order::Back => pieces.saturating_sub(1).saturating_sub(k),
        Order::Middle => {
            if k % 2 == 0 {
                (pieces / 2).saturating_add(k / 2)
            } else {
                (pieces / 2).saturating_sub(1).saturating_sub(k / 2)
            }
        }
    }
}

/// Splits a list at a CP, where it has it.
fn split(list: &mut PieceList, cp: u32) -> Result<(), Memory> {
    list.reserve(1)?;
    if cp <= list.total() {
        list.split(cp);
    }
    Ok(())
}

/// A list of so many pieces and units: one that was split at each second CP up to the last piece.
fn many_pieces(alloc: Global, order: Order, pieces: u32, units: u32) -> Result<PieceList, Memory>
    requires some { 1 ≤ units }
    requires most { units ≤ 40000 }
{
    let mut list = PieceList::one(alloc, START, units)?;
    for k in 0..pieces.saturating_sub(1) {
        split(&mut list, piece_of(order, pieces, k).saturating_mul(2))?;
    }
    Ok(list)
}

/// Where a CP is, and the steps to it.
fn spot_and_steps<A: Account>(list: &PieceList, cp: u32, blank: Blank) -> (Spot, u64)
    requires cp { cp < total_length list.now.pieces }
    requires name { blank.name ≡ A.name }
    requires parts { blank.parts ≡ A.parts }
    requires some { 0 < A.parts }
{
    let mut steps = Steps::new(Tally::<A>::new(blank));
    let spot = list.locate(cp, &mut steps);
    (spot, steps.ledger().seen)
}

/// Whether a CP is there, after at most so many steps.
fn is_spot(list: &PieceList, cp: u32, piece: usize, within: u32, most: u64) -> bool {
    if cp >= list.total() {
        return false;
    }
    let (spot, steps) = spot_and_steps::<Brand>(list, cp, Blank::new(1));
    spot.piece == piece && spot.within == within && steps <= most
}

/// Whether each piece is found at its first CP, and the one before it at the CP before.
fn agrees_with_the_scan(list: &PieceList) -> bool {
    let mut cp: u32 = 0;
    let mut last: u32 = 0;
    for i in 0..list.len() {
        let most = (list.len() as u64 / 32).saturating_add(130);
        if !is_spot(list, cp, i, 0, most) {
            return false;
        }
        if i > 0
            && !is_spot(
                list,
                cp.saturating_sub(1),
                i.saturating_sub(1),
                last.saturating_sub(1),
                most,
            )
        {
            return false;
        }
        last = list.piece(i).len;
        cp = cp.saturating_add(last);
    }
    cp == list.total()
}

/// Whether a CP near the end of many pieces is found in few steps, and each of fewer pieces.
fn is_found(alloc: Global, order: Order) -> Result<bool, Memory> {
    let list = many_pieces(alloc, order, MANY, MANY_UNITS)?;
    let near = list.len() == 16_000 && is_spot(&list, 31_999, 15_999, 1, 630);
    drop(list);
    Ok(near && are_found(alloc, order, SOME, SOME_UNITS)?)
}

/// Whether each of so many pieces is found.
fn are_found(alloc: Global, order: Order, pieces: u32, units: u32) -> Result<bool, Memory>
    requires some { 1 ≤ units }
    requires most { units ≤ 40000 }
{
    let list = many_pieces(alloc, order, pieces, units)?;
    Ok(agrees_with_the_scan(&list))
}

/// Whether a CP of one piece is found.
fn is_found_in_one(alloc: Global) -> Result<bool, Memory> {
    let list = PieceList::one(alloc, START, MANY_UNITS)?;
    Ok(is_spot(&list, 5, 0, 5, 130))
}

#[test]
fn a_cp_of_many_pieces_is_found_in_few_steps(rt: HostRuntime) -> Result<(), Fail> {
    assert!(rt; is_found(rt.alloc(), Order::Front)?);
    assert!(rt; is_found(rt.alloc(), Order::Back)?);
    assert!(rt; are_found(rt.alloc(), Order::Middle, MANY, MANY_UNITS)?);
    assert!(rt; is_found_in_one(rt.alloc())?);
    Ok(())
}

/// The byte of a unit after a range went.
fn byte_of(cp: u32, from: u32, to: u32) -> u32 {
    let old = if cp < from {
        cp
    } else {
        cp.saturating_add(to.saturating_sub(from))
    };
    old.saturating_mul(2).saturating_add(START)
}

/// Whether the pieces are those of the list without a range.
fn is_without(list: &PieceList, from: u32, to: u32) -> bool {
    let mut cp: u32 = 0;
    for i in 0..list.len() {
        let piece = list.piece(i);
        let end = cp.saturating_add(piece.len);
        let last = byte_of(end.saturating_sub(1), from, to);
        if piece.at != byte_of(cp, from, to) || piece.end() != last as u64 + 2 {
            return false;
        }
        cp = end;
    }
    cp == SOME_UNITS.saturating_sub(to.saturating_sub(from))
}

/// Takes a range out, and splits again without further memory where there is some left.
fn erase(list: &mut PieceList, from: u32, to: u32) -> Result<(), Memory> {
    list.reserve(4)?;
    if from <= to && to <= list.total() {
        list.splice(from, to, None);
        if 1 <= list.total() {
            list.split(1);
        }
    }
    Ok(())
}

/// A piece of one unit of one byte.
const BYTE: Piece = Piece {
    at: 3001,
    wide: false,
    len: 1,
};

/// Whether a piece is that one.
fn is_byte(piece: Piece) -> bool {
    piece.at == BYTE.at && !piece.wide && piece.len == BYTE.len
}

/// Whether a unit of one byte is first where it is put there; then it is taken out again.
fn takes_a_byte(list: &mut PieceList) -> Result<bool, Memory> {
    list.reserve(6)?;
    if list.total() > 500_000 {
        return Ok(false);
    }
    list.splice(0, 0, Some(BYTE));
    let is_first = 1 <= list.len() && is_byte(list.piece(0));
    if 1 <= list.total() {
        list.splice(0, 1, None);
    }
    Ok(is_first)
}

/// Whether a range goes from a list of so many pieces, and each CP is found in what is left.
fn goes(list: &mut PieceList, from: u32, to: u32) -> Result<bool, Memory> {
    let count = list.len();
    erase(list, from, to)?;
    let put = takes_a_byte(list)?;
    let found = list.len() == 0 || agrees_with_the_scan(list);
    Ok(count == 1_024 && put && found && is_without(list, from, to))
}

/// Whether a range goes from a list that was split in an order.
fn is_erased(alloc: Global, order: Order, from: u32, to: u32) -> Result<bool, Memory> {
    let mut list = many_pieces(alloc, order, SOME, SOME_UNITS)?;
    let gone = goes(&mut list, from, to);
    drop(list);
    gone
}

/// All pieces, all but the last, pieces of many blocks, of one block and of two, and parts of two pieces.
const RANGES: [(u32, u32); 6] = [
    (0, 2_560),
    (0, 2_558),
    (62, 1_984),
    (256, 512),
    (190, 300),
    (1, 3),
];

/// Whether each range goes from a list that was split in an order.
fn are_erased(alloc: Global, order: Order, ranges: &[(u32, u32)]) -> Result<bool, Memory> {
    for range in ranges {
        if !is_erased(alloc, order, range.0, range.1)? {
            return Ok(false);
        }
    }
    Ok(true)
}

#[test]
fn ranges_of_many_blocks_go(rt: HostRuntime) -> Result<(), Fail> {
    assert!(rt; are_erased(rt.alloc(), Order::Front, &RANGES)?);
    assert!(rt; are_erased(rt.alloc(), Order::Middle, &RANGES)?);
    Ok(())
}
