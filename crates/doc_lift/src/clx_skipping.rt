// The table stream of a file in which the codes in the Prcs that are not read are skipped, where the Clx is apart
// from the other parts and from the levels of lists.
ghost use Rattle.std.specs.Prelude.{◌≡◌, ◌≢◌, ◌↔◌, ◌+◌, ◌<◌, ◌≤◌, ◌^◌, IsTrue, IfOk, length};
ghost use Rattle.fib_form.specs.Fib.{kept_pairs};
ghost use Rattle.doc_meaning.specs.Apart.{ReadsClx, IsClxApart, IsPartApart, StandsApart, LevelsStandApart, EndBefore};
ghost use Rattle.doc_meaning.specs.Apart.{clx_from, clx_to};

use crate::skipping::copy_stream;
use doc_bits::Memory;
use doc_parts::levels_len;
use fib_form::{Fib, PAIR_COUNT};
use part_skips::skip_prcs_in;
use std::alloc::Global;

/// The pairs of the Clx and of PlfLst.
const CLX: usize = 33;

const PLF_LST: usize = 73;

/// A copy of the table stream with skipped Prcs, where the Clx is apart.
pub(crate) fn clx_skipped(alloc: Global, early: &Fib, table: &[u8]) -> Result<Vec<u8>, Memory>
    requires { length table.now < 2 ^ 32 }
    ensures { IfOk result (λ copy. ReadsClx early.now.pairs table.now copy.items) }
{
    let mut copy = copy_stream(alloc, table)?;
    skip_clx(early, &mut copy);
    Ok(copy)
}

/// Skips the Prcs of the table stream, where the Clx is apart.
fn skip_clx(early: &Fib, table: &mut [u8])
    requires { length table.old < 2 ^ 32 }
    ensures { ReadsClx early.now.pairs table.old table.new }
{
    if !is_clx_apart(early, table) {
        return;
    }
    skip_prcs_in(table, clx_start(early), clx_end(early));
}

/// Where the Clx begins in the table stream.
fn clx_start(early: &Fib) -> usize
    ensures { result ≡ clx_from early.now.pairs }
{
    early.pair(CLX).0 as usize
}

/// Where it ends.
fn clx_end(early: &Fib) -> usize
    ensures { result ≡ clx_to early.now.pairs }
{
    let (from, len) = early.pair(CLX);
    from as usize + len as usize
}

/// Whether the Clx is in the table stream, and each other part and the levels are apart from it.
fn is_clx_apart(early: &Fib, table: &[u8]) -> bool
    requires { length table.now < 2 ^ 32 }
    ensures { IsTrue result ↔ IsClxApart early.now.pairs table.now }
{
    let from = clx_start(early);
    let to = clx_end(early);
    let table_len = table.len();
    if table_len < to {
        return false;
    }
    if !levels_stand_apart(table, from, to, early.pair(PLF_LST)) {
        return false;
    }
    for n in 0..PAIR_COUNT {
        if !is_apart(early, from, to, n) {
            return false;
        }
    }
    true
}

/// Whether the part of pair `n` is apart from a range, if it is not the Clx.
fn is_apart(early: &Fib, from: usize, to: usize, n: usize) -> bool
    requires { n < kept_pairs }
    ensures { IsTrue result ↔ IsPartApart from to early.now.pairs n }
{
    if n == CLX {
        return true;
    }
    stands_apart(from, to, early.pair(n))
}

/// Whether a part has no bytes, or is before a range or behind it.
fn stands_apart(from: usize, to: usize, pair: (u32, u32)) -> bool
    ensures { IsTrue result ↔ StandsApart from to pair }
{
    pair.1 == 0 || pair.0 as usize + pair.1 as usize <= from || to <= pair.0 as usize
}

/// Whether PlfLst has no bytes, or begins behind a range, or its levels end before it.
fn levels_stand_apart(table: &[u8], from: usize, to: usize, pair: (u32, u32)) -> bool
    requires { length table.now < 2 ^ 32 }
    ensures { IsTrue result ↔ LevelsStandApart from to table.now pair }
{
    if pair.1 == 0 || to <= pair.0 as usize {
        return true;
    }
    end_before(table, pair, from)
}

/// Whether the levels behind a PlfLst are whole, and end before a place.
pub(crate) fn end_before(table: &[u8], pair: (u32, u32), place: usize) -> bool
    requires { length table.now < 2 ^ 32 }
    ensures { IsTrue result ↔ EndBefore table.now pair place }
{
    let from = pair.0 as usize + pair.1 as usize;
    let table_len = table.len();
    if table_len < from {
        return false;
    }
    match levels_len(table, pair.0, pair.1) {
        Some(len) => is_up_to(from + len as usize, place),
        None => false,
    }
}

/// Whether an end is at a place or before it.
fn is_up_to(end: usize, place: usize) -> bool
    ensures { IsTrue result ↔ end ≤ place }
{
    end <= place
}
