// Whether a change may be put into a container.
ghost use Rattle.std.specs.Prelude.{ℕ, ◌+◌, ◌^◌, ◌<◌, ◌≤◌, ◌↔◌, IsTrue, length};
ghost use Rattle.cfb_in_place.specs.Change.{grown_bytes};
ghost use Rattle.cfb_in_place.specs.Contract.{IsNamed, CanBePutInPlace, HasLengths, FitsChange};

use crate::change::Change;
use cfb_sectors::CUTOFF;
use cfb_streams::{Container, equal_names, word_document};

/// The bytes that no stream may have.
const TOO_LONG: usize = 1 << 31;

/// Whether the change may be put there: the container has the two streams, and none is too long.
pub fn can_be_appended(container: &Container, change: &Change) -> bool
    ensures { IsTrue result ↔ CanBePutInPlace container.now change.now.change change.now.name }
{
    if !has_lengths(change) {
        return false;
    }
    if !has_named(container, word_document()) {
        return false;
    }
    if !has_named(container, change.name.as_slice()) {
        return false;
    }
    all_fit(container, change)
}

/// Whether the front is short enough, and the stream that is written anew neither too short nor too long.
fn has_lengths(change: &Change) -> bool
    ensures { IsTrue result ↔ HasLengths change.now.change }
{
    let table = change.table.as_slice().len();
    if change.fib.as_slice().len() > CUTOFF as usize {
        return false;
    }
    if table < CUTOFF as usize {
        return false;
    }
    table < TOO_LONG
}

/// Whether a stream has the name.
fn has_named(container: &Container, name: &[u16]) -> bool
    ensures { IsTrue result ↔ ((i : ℕ) × IsNamed container.now i name.now) }
{
    for i in 0..container.count() {
        if is_named(container, i, name) {
            return true;
        }
    }
    false
}

/// Whether this stream has the name.
fn is_named(container: &Container, i: usize, name: &[u16]) -> bool
    requires { i < length container.now.streams }
    ensures { IsTrue result ↔ IsNamed container.now i name.now }
{
    equal_names(container.name(i), name)
}

/// Whether each stream with the FIB can grow so.
fn all_fit(container: &Container, change: &Change) -> bool
    ensures { IsTrue result ↔ ((i : ℕ) → FitsChange container.now change.now i) }
{
    for i in 0..container.count() {
        if !fits(container, change, i) {
            return false;
        }
    }
    true
}

/// Whether a stream can grow so, where it is the one with the FIB.
fn fits(container: &Container, change: &Change, i: usize) -> bool
    requires { i < length container.now.streams }
    ensures { IsTrue result ↔ FitsChange container.now change.now i }
{
    if !is_named(container, i, word_document()) {
        return true;
    }
    if is_named(container, i, change.name.as_slice()) {
        return false;
    }
    can_grow(container.bytes(i), change)
}

/// Whether a stream of these bytes can grow so.
fn can_grow(bytes: &[u8], change: &Change) -> bool
    ensures { IsTrue result ↔ ((4096 ≤ length bytes.now)
        × (length (grown_bytes change.now.change bytes.now) < 2 ^ 31)) }
{
    let fib = change.fib.as_slice().len();
    if bytes.len() < CUTOFF as usize {
        return false;
    }
    bytes.len().max(fib) + change.tail.as_slice().len() < TOO_LONG
}
