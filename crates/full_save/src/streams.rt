// The streams of a full save in the order of their names.
ghost use Rattle.std.specs.Prelude.{◌≡◌, ℕ, ◌<◌, ◌≤◌, List, ◌++◌, length};
ghost use Rattle.std.specs.Prelude.{slice_range, OnOk, IfOk};
ghost use Rattle.cfb_streams.specs.Contents.{AreStreams};
ghost use Rattle.cfb_layout.specs.Layout.{lengths_of};
ghost use Rattle.full_save.specs.Streams.{saved_streams, IsPlaceFor};

use cfb_streams::{Streams, TABLE_1, WORD_DOCUMENT, name_before};
use doc_bits::Memory;
use std::alloc::Global;

/// The carried streams with the two that a save makes.
pub(crate) fn streams_with(
    alloc: Global,
    carried: &Streams,
    table: &[u8],
    wd: &[u8],
) -> Result<Streams, Memory>
    requires { AreStreams (saved_streams table.now wd.now carried.now) }
    ensures { IfOk result (λ streams. streams ≡ saved_streams table.now wd.now carried.now) }
{
    let first = place_for(carried, &TABLE_1);
    let second = place_for(carried, &WORD_DOCUMENT);
    let mut streams = Streams::new(alloc);
    add_range(&mut streams, carried, 0, first)?;
    streams.add(&TABLE_1, table)?;
    add_range(&mut streams, carried, first, second)?;
    streams.add(&WORD_DOCUMENT, wd)?;
    add_range(&mut streams, carried, second, carried.count())?;
    Ok(streams)
}

/// The lengths of these streams, in the same order.
pub(crate) fn lengths_with(
    alloc: Global,
    carried: &Streams,
    table: u64,
    wd: u64,
) -> Result<Vec<u64>, Memory>
    ensures { IfOk result (λ lengths. (table_bytes wd_bytes : List ℕ) →
        length table_bytes ≡ table → length wd_bytes ≡ wd →
        lengths.items ≡ lengths_of (saved_streams table_bytes wd_bytes carried.now)) }
{
    let first = place_for(carried, &TABLE_1);
    let second = place_for(carried, &WORD_DOCUMENT);
    let mut lengths = Vec::new(alloc);
    add_lengths(&mut lengths, carried, 0, first)?;
    lengths.push(table)?;
    add_lengths(&mut lengths, carried, first, second)?;
    lengths.push(wd)?;
    add_lengths(&mut lengths, carried, second, carried.count())?;
    Ok(lengths)
}

/// How many streams have names that come before a name.
fn place_for(streams: &Streams, name: &[u16]) -> usize
    ensures { IsPlaceFor name.now streams.now result }
{
    let count = streams.count();
    for i in 0..count {
        if !name_before(streams.name(i), name) {
            return i;
        }
    }
    count
}

/// Adds the streams from `from` to before `to`.
fn add_range(streams: &mut Streams, carried: &Streams, from: usize, to: usize) -> Result<(), Memory>
    requires ordered { from ≤ to }
    requires within { to ≤ length carried.now }
    requires streams { AreStreams (streams.old ++ slice_range carried.now from to) }
    ensures { OnOk result (streams.new ≡ streams.old ++ slice_range carried.now from to) }
{
    for i in from..to {
        streams.add(carried.name(i), carried.bytes(i))?;
    }
    Ok(())
}

/// Adds the lengths of the streams from `from` to before `to`.
fn add_lengths(
    lengths: &mut Vec<u64>,
    carried: &Streams,
    from: usize,
    to: usize,
) -> Result<(), Memory>
    requires ordered { from ≤ to }
    requires within { to ≤ length carried.now }
    ensures { OnOk result
        (lengths.new.items ≡ lengths.old.items ++ lengths_of (slice_range carried.now from to)) }
{
    for i in from..to {
        lengths.push(carried.bytes(i).len() as u64)?;
    }
    Ok(())
}
