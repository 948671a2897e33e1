// Streams of files: one that is taken out, and containers that are made anew.
use crate::lent::{copy_of, given};
use crate::row_fault::RowFault;
use crate::words::units_of;
use cfb_layout::whole;
use cfb_streams::{Container, Streams, equal_names, name_before};
use std::alloc::Global;

/// The bytes of a FIB of Word 97, and of one of Word 2000.
const FIB_LENS: [usize; 2] = [900, 1024];

/// Where a FIB says how many pairs it has, and how many one of Word 2000 says.
const PAIR_COUNT_AT: usize = 152;

const LATER_PAIRS: [u8; 2] = [0x6C, 0];

/// How many streams a container may have.
const MAX_STREAMS: usize = 1023;

/// Puts a stream behind the others, where its name comes after theirs.
fn add(streams: &mut Streams, name: &[u16], bytes: &[u8]) -> Result<(), RowFault> {
    if !streams.can_add(name, bytes) {
        return Err(RowFault::NoStream);
    }
    streams.add(name, bytes)?;
    Ok(())
}

/// Puts a stream of a name behind the others.
fn add_named(
    alloc: Global,
    streams: &mut Streams,
    name: &str,
    bytes: &[u8],
) -> Result<(), RowFault> {
    let units = units_of(alloc, name)?;
    let put = add(streams, &units, bytes);
    drop(units);
    put
}

/// Puts the stream of a number behind the others.
fn add_numbered(
    alloc: Global,
    streams: &mut Streams,
    number: u64,
    bytes: &[u8],
) -> Result<(), RowFault> {
    let name = format!(in alloc; "s{number:04}")?;
    let put = add_named(alloc, streams, name.as_str(), bytes);
    drop(name);
    put
}

/// Puts so many streams of the same bytes behind the others.
fn add_many(
    alloc: Global,
    streams: &mut Streams,
    count: u64,
    bytes: &[u8],
) -> Result<(), RowFault> {
    for number in 0..count {
        add_numbered(alloc, streams, number, bytes)?;
    }
    Ok(())
}

/// One stream.
pub(crate) fn one_stream(alloc: Global, name: &str, bytes: &[u8]) -> Result<Streams, RowFault> {
    let mut streams = Streams::new(alloc);
    let put = add_named(alloc, &mut streams, name, bytes);
    given(streams, put)
}

/// So many streams of the same bytes: `s0000`, `s0001` and on.
pub(crate) fn many_streams(alloc: Global, count: u64, bytes: &[u8]) -> Result<Streams, RowFault> {
    let mut streams = Streams::new(alloc);
    let put = add_many(alloc, &mut streams, count, bytes);
    given(streams, put)
}

/// The bytes of a stream of a file.
pub(crate) fn bytes_of(alloc: Global, file: &[u8], name: &str) -> Result<Vec<u8>, RowFault> {
    let container = Container::load(alloc, file)?;
    let bytes = stream_in(alloc, &container, name);
    drop(container);
    bytes
}

/// The bytes of a stream.
fn stream_in(alloc: Global, container: &Container, name: &str) -> Result<Vec<u8>, RowFault> {
    let units = units_of(alloc, name)?;
    let bytes = match container.stream(&units) {
        Some(bytes) => copy_of(alloc, bytes),
        None => Err(RowFault::NoStream),
    };
    drop(units);
    bytes
}

/// Where the FIB of a `WordDocument` ends.
fn fib_end(wd: &[u8]) -> usize {
    match wd.get(PAIR_COUNT_AT..PAIR_COUNT_AT + 2) {
        Some(count) if count == LATER_PAIRS.as_slice() => FIB_LENS[1],
        _ => FIB_LENS[0],
    }
}

/// Whether the bytes of the `WordDocument` of a file are in that of another one, but for its FIB.
pub(crate) fn keeps_text(alloc: Global, old: &[u8], new: &[u8]) -> Result<bool, RowFault> {
    let old = bytes_of(alloc, old, "WordDocument")?;
    let kept = is_kept_in(alloc, &old, new);
    drop(old);
    kept
}

/// Whether the bytes of a `WordDocument` are in that of a file, but for its FIB.
fn is_kept_in(alloc: Global, old: &[u8], file: &[u8]) -> Result<bool, RowFault> {
    let new = bytes_of(alloc, file, "WordDocument")?;
    let kept = begins_with(&new, old, fib_end(old));
    drop(new);
    Ok(kept)
}

/// Whether bytes begin with others from a place on, which both have.
fn begins_with(new: &[u8], old: &[u8], from: usize) -> bool {
    match (old.get(from..), new.get(from..)) {
        (Some(old), Some(new)) => new.starts_with(old),
        _ => false,
    }
}

/// The streams of a container and those that are given, which take the place of those of their names.
fn merged(alloc: Global, container: &Container, more: &Streams) -> Result<Streams, RowFault> {
    let mut all = Streams::new(alloc);
    let put = merge(&mut all, container, more);
    given(all, put)
}

/// Puts the streams of a container and those that are given behind others.
fn merge(all: &mut Streams, container: &Container, more: &Streams) -> Result<(), RowFault> {
    let mut next = 0;
    for i in 0..container.count() {
        let name = container.name(i);
        let until = first_behind(more, next, name);
        add_range(all, more, next, until)?;
        next = until;
        if next >= more.count() || !equal_names(more.name(next), name) {
            add(all, name, container.bytes(i))?;
        }
    }
    add_range(all, more, next, more.count())
}

/// The first of the streams from one on whose name is not before another.
fn first_behind(more: &Streams, from: usize, name: &[u16]) -> usize {
    for k in from..more.count() {
        if !name_before(more.name(k), name) {
            return k;
        }
    }
    more.count()
}

/// Puts streams from one up to another behind others.
fn add_range(all: &mut Streams, more: &Streams, from: usize, to: usize) -> Result<(), RowFault> {
    for k in from..to.min(more.count()) {
        add(all, more.name(k), more.bytes(k))?;
    }
    Ok(())
}

/// The container of a file, made anew with the streams that are given.
pub(crate) fn with_streams(
    alloc: Global,
    file: &[u8],
    more: &Streams,
) -> Result<Vec<u8>, RowFault> {
    let container = Container::load(alloc, file)?;
    let made = anew(alloc, &container, more);
    drop(container);
    made
}

/// A container, made anew with the streams that are given.
fn anew(alloc: Global, container: &Container, more: &Streams) -> Result<Vec<u8>, RowFault> {
    let streams = merged(alloc, container, more)?;
    let made = file_of(alloc, &streams, container.clsid());
    drop(streams);
    made
}

/// The file of streams.
fn file_of(alloc: Global, streams: &Streams, clsid: [u8; 16]) -> Result<Vec<u8>, RowFault> {
    if streams.count() > MAX_STREAMS {
        return Err(RowFault::NoStream);
    }
    let made = whole(alloc, streams, clsid)?;
    let copy = copy_of(alloc, made.as_slice());
    drop(made);
    copy
}
