// Saves in a container's own sectors that no session makes: which sectors of the file before change, and how the file
// after is read. The numbers of sectors were worked out by hand from the layouts of the files before.
ghost use Rattle.doc_bits.specs.Rules.{Hold};
ghost use Rattle.cfb_streams.specs.Container.{container_rules, HasContents};

use crate::containers::{add_content, container_of, content};
use crate::lent::{given, is_made};
use cfb_in_place::{Change, appended, can_be_appended};
use cfb_layout::LayoutFault;
use cfb_streams::{Container, Streams, table_name, word_document};
use doc_bits::{Bytes, Memory, Units, put32};
use std::alloc::Global;
use std::test::Fail;

/// A stream of the file before.
#[derive(Clone, Copy)]
enum Stream {
    Table(usize),
    Main(usize),
    Other(usize),
}

/// A number that is put into the file before, at an offset.
#[derive(Clone, Copy)]
struct Number(usize, u32);

/// The streams of the file before and a number that is put into it, and the bytes of the tail and of the new table
/// stream.
#[derive(Clone, Copy)]
struct Before(&'static [Stream], Option<Number>, usize, usize);

/// The sectors of the file after, those of the stream that grew, those of the new table stream, and the old ones that
/// differ.
#[derive(Clone, Copy)]
struct After(usize, &'static [u32], &'static [u32], &'static [u32]);

/// The longest name but for one, so that the stream comes last.
const OTHER: [u16; 13] = [0x78; 13];

/// The bytes of the new front, which differ from the old ones.
const FRONT: usize = 32;

/// The table stream is in sectors 0 to 7, `WordDocument` in 8 to 15, the directory in 16 and the FAT in 17.
const SMALL: &[Stream] = &[Stream::Table(4_096), Stream::Main(4_096)];

/// Behind these come 13,818 sectors of another stream, and 13,944 in all, 109 of them of the FAT.
const LARGE: &[Stream] = &[
    Stream::Table(4_096),
    Stream::Main(4_096),
    Stream::Other(7_074_816),
];

const ROWS: [(Before, After); 3] = [
    // Nothing comes behind the old bytes, and the table stream ends within its ninth sector.
    (
        Before(SMALL, None, 0, 4_097),
        After(
            27,
            &[8, 9, 10, 11, 12, 13, 14, 15],
            &[18, 19, 20, 21, 22, 23, 24, 25, 26],
            &[8, 16, 17],
        ),
    ),
    // The table stream is empty, and its start names the first sector of `WordDocument`.
    (
        Before(
            &[Stream::Table(0), Stream::Main(4_096)],
            Some(Number(4_852, 0)),
            512,
            4_096,
        ),
        After(
            19,
            &[0, 1, 2, 3, 4, 5, 6, 7, 10],
            &[11, 12, 13, 14, 15, 16, 17, 18],
            &[0, 8, 9],
        ),
    ),
    // With the eight sectors that are added there are as many as a file may have.
    (
        Before(LARGE, None, 0, 4_096),
        After(
            13_952,
            &[8, 9, 10, 11, 12, 13, 14, 15],
            &[
                13_944, 13_945, 13_946, 13_947, 13_948, 13_949, 13_950, 13_951,
            ],
            &[8, 13_834, 13_835, 13_943],
        ),
    ),
];

/// Adds a stream of the file before.
fn add_stream(alloc: Global, streams: &mut Streams, stream: Stream) -> Result<(), Memory> {
    match stream {
        Stream::Table(len) => add_content(alloc, streams, table_name(1), len, 1),
        Stream::Main(len) => add_content(alloc, streams, word_document(), len, 2),
        Stream::Other(len) => add_content(alloc, streams, &OTHER, len, 3),
    }
}

/// Puts a number into a file, where it is long enough.
fn put(file: &mut [u8], number: Number) {
    if file.len() >= 4 && number.0 <= file.len() - 4 {
        put32(file, number.0, number.1);
    }
}

/// The container of streams.
fn laid_out(alloc: Global, streams: &[Stream]) -> Result<Bytes, LayoutFault> {
    let mut list = Streams::new(alloc);
    let added = add_streams(alloc, &mut list, streams);
    let file = container_of(alloc, &list);
    drop(list);
    added?;
    file
}

/// Adds streams one after another.
fn add_streams(alloc: Global, list: &mut Streams, streams: &[Stream]) -> Result<(), Memory> {
    for stream in streams {
        add_stream(alloc, list, *stream)?;
    }
    Ok(())
}

/// The file before.
fn file_before(alloc: Global, before: Before) -> Result<Vec<u8>, LayoutFault> {
    let container = laid_out(alloc, before.0)?;
    let file = with_number(alloc, container.as_slice(), before.1);
    drop(container);
    Ok(file?)
}

/// A container with a number.
fn with_number(alloc: Global, container: &[u8], number: Option<Number>) -> Result<Vec<u8>, Memory> {
    let mut file = Vec::from_slice(alloc, container)?;
    if let Some(number) = number {
        put(&mut file, number);
    }
    Ok(file)
}

/// Bytes that differ from stream to stream.
fn part(alloc: Global, len: usize, stream: usize) -> Result<Bytes, Memory> {
    let bytes = content(alloc, len, stream)?;
    Bytes::from_slice(alloc, &bytes)
}

/// What is put into it: a front, a tail and a table stream of so many bytes.
fn change_of(alloc: Global, front: usize, tail: usize, table: usize) -> Result<Change, Memory> {
    let fib = part(alloc, front, 6)?;
    let tail = part(alloc, tail, 4)?;
    let table = part(alloc, table, 5)?;
    let name = Units::from_slice(alloc, table_name(1))?;
    Ok(Change::new(fib, tail, table, name))
}

/// The file after.
fn file_after(alloc: Global, old: &[u8], before: Before) -> Result<Bytes, LayoutFault> {
    let change = change_of(alloc, FRONT, before.2, before.3)?;
    let file = changed(alloc, old, &change);
    drop(change);
    file
}

/// A file with the change, where it may be put there.
fn changed(alloc: Global, old: &[u8], change: &Change) -> Result<Bytes, LayoutFault> {
    let loaded = Container::load(alloc, old);
    match &loaded {
        Ok(container) => put_there(alloc, container, old, change),
        Err(_) => Err(LayoutFault::Memory),
    }
}
/// The change in the file, where it may be put there.
fn put_there(
    alloc: Global,
    container: &Container,
    old: &[u8],
    change: &Change,
) -> Result<Bytes, LayoutFault>
    requires rules { Hold (container_rules old.now) }
    requires contents { HasContents old.now container.now }
{
    if can_be_appended(container, change) {
        appended(alloc, container, old, change)
    } else {
        Err(LayoutFault::Memory)
    }
}

/// Whether a sector at an offset holds the same in both files.
fn is_same(old: &[u8], new: &[u8], at: usize) -> bool {
    let end = at.saturating_add(512);
    match (old.get(at..end), new.get(at..end)) {
        (Some(old), Some(new)) => old == new,
        _ => false,
    }
}

/// The sectors of the old file that differ in the new one.
fn differing(alloc: Global, old: &[u8], new: &[u8]) -> Result<Vec<u32>, Memory> {
    let mut sectors = Vec::new(alloc);
    for number in 1..old.len() / 512 {
        if !is_same(old, new, number.saturating_mul(512)) {
            sectors.push((number - 1).min(100_000) as u32)?;
        }
    }
    Ok(sectors)
}

/// Whether a container has a stream with these bytes and these sectors.
fn has(container: &Container, name: &[u16], bytes: &[u8], sectors: &[u32]) -> bool {
    for i in 0..container.count() {
        if container.name(i) == name {
            return container.bytes(i) == bytes && has_chain(container, i, sectors);
        }
    }
    false
}

/// Whether a stream has these sectors.
fn has_chain(container: &Container, i: usize, sectors: &[u32]) -> bool {
    if i >= container.count() {
        return false;
    }
    match container.chain(i) {
        Some(chain) => chain == sectors,
        None => false,
    }
}

/// Appends the old bytes of `WordDocument` behind its front, and a tail.
fn grow(alloc: Global, bytes: &mut Vec<u8>, old: &Container, tail: usize) -> Result<(), Memory> {
    if let Some(main) = old.stream(word_document()) {
        if main.len() >= FRONT {
            bytes.extend_from_slice(&main[FRONT..])?;
        }
    }
    let more = content(alloc, tail, 4)?;
    bytes.extend_from_slice(&more)?;
    Ok(())
}

/// The bytes of `WordDocument` after: the new front, the old bytes behind it, and the tail.
fn grown(alloc: Global, old: &Container, tail: usize) -> Result<Vec<u8>, Memory> {
    let mut bytes = content(alloc, FRONT, 6)?;
    let done = grow(alloc, &mut bytes, old, tail);
    given(bytes, done)
}

/// Whether a container has the streams of the one before, the two that were put anew, and their sectors.
fn are_put(
    alloc: Global,
    old: &Container,
    new: &Container,
    row: &(Before, After),
) -> Result<bool, Memory> {
    let main = grown(alloc, old, row.0.2)?;
    let table = content(alloc, row.0.3, 5)?;
    Ok(
        old.count() == new.count()
            && has(new, word_document(), &main, row.1.1)
            && has(new, table_name(1), &table, row.1.2),
    )
}

/// Whether the file after is read so.
fn is_read(alloc: Global, old: &[u8], new: &[u8], row: &(Before, After)) -> Result<bool, Memory> {
    is_made(
        Container::load(alloc, old),
        |old: &Container| -> Result<bool, Memory> {
            is_made(
                Container::load(alloc, new),
                |new: &Container| -> Result<bool, Memory> { are_put(alloc, old, new, row) },
            )
        },
    )
}

/// Whether the file after has the sectors of the row, and differs in no others.
fn is_as(alloc: Global, old: &[u8], new: &[u8], row: &(Before, After)) -> Result<bool, Memory> {
    let sectors = differing(alloc, old, new)?;
    let differs = sectors.as_slice() == row.1.3;
    let count = new.len() / 512 == row.1.0.saturating_add(1);
    Ok(differs && count && is_read(alloc, old, new, row)?)
}

/// Whether the file that the change of the row makes is as the row says.
fn is_changed(alloc: Global, old: &[u8], row: &(Before, After)) -> Result<bool, LayoutFault> {
    let new = file_after(alloc, old, row.0)?;
    let same = is_as(alloc, old, new.as_slice(), row);
    drop(new);
    Ok(same?)
}

/// Whether the change of the row, put into its file before, makes what the row says.
fn is_put(alloc: Global, row: &(Before, After)) -> Result<bool, LayoutFault> {
    let old = file_before(alloc, row.0)?;
    let changed = is_changed(alloc, &old, row);
    drop(old);
    changed
}

/// Whether each change of the rows makes what its row says.
fn are_all_put(alloc: Global, rows: &[(Before, After)]) -> Result<bool, LayoutFault> {
    for row in rows {
        if !is_put(alloc, row)? {
            return Ok(false);
        }
    }
    Ok(true)
}

#[test]
fn saves_change_the_sectors_of_the_layout(rt: HostRuntime) -> Result<(), Fail> {
    assert!(rt; are_all_put(rt.alloc(), &ROWS)?);
    Ok(())
}

/// How many sectors the file after has, or would need.
fn sectors_after(alloc: Global, before: Before) -> Result<usize, LayoutFault> {
    let old = file_before(alloc, before)?;
    let file = file_after(alloc, &old, before);
    drop(old);
    Ok(file?.as_slice().len() / 512)
}

#[test]
fn a_sector_more_than_a_file_may_have_is_refused(rt: HostRuntime) -> Result<(), Fail> {
    // A sector of `WordDocument` needs one of the FAT too.
    let refused = Err(LayoutFault::TooLarge { sectors: 13_954 });
    assert!(rt; sectors_after(rt.alloc(), Before(LARGE, None, 512, 4_096)) == refused);
    Ok(())
}

/// Whether a change may be put into a file.
fn may_be_put(alloc: Global, old: &[u8], change: &Change) -> Result<bool, Memory> {
    is_made(
        Container::load(alloc, old),
        |container: &Container| -> Result<bool, Memory> { Ok(can_be_appended(container, change)) },
    )
}

/// Whether one with a front and a table stream of so many bytes may be put there.
fn may(alloc: Global, old: &[u8], front: usize, table: usize) -> Result<bool, Memory> {
    let change = change_of(alloc, front, 0, table)?;
    let allowed = may_be_put(alloc, old, &change);
    drop(change);
    allowed
}

/// Whether changes may be put into a file exactly where they have their lengths.
fn have_lengths(alloc: Global, old: &[u8]) -> Result<bool, Memory> {
    Ok(
        may(alloc, old, 4_096, 4_096)?
            && !may(alloc, old, 4_097, 4_096)?
            && !may(alloc, old, 0, 4_095)?,
    )
}

/// Whether changes may be put into a small file exactly where they have their lengths.
fn small_has_lengths(alloc: Global) -> Result<bool, LayoutFault> {
    let old = laid_out(alloc, SMALL)?;
    let right = have_lengths(alloc, old.as_slice());
    drop(old);
    Ok(right?)
}

#[test]
fn changes_have_their_lengths(rt: HostRuntime) -> Result<(), Fail> {
    assert!(rt; small_has_lengths(rt.alloc())?);
    Ok(())
}
