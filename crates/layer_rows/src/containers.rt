// The canonical container: streams laid out as one file, and read again. The lengths and the sums are those of an
// independently written model of the layout.
use crate::lent::given;
use cfb_layout::{LayoutFault, sectors_needed, whole};
use cfb_streams::{CfbFault, Container, OuterContainer, Streams};
use doc_bits::{Bytes, Memory};
use std::alloc::Global;
use std::test::Fail;

/// The CLSID of each container.
const CLSID: [u8; 16] = [0, 1, 2, 3, 4, 5, 6, 7, 8, 9, 10, 11, 12, 13, 14, 15];

/// Bytes that differ from stream to stream.
pub(crate) fn content(alloc: Global, len: usize, stream: usize) -> Result<Vec<u8>, Memory> {
    let mut bytes = Vec::new(alloc);
    let mut value = (stream % 251 * 13 % 251) as u8;
    for _ in 0..len {
        bytes.push(value)?;
        value = ((value as u16 + 7) % 251) as u8;
    }
    Ok(bytes)
}

/// Adds a stream where it may be added.
fn add(streams: &mut Streams, name: &[u16], bytes: &[u8]) -> Result<(), Memory> {
    if streams.can_add(name, bytes) {
        streams.add(name, bytes)?;
    }
    Ok(())
}

/// Adds a stream of so many bytes.
pub(crate) fn add_content(
    alloc: Global,
    streams: &mut Streams,
    name: &[u16],
    len: usize,
    stream: usize,
) -> Result<(), Memory> {
    let bytes = content(alloc, len, stream)?;
    add(streams, name, &bytes)
}

/// Adds streams of these lengths, each named by one unit.
fn add_each(alloc: Global, streams: &mut Streams, lengths: &[u64]) -> Result<(), Memory> {
    let mut name = 0x100u16;
    for (k, len) in lengths.iter().enumerate() {
        add_content(alloc, streams, &[name], *len as usize, k)?;
        name = name.wrapping_add(1);
    }
    Ok(())
}

/// Streams of these lengths, each named by one unit.
fn streams_of(alloc: Global, lengths: &[u64]) -> Result<Streams, Memory> {
    let mut streams = Streams::new(alloc);
    let done = add_each(alloc, &mut streams, lengths);
    given(streams, done)
}

/// The container of streams that are few enough.
pub(crate) fn container_of(alloc: Global, streams: &Streams) -> Result<Bytes, LayoutFault> {
    if streams.count() > 1_023 {
        return Err(LayoutFault::Memory);
    }
    whole(alloc, streams, CLSID)
}

/// The sum by which two copies of a file are distinguished (Adler-32).
fn sum_of(bytes: &[u8]) -> u32 {
    let mut low = 1u32;
    let mut high = 0u32;
    for byte in bytes {
        low = (low % 65_521 + u32::from(*byte)) % 65_521;
        high = (high % 65_521 + low) % 65_521;
    }
    (high % 65_521) * 65_536 + low % 65_521
}

/// Whether a container has the class of the writer.
fn has_class(container: &Container) -> bool {
    container.clsid() == CLSID
}

/// Whether the stream of a number has the same name and the same bytes in both.
fn has_stream(container: &Container, streams: &Streams, i: usize) -> bool {
    i < container.count()
        && i < streams.count()
        && container.name(i) == streams.name(i)
        && container.bytes(i) == streams.bytes(i)
}

/// Whether a container holds these streams, and the class of the writer.
fn has_streams(container: &Container, streams: &Streams) -> bool {
    for i in 0..container.count() {
        if !has_stream(container, streams, i) {
            return false;
        }
    }
    container.count() == streams.count() && has_class(container)
}

/// Whether the streams of a file are those that were laid out, and its CLSID too.
fn reads_as(alloc: Global, file: &[u8], streams: &Streams) -> bool {
    match Container::load(alloc, file) {
        Ok(container) => has_streams(&container, streams),
        Err(_) => false,
    }
}

/// The lengths of streams; the sectors after the header, and the sum of the file.
#[derive(Clone, Copy)]
struct Row(&'static [u64], usize, u32);

const ROWS: [Row; 7] = [
    Row(&[], 2, 3_008_230_370),
    Row(&[4_096], 10, 2_952_962_330),
    Row(&[0, 63, 64, 4_095, 4_096, 4_097], 30, 1_382_244_718),
    // 127 sectors before the FAT take one FAT sector, 128 take two.
    Row(&[64_512], 128, 3_597_873_048),
    Row(&[65_024], 130, 1_554_652_806),
    Row(
        &[5_000, 0, 1, 700, 66_000, 4_096, 300, 12_345, 4_095, 64],
        189,
        4_037_351_915,
    ),
    Row(&[10, 20, 30, 40, 50, 60, 70], 5, 1_973_909_866),
];

/// Whether streams of the lengths of a row are laid out in its sectors, with its sum, and read again.
fn is_laid_out(alloc: Global, row: &Row) -> Result<bool, LayoutFault> {
    let streams = streams_of(alloc, row.0)?;
    let file = container_of(alloc, &streams)?;
    let bytes = file.as_slice();
    let sectors = bytes.len() / 512;
    Ok(
        sectors == row.1.saturating_add(1)
            && sum_of(bytes) == row.2
            && reads_as(alloc, bytes, &streams),
    )
}

/// Whether the container of each row is laid out as the row says.
fn are_laid_out(alloc: Global, rows: &[Row]) -> Result<bool, LayoutFault> {
    for row in rows {
        if !is_laid_out(alloc, row)? {
            return Ok(false);
        }
    }
    Ok(true)
}

#[test]
fn containers_are_those_of_the_model(rt: HostRuntime) -> Result<(), Fail> {
    assert!(rt; are_laid_out(rt.alloc(), &ROWS)?);
    for row in ROWS {
        assert!(rt; sectors_needed(row.0) == row.1 as u64, "{}", row.1);
    }
    Ok(())
}

/// A container of one stream of so many bytes: its length, or the sectors that it would need.
fn length_of(alloc: Global, len: u64) -> Result<usize, LayoutFault> {
    let streams = streams_of(alloc, &[len])?;
    let file = container_of(alloc, &streams);
    drop(streams);
    Ok(file?.as_slice().len())
}

#[test]
fn the_largest_container_fits_and_the_next_does_not(rt: HostRuntime) -> Result<(), Fail> {
    let alloc = rt.alloc();
    assert!(rt; length_of(alloc, 7_087_104) == Ok(7_143_936));
    let refused = Err(LayoutFault::TooLarge { sectors: 13_954 });
    assert!(rt; length_of(alloc, 7_087_105) == refused);
    // A stream that no 32-bit size can tell.
    assert!(rt; sectors_needed(&[1 << 40]) == 2_164_392_970);
    Ok(())
}

/// A file with other bytes at these places.
pub(crate) fn with_bytes(
    alloc: Global,
    file: &[u8],
    changes: &[(usize, u8)],
) -> Result<Vec<u8>, Memory> {
    let mut bytes = Vec::from_slice(alloc, file)?;
    for (at, value) in changes {
        if let Some(byte) = bytes.get_mut(*at) {
            *byte = *value;
        }
    }
    Ok(bytes)
}

/// A container of two streams, the second of which says that it is a storage with a child.
fn with_storage(alloc: Global) -> Result<Vec<u8>, LayoutFault> {
    let streams = streams_of(alloc, &[10, 20])?;
    let file = container_of(alloc, &streams)?;
    // The directory is the third sector, and its entry 2 has its type at 66 and its child at 76.
    let changed = with_bytes(alloc, file.as_slice(), &[(1_858, 1), (1_868, 0)])?;
    Ok(changed)
}

/// Whether a file is refused for the child of its storage.
fn is_refused(alloc: Global, file: &[u8]) -> bool {
    match Container::load(alloc, file) {
        Ok(_) => false,
        Err(CfbFault::Rule { rule, offset }) => rule == 10 && offset == 1_868,
        Err(CfbFault::Memory) => false,
    }
}

/// Whether there is the first stream, and a storage of the second one's name.
fn has_storage(outer: &OuterContainer) -> bool {
    let container = outer.container();
    container.count() == 1
        && container.bytes(0).len() == 10
        && outer.storage_count() == 1
        && outer.storage(0) == [0x101].as_slice()
}

/// Whether a file is read with that storage left out.
fn is_read_without(alloc: Global, file: &[u8]) -> bool {
    match Container::load_outer(alloc, file) {
        Ok(outer) => has_storage(&outer),
        Err(_) => false,
    }
}

#[test]
fn a_storage_that_has_something_is_named(rt: HostRuntime) -> Result<(), Fail> {
    let alloc = rt.alloc();
    let file = with_storage(alloc)?;
    assert!(rt; is_refused(alloc, &file));
    assert!(rt; is_read_without(alloc, &file));
    Ok(())
}
