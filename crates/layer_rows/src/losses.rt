// What is left out of a file of another program, by the names and the numbers that [MS-DOC] gives.
use crate::containers::{add_content, container_of, with_bytes};
use crate::lent::{given, is_made};
use crate::versions::{EARLY, Numbers, stream_of};
use cfb_layout::LayoutFault;
use cfb_streams::{Container, OuterContainer, Streams, WORD_DOCUMENT, table_name};
use doc_bits::{Memory, Text, put16, put32};
use fib_form::CCP_ATN;
use fib_versions::{AnyFib, PN_NEXT};
use loss_report::report;
use std::alloc::Global;
use std::test::Fail;

/// Word 2000, with a comment of two units behind a main text of one.
const NUMBERS: Numbers = Numbers {
    len: 1_024,
    pairs: 108,
    csw_new: 2,
    ..EARLY
};

/// The parts Clx, which is read, and DggInfo and PlcfTch, which are not; the lengths of each.
const PARTS: [(usize, u32); 3] = [(33, 5), (50, 9), (93, 7)];

const LINES: &str =
    "stream 0Table\nstorage Mac\npart 50 DggInfo 9\npart 93 PlcfTch 7\nstory comments 2 | bc\nautotext page 3\n";

/// Adds a stream that is to become a storage, both table streams, and `WordDocument`, in the order of their names.
fn add_all(alloc: Global, streams: &mut Streams) -> Result<(), Memory> {
    add_content(alloc, streams, &[0x4D, 0x61, 0x63], 40, 3)?;
    add_content(alloc, streams, table_name(0), 20, 1)?;
    add_content(alloc, streams, table_name(1), 30, 2)?;
    add_content(alloc, streams, &WORD_DOCUMENT, 10, 0)
}

/// A file of these streams, the first of which says that it is a storage with a child.
fn file_with_storage(alloc: Global) -> Result<Vec<u8>, LayoutFault> {
    let mut streams = Streams::new(alloc);
    let done = add_all(alloc, &mut streams);
    let streams = given(streams, done)?;
    let file = container_of(alloc, &streams);
    drop(streams);
    // The directory begins with the third sector, and its entry 1 has its type at 66 and its child at 76.
    let changed = with_bytes(alloc, file?.as_slice(), &[(1_730, 1), (1_740, 0)])?;
    Ok(changed)
}

/// Puts the numbers of what is left out.
fn put_losses(wd: &mut [u8]) {
    if wd.len() != 1_024 {
        return;
    }
    put16(wd, PN_NEXT, 3);
    put32(wd, CCP_ATN, 2);
    for (pair, len) in PARTS {
        put32(wd, 154 + 8 * pair + 4, len);
    }
}

/// Whether these are the lines of a report.
fn has_lines(alloc: Global, outer: &OuterContainer, fib: &AnyFib<'_>) -> Result<bool, Memory> {
    let lines = report(alloc, outer, fib, &[0x61, 0x62, 0x63])?;
    let mut text = Text::new(alloc);
    lines.put_behind(&mut text)?;
    Ok(lines.len() == 6 && text.as_str() == LINES)
}

/// Whether these are the lines of a file with this FIB.
fn is_reported(alloc: Global, file: &[u8], wd: &[u8]) -> Result<bool, Memory> {
    is_made(Container::load_outer(alloc, file), |outer| {
        match AnyFib::read(wd) {
            Ok(fib) => has_lines(alloc, outer, &fib),
            Err(_) => Ok(false),
        }
    })
}

#[test]
fn what_is_left_out_is_named(rt: HostRuntime) -> Result<(), Fail> {
    let alloc = rt.alloc();
    let mut wd = stream_of(alloc, NUMBERS)?;
    put_losses(&mut wd);
    let file = file_with_storage(alloc)?;
    assert!(rt; is_reported(alloc, &file, &wd)?);
    Ok(())
}
