// The adapters over real files, pipes and standard output. Each shelf is owned where its files are a type parameter:
// where they are those of the system, each call of it is dear to prove.
use doc_outer::{HostShelf, HostSink, Shelf, ShelfFault, Sink, read_whole, write_all};
use std::alloc::Global;
use std::io::{Eprint, Write};
use std::os::fd::AsRawFd;
use std::rt::Files;
use std::test::Fail;
use std::{fs, io};

const PATH: &str = "layer_rows_file";

/// Whether a read from a name answers these four bytes.
pub(crate) fn reads<S: Shelf>(shelf: &mut S, name: &str, at: u64, bytes: &[u8; 4]) -> bool {
    let mut buf = [0u8; 4];
    shelf.read_at(name, at, &mut buf) == Ok(4) && buf == *bytes
}

/// Whether a read from the front of a name has this fault.
fn fails<S: Shelf>(shelf: &mut S, name: &str, fault: ShelfFault) -> bool {
    let mut buf = [0u8; 4];
    shelf.read_at(name, 0, &mut buf) == Err(fault)
}

/// Whether a name holds these bytes.
fn holds<S: Shelf>(alloc: Global, shelf: &mut S, name: &str, bytes: &[u8]) -> bool {
    match &read_whole(alloc, shelf, name) {
        Ok(whole) => whole.as_slice() == bytes,
        Err(_) => false,
    }
}

/// Whether the file is read whole and at two places, and then is missed.
fn is_read<F: Files + Copy + Drop, E: Eprint + Drop>(
    alloc: Global,
    files: F,
    reasons: E,
) -> io::Result<bool> {
    let mut shelf = HostShelf::new(alloc, "layer_rows", files, reasons);
    let whole = holds(alloc, &mut shelf, PATH, b"some bytes");
    let read = reads(&mut shelf, PATH, 6, b"ytes") && reads(&mut shelf, PATH, 2, b"me b");
    let removed = fs::remove_file(&files, PATH);
    let missed = fails(&mut shelf, PATH, ShelfFault::Missing);
    let failed = fails(&mut shelf, ".", ShelfFault::Failed);
    drop(shelf);
    removed?;
    Ok(whole && read && missed && failed)
}

#[test]
fn real_files_are_read_at_any_place(rt: HostRuntime) -> Result<(), Fail> {
    fs::write(&rt, PATH, b"some bytes".as_slice())?;
    assert!(rt; is_read(rt.alloc(), &rt, &rt)?);
    Ok(())
}

/// Whether a file holds these bytes whose descriptor has this number.
fn is_through<F: Files + Drop, E: Eprint + Drop>(
    alloc: Global,
    files: F,
    reasons: E,
    number: i32,
    bytes: &[u8],
) -> bool {
    let mut shelf = HostShelf::new(alloc, "layer_rows", files, reasons);
    match &format!(in alloc; "/dev/fd/{number}") {
        Ok(name) => holds(alloc, &mut shelf, name.as_str(), bytes),
        Err(_) => false,
    }
}

#[test]
fn a_pipe_is_read_in_order(rt: HostRuntime) -> Result<(), Fail> {
    let (reader, mut writer) = io::pipe(&rt)?;
    writer.write_all(b"through a pipe")?;
    drop(writer);
    let number = reader.as_raw_fd();
    assert!(rt; is_through(rt.alloc(), &rt, &rt, number, b"through a pipe"));
    Ok(())
}

/// Whether a sink takes a line, and nothing of nothing.
fn takes<K: Sink>(sink: &mut K) -> bool {
    write_all(sink, b"written by a test\n").is_ok() && sink.put(b"") == Ok(0)
}

#[test]
fn standard_output_is_a_sink(rt: HostRuntime) -> Result<(), Fail> {
    let mut sink = HostSink::new("layer_rows", &rt, &rt);
    assert!(rt; takes(&mut sink));
    Ok(())
}
