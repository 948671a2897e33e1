// A block before a sink: when it is sent, at one byte less than its room, its room and one more.
use doc_bits::Memory;
use doc_outer::{MemSink, OutBlock};
use std::alloc::Global;
use std::test::Fail;

/// How many bytes a sink has taken after a first push, after two more of one byte each, and after what waits is sent.
#[derive(Clone, Copy)]
struct Taken {
    pushed: usize,
    first: usize,
    second: usize,
    third: usize,
    sent: usize,
}

/// By hand: a block has room for 65,536 bytes, and is sent before bytes that do not fit beside those in it.
const ROWS: [Taken; 3] = [
    Taken {
        pushed: 65_535,
        first: 0,
        second: 0,
        third: 65_536,
        sent: 65_537,
    },
    Taken {
        pushed: 65_536,
        first: 0,
        second: 65_536,
        third: 65_536,
        sent: 65_538,
    },
    Taken {
        pushed: 65_537,
        first: 65_537,
        second: 65_537,
        third: 65_537,
        sent: 65_539,
    },
];

/// Whether a push succeeds, and the sink has taken so many bytes after it.
fn takes(block: &mut OutBlock, sink: &mut MemSink, bytes: &[u8], count: usize) -> bool {
    block.push(sink, bytes).is_ok() && sink.written().len() == count
}

/// Whether a row is as it says.
fn is_so(alloc: Global, row: Taken) -> Result<bool, Memory> {
    let bytes = vec![in alloc; b'7'; row.pushed]?;
    let mut sink = MemSink::new(alloc, 100_000)?;
    let mut block = OutBlock::new(alloc)?;
    let pushed = takes(&mut block, &mut sink, &bytes, row.first)
        && takes(&mut block, &mut sink, b"8", row.second)
        && takes(&mut block, &mut sink, b"9", row.third);
    let sent = block.flush(&mut sink).is_ok() && sink.written().len() == row.sent;
    Ok(pushed && sent && sink.written().ends_with(b"789"))
}

#[test]
fn a_block_is_sent_where_there_is_no_room(rt: HostRuntime) -> Result<(), Fail> {
    for row in ROWS {
        assert!(rt; is_so(rt.alloc(), row)?, "{} bytes", row.pushed);
    }
    Ok(())
}

/// Whether a sink that takes nothing is told of, by a push that sends and by a flush.
fn is_told(alloc: Global) -> Result<bool, Memory> {
    let mut sink = MemSink::new(alloc, 100)?;
    sink.take_nothing();
    let mut block = OutBlock::new(alloc)?;
    let waits = block.push(&mut sink, b"some bytes").is_ok();
    Ok(waits && block.flush(&mut sink).is_err() && block.flush(&mut sink).is_err())
}

#[test]
fn a_fault_of_the_sink_is_told(rt: HostRuntime) -> Result<(), Fail> {
    assert!(rt; is_told(rt.alloc())?);
    Ok(())
}
