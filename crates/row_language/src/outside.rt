use crate::lent::given;
use crate::row_fault::RowFault;
use crate::words::Words;
use doc_outer::{MemShelf, MemSink};
use std::alloc::Global;

/// How many bytes the sink has room for where no line says it.
const ROOM: u32 = 65_536;

/// What the next run meets outside.
#[derive(Drop)]
pub(crate) struct Outside {
    shelf_calls: Vec<u32>,
    sink_calls: Vec<u32>,
    room: u32,
    stopped: bool,
}

impl Outside {
    /// No call fails, and the sink takes all.
    pub(crate) fn new(alloc: Global) -> Outside {
        Outside {
            shelf_calls: Vec::new(alloc),
            sink_calls: Vec::new(alloc),
            room: ROOM,
            stopped: false,
        }
    }

    /// Does what a line on the outside says. Calls are numbered from 1 on.
    pub(crate) fn act(&mut self, first: &str, words: &mut Words<'_, '_>) -> Result<(), RowFault> {
        match first {
            "room" => {
                self.room = words.small()?;
                Ok(())
            }
            "stopped" => {
                self.stopped = true;
                Ok(())
            }
            _ => self.fail(words),
        }
    }

    /// Lets a call of the next run fail.
    fn fail(&mut self, words: &mut Words<'_, '_>) -> Result<(), RowFault> {
        let what = words.word()?;
        match what {
            "shelf" => push_call(&mut self.shelf_calls, words),
            "sink" => push_call(&mut self.sink_calls, words),
            _ => Err(RowFault::NoCommand),
        }
    }

    /// How many calls of the store fail.
    pub(crate) fn calls(&self) -> usize {
        self.shelf_calls.len()
    }

    /// Lets the calls of a store fail.
    pub(crate) fn plan(&self, shelf: &mut MemShelf) -> Result<(), RowFault> {
        for call in &self.shelf_calls {
            shelf.fail_call(*call)?;
        }
        Ok(())
    }

    /// The sink that the next run is given.
    pub(crate) fn sink(&self, alloc: Global) -> Result<MemSink, RowFault> {
        let mut sink = MemSink::new(alloc, self.room)?;
        let planned = self.plan_sink(&mut sink);
        given(sink, planned)
    }

    /// Lets the calls of a sink fail.
    fn plan_sink(&self, sink: &mut MemSink) -> Result<(), RowFault> {
        for call in &self.sink_calls {
            sink.fail_call(*call)?;
        }
        if self.stopped {
            sink.take_nothing();
        }
        Ok(())
    }
}

/// Puts the number that the next word says behind those of calls.
fn push_call(calls: &mut Vec<u32>, words: &mut Words<'_, '_>) -> Result<(), RowFault> {
    let call = words.small()?;
    calls.push(call)?;
    Ok(())
}
