// A byte sink in memory, in place of standard output.
ghost use Rattle.std.specs.Prelude.{◌≡◌, ◌+◌, ◌++◌, ◌<◌, ◌≤◌, length, take, true, Some, Ok, IfOk, OnOk, OnErr, IsErr};
ghost use Rattle.std.specs.Prelude.{MatchResult, vec_len, vec_capacity};
ghost use Rattle.doc_outer.specs.ByteSink.{empty_sink, taken_count, sink_after, sink_failed};
ghost use Rattle.doc_outer.specs.Counts.{Rose, CountGoesOn};
ghost use Rattle.doc_outer.specs.Plan.{fails_at, FailsNext};
ghost use Rattle.doc_outer.specs.Written.{Appends};

use crate::plan::CallPlan;
use crate::{Sink, SinkFailed};
use doc_bits::Memory;
use std::alloc::Global;
use std::marker::Model;

/// A byte sink in memory. It tells what was written, and fails at the calls whose numbers it was
/// given.
#[derive(Drop)]
pub struct MemSink {
    bytes: Vec<u8>,
    room: usize,
    plan: CallPlan,
    stopped: bool,
    faults: u64,
}

impl Model for MemSink {
    ghost use Rattle.std.specs.Prelude.{◌+◌, ◌≤◌, length, vec_capacity};
    ghost use Rattle.doc_outer.specs.ByteSink.{ByteSink};

    ghost Value = { ByteSink };

    ghost view = { λ s. record {
      written = s.bytes.items;
      room = s.room;
      plan = s.plan;
      stopped = s.stopped;
      faults = s.faults;
      capacity = vec_capacity s.bytes;
    } };

    ghost invariant = { λ s. length s.bytes.items + s.room ≤ vec_capacity s.bytes };
}

impl MemSink {
    /// A sink with room for so many bytes. The memory for all of them is taken at once.
    pub fn new(alloc: Global, room: u32) -> Result<MemSink, Memory>
        ensures { IfOk result (λ sink. sink ≡ empty_sink room sink.capacity) }
    {
        let room = room as usize;
        let bytes = Vec::with_capacity(alloc, room)?;
        Ok(MemSink {
            bytes,
            room,
            plan: CallPlan::new(alloc),
            stopped: false,
            faults: 0,
        })
    }

    /// Lets the call of `put` of this number fail. Calls are numbered from 1 on.
    pub fn fail_call(&mut self, number: u32) -> Result<(), Memory>
        ensures ok { OnOk result
            (self.new ≡ record self.old { plan = fails_at self.old.plan number }) }
        ensures err { OnErr result (self.new ≡ self.old) }
    {
        self.plan.fail_call(number)
    }

    /// From now on nothing is taken.
    pub fn take_nothing(&mut self)
        ensures { self.new ≡ record self.old { stopped = true } }
    {
        self.stopped = true;
    }

    /// The bytes that were taken so far.
    pub fn written(&self) -> &[u8]
        ensures { result.now ≡ self.now.written }
    {
        &self.bytes
    }
}

/// Appends bytes where there is room for all of them. It takes no memory.
fn append(to: &mut Vec<u8>, bytes: &[u8])
    requires room { vec_len to.old + length bytes.now ≤ vec_capacity to.old }
    ensures items { to.new.items ≡ to.old.items ++ bytes.now }
    ensures kept { vec_capacity to.new ≡ vec_capacity to.old }
{
    for byte in bytes {
        let end = to.len();
        // Where there is room, an insertion leaves the block of memory as it is.
        to.insert(end, *byte).unwrap();
    }
}

impl Sink for MemSink {
    ghost written = { λ s. Some s.written };

    ghost faults = { λ s. s.faults };

    /// Takes no memory.
    fn put(&mut self, bytes: &[u8]) -> Result<usize, SinkFailed>
        // As every sink.
        ensures within { IfOk result (λ count. count ≤ length bytes.now) }
        ensures taken { IfOk result (λ count.
            Appends (Some self.old.written) (Some self.new.written) (take count bytes.now)) }
        ensures refused { OnErr result (Some self.new.written ≡ Some self.old.written) }
        ensures failed { OnErr result (Rose self.old.faults self.new.faults) }
        ensures nothing { IfOk result (λ count.
            count ≡ 0 → 0 < length bytes.now → Rose self.old.faults self.new.faults) }
        ensures faults { CountGoesOn self.old.faults self.new.faults }

        // Exactly: the number is looked at first.
        ensures failing { FailsNext self.old.plan → IsErr result }
        ensures answer { ¬ (FailsNext self.old.plan)
            → result ≡ Ok (taken_count self.old (length bytes.now)) }
        ensures after { MatchResult result
            (λ count. self.new ≡ sink_after self.old bytes.now count)
            (λ _. self.new ≡ sink_failed self.old) }
    {
        if self.plan.next_fails() {
            self.faults = self.faults.saturating_add(1);
            return Err(SinkFailed);
        }
        let count = if self.stopped {
            0
        } else {
            bytes.len().min(self.room)
        };
        if count == 0 && !bytes.is_empty() {
            self.faults = self.faults.saturating_add(1);
        }
        append(&mut self.bytes, &bytes[..count]);
        self.room -= count;
        Ok(count)
    }
}
