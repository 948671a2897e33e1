// A sink that keeps what it takes.
ghost use Rattle.std.specs.Prelude.{◌≡◌, ◌++◌, ◌<◌, ◌≤◌, [], length, take, Some, IfOk, OnErr};
ghost use Rattle.doc_outer.specs.Counts.{Rose, CountGoesOn};
ghost use Rattle.doc_outer.specs.Written.{Appends};

use doc_bits::{Bytes, Memory};
use doc_outer::{Sink, SinkFailed};
use std::alloc::Global;
use std::marker::Model;

/// A sink that takes all and keeps it. It fails where there is no memory.
#[derive(Drop)]
pub(crate) struct GrowingSink {
    bytes: Bytes,
    faults: u64,
}

impl Model for GrowingSink {
    ghost use Rattle.docbin_c.specs.Shown.{Grown};

    ghost Value = { Grown };

    ghost view = { λ s. record { written = s.bytes; faults = s.faults } };
}

impl GrowingSink {
    /// A sink that has taken nothing.
    pub(crate) fn new(alloc: Global) -> GrowingSink
        ensures { result ≡ record { written = []; faults = 0 } }
    {
        GrowingSink {
            bytes: Bytes::new(alloc),
            faults: 0,
        }
    }

    /// What it has taken, where it took all.
    pub(crate) fn whole(self) -> Result<Bytes, Memory>
        ensures { IfOk result (λ bytes. bytes ≡ self.written) }
    {
        if self.faults > 0 {
            return Err(Memory);
        }
        Ok(self.bytes)
    }
}

impl Sink for GrowingSink {
    ghost written = { λ s. Some s.written };

    ghost faults = { λ s. s.faults };

    fn put(&mut self, bytes: &[u8]) -> Result<usize, SinkFailed> {
        match self.bytes.push_all(bytes) {
            Ok(()) => Ok(bytes.len()),
            Err(Memory) => {
                self.faults = self.faults.saturating_add(1);
                Err(SinkFailed)
            }
        }
    }
}
