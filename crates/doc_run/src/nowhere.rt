// Where the reasons of a run go that nobody asks for.
ghost use Rattle.std.specs.Prelude.{◌<◌, ◌≤◌, length, None, IfOk};
ghost use Rattle.doc_outer.specs.Counts.{Rose, CountGoesOn};

use doc_outer::{Sink, SinkFailed};

/// A sink that takes all and keeps nothing.
#[derive(Drop)]
pub(crate) struct Nowhere;

impl Sink for Nowhere {
    ghost written = { λ _. None };

    ghost faults = { λ _. 0 };

    fn put(&mut self, bytes: &[u8]) -> Result<usize, SinkFailed> {
        Ok(bytes.len())
    }
}
