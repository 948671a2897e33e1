// A block of bytes on their way to a sink, so that many small pieces are few calls of it.
ghost use Rattle.std.specs.Prelude.{◌≡◌, ◌+◌, ◌++◌, ◌≤◌, [], length, IfOk, OnOk, OnErr};
ghost use Rattle.doc_outer.specs.Counts.{Rose, CountGoesOn};
ghost use Rattle.doc_outer.specs.Written.{Appends, AppendsPrefix, Sends};

use crate::{Sink, SinkFailed, write_all};
use doc_bits::Memory;
use std::alloc::Global;
use std::marker::Model;

/// How many bytes a block has room for.
const BLOCK_LEN: usize = 65_536;

/// Bytes that wait for a sink: at most 64 KB of them. All its memory is taken when it is made.
#[derive(Drop)]
pub struct OutBlock {
    bytes: Vec<u8>,
}

impl Model for OutBlock {
    ghost use Rattle.std.specs.Prelude.{ℕ, List, ◌≤◌, vec_capacity};

    ghost Value = { List ℕ };

    ghost view = { λ b. b.bytes.items };

    ghost invariant = { λ b. 65536 ≤ vec_capacity b.bytes };
}

impl OutBlock {
    /// A block in which nothing waits.
    pub fn new(alloc: Global) -> Result<OutBlock, Memory>
        ensures { IfOk result (λ block. block ≡ []) }
    {
        let bytes = Vec::with_capacity(alloc, BLOCK_LEN)?;
        Ok(OutBlock { bytes })
    }

    /// Puts bytes behind those that wait. Where there is no room for them the sink takes what waits first. It takes
    /// no memory.
    pub fn push<K: Sink>(&mut self, out: &mut K, bytes: &[u8]) -> Result<(), SinkFailed>
        ensures ok { OnOk result (Sends (K.written out.old) (K.written out.new) self.old bytes.now self.new) }
        ensures err { OnErr result (AppendsPrefix (K.written out.old) (K.written out.new) (self.old ++ bytes.now)) }
        ensures failed { OnErr result (Rose (K.faults out.old) (K.faults out.new)) }
        ensures faults { CountGoesOn (K.faults out.old) (K.faults out.new) }
    {
        if self.bytes.len() + bytes.len() > BLOCK_LEN {
            return self.push_past(out, bytes);
        }
        self.append(bytes);
        Ok(())
    }

    /// Puts bytes behind those that wait, where the block has no room for them.
    fn push_past<K: Sink>(&mut self, out: &mut K, bytes: &[u8]) -> Result<(), SinkFailed>
        ensures ok { OnOk result (Sends (K.written out.old) (K.written out.new) self.old bytes.now self.new) }
        ensures err { OnErr result (AppendsPrefix (K.written out.old) (K.written out.new) (self.old ++ bytes.now)) }
        ensures failed { OnErr result (Rose (K.faults out.old) (K.faults out.new)) }
        ensures faults { CountGoesOn (K.faults out.old) (K.faults out.new) }
    {
        self.flush(out)?;
        if bytes.len() > BLOCK_LEN {
            write_all(out, bytes)?;
        } else {
            self.append(bytes);
        }
        Ok(())
    }

    /// Lets the sink take all that waits. It takes no memory.
    pub fn flush<K: Sink>(&mut self, out: &mut K) -> Result<(), SinkFailed>
        ensures ok { OnOk result (Appends (K.written out.old) (K.written out.new) self.old) }
        ensures empty { OnOk result (self.new ≡ []) }
        ensures err { OnErr result (AppendsPrefix (K.written out.old) (K.written out.new) self.old) }
        ensures failed { OnErr result (Rose (K.faults out.old) (K.faults out.new)) }
        ensures faults { CountGoesOn (K.faults out.old) (K.faults out.new) }
    {
        write_all(out, &self.bytes)?;
        self.bytes.clear();
        Ok(())
    }

    /// Appends bytes for which there is room.
    fn append(&mut self, bytes: &[u8])
        requires { length self.old + length bytes.now ≤ 65536 }
        ensures { self.new ≡ self.old ++ bytes.now }
    {
        self.bytes.extend_from_slice(bytes).unwrap();
    }
}
