ghost use Rattle.std.specs.Prelude.{◌≡◌, ◌<◌, ◌≤◌, ℕ, List, length, take, Option, IfOk, OnOk, OnErr};
ghost use Rattle.doc_outer.specs.Counts.{Rose, CountGoesOn};
ghost use Rattle.doc_outer.specs.Written.{Appends, AppendsPrefix};

use thiserror::Error;

/// The sink took nothing more.
#[derive(Clone, Copy, Debug, PartialEq, Eq, Error)]
#[error("the sink failed")]
pub struct SinkFailed;

/// A sink of bytes.
pub trait Sink {
    /// The bytes that were taken, where the sink tells them.
    ghost written: { Self → Option (List ℕ) };

    /// How often a call failed or took nothing of a nonempty piece.
    ghost faults: { Self → ℕ };

    /// Takes the front of a piece, and answers how many bytes that is.
    fn put(&mut self, bytes: &[u8]) -> Result<usize, SinkFailed>
        ensures within { IfOk result (λ count. count ≤ length bytes.now) }
        ensures taken { IfOk result (λ count.
            Appends (written self.old) (written self.new) (take count bytes.now)) }
        ensures refused { OnErr result (written self.new ≡ written self.old) }

        // A refusal shows in the count, and so does a nonempty piece of which nothing is taken.
        ensures failed { OnErr result (Rose (faults self.old) (faults self.new)) }
        ensures nothing { IfOk result (λ count.
            count ≡ 0 → 0 < length bytes.now → Rose (faults self.old) (faults self.new)) }
        ensures faults { CountGoesOn (faults self.old) (faults self.new) };
}

/// Puts all the bytes, piece by piece. It takes no memory.
pub fn write_all<K: Sink>(sink: &mut K, bytes: &[u8]) -> Result<(), SinkFailed>
    ensures ok { OnOk result (Appends (K.written sink.old) (K.written sink.new) bytes.now) }
    ensures err { OnErr result (AppendsPrefix (K.written sink.old) (K.written sink.new) bytes.now) }
    ensures failed { OnErr result (Rose (K.faults sink.old) (K.faults sink.new)) }
    ensures faults { CountGoesOn (K.faults sink.old) (K.faults sink.new) }
{
    let mut taken = 0;
    while taken < bytes.len() {
        let count = sink.put(&bytes[taken..])?;
        if count == 0 {
            return Err(SinkFailed);
        }
        taken += count;
    }
    Ok(())
}
