// Standard output. What it has taken is known by nobody: this is the trusted edge.
ghost use Rattle.std.specs.Prelude.{◌≡◌, ◌<◌, ◌≤◌, ℕ, length, None, IfOk, OnErr};
ghost use Rattle.doc_outer.specs.Counts.{raised, Rose, CountGoesOn};
ghost use Rattle.doc_outer.specs.ByteSink.{faults_taking};

use crate::{Sink, SinkFailed};
use std::io;
use std::io::{Eprint, ErrorKind};
use std::marker::Model;

/// How often a write that a signal cut short is tried.
const TRIES: usize = 64;

/// Standard output. A closed pipe and a full disk are failed calls. Why a call failed is written to the standard error,
/// but for a closed pipe: whoever closed it wanted no more.
#[derive(Drop)]
pub struct HostSink<P: Print + Drop, E: Eprint + Drop> {
    program: &'static str,
    output: P,
    reasons: E,
    faults: u64,
}

impl<P: Print + Drop, E: Eprint + Drop> Model for HostSink<P, E> {
    ghost use Rattle.std.specs.Prelude.{ℕ};

    ghost Value = { ℕ };

    ghost view = { λ s. s.faults };
}

impl<P: Print + Drop, E: Eprint + Drop> HostSink<P, E> {
    /// The standard output of a runtime, and whose standard error is told why a call failed, in lines that begin with
    /// the program's name.
    pub fn new(program: &'static str, output: P, reasons: E) -> HostSink<P, E>
        ensures { result ≡ 0 }
    {
        HostSink {
            program,
            output,
            reasons,
            faults: 0,
        }
    }
}

/// Tells why standard output takes no more, as far as the standard error takes it.
fn tell<E: Eprint>(reasons: &E, program: &str, error: &io::Error) {
    if error.kind() != ErrorKind::BrokenPipe {
        let _ = reasons.eprintln(format_args!("{program}: standard output: {error}"));
    }
}

/// One write. Where a signal cut it short it is tried again.
fn write_some<P: Print>(output: &P, bytes: &[u8]) -> io::Result<usize>
    ensures { IfOk result (λ count. count ≤ length bytes.now) }
{
    for _ in 0..TRIES {
        match output.write_some(bytes) {
            Err(error) if error.kind() == ErrorKind::Interrupted => {}
            answer => return answer,
        }
    }
    Err(ErrorKind::Interrupted.into())
}

impl<P: Print + Drop, E: Eprint + Drop> Sink for HostSink<P, E> {
    ghost written = { λ _. None };

    ghost faults = { λ s. s };

    fn put(&mut self, bytes: &[u8]) -> Result<usize, SinkFailed>
        // As every sink, but nothing is known.
        ensures within { IfOk result (λ count. count ≤ length bytes.now) }
        ensures failed { OnErr result (Rose self.old self.new) }
        ensures nothing { IfOk result (λ count.
            count ≡ 0 → 0 < length bytes.now → Rose self.old self.new) }
        ensures faults { CountGoesOn self.old self.new }

        // Exactly.
        ensures raised { OnErr result (self.new ≡ raised self.old) }
        ensures counted { IfOk result (λ count.
            self.new ≡ faults_taking count (length bytes.now) self.old) }
    {
        let count = match write_some(&self.output, bytes) {
            Ok(count) => count,
            Err(error) => {
                self.faults = self.faults.saturating_add(1);
                tell(&self.reasons, self.program, &error);
                return Err(SinkFailed);
            }
        };
        if count == 0 && !bytes.is_empty() {
            self.faults = self.faults.saturating_add(1);
        }
        Ok(count)
    }
}
