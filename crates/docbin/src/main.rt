//! `docbin`: the program over documents of Word 97.
#![tactic(auto)]

use doc_outer::{HostShelf, HostSink};
use doc_run::{STATUS_MEMORY, program};
use std::alloc::{AllocError, Global};
use std::env;
use std::io::{Eprint, ErrorKind};
use std::process::ExitCode;
use std::rt::Env;

/// The name that the lines on the standard error begin with.
const PROGRAM: &str = "docbin";

/// Runs the words over real files and the standard output.
fn main(rt: HostRuntime) -> ExitCode {
    let alloc = rt.alloc();
    let Ok(words) = words(&rt) else {
        return ExitCode::from(STATUS_MEMORY);
    };
    let mut shelf = HostShelf::new(alloc, PROGRAM, &rt, &rt);
    let mut out = HostSink::new(PROGRAM, &rt, &rt);
    let mut reasons = HostSink::new(PROGRAM, rt.stderr(), &rt);
    program(alloc, &words, &mut shelf, &mut out, &mut reasons)
}

/// The words after the program's name. Words that are no UTF-8 are no command, as no words are; that is written to the
/// standard error.
fn words<R: Env + Eprint + AllocGlobal>(rt: &R) -> Result<Vec<String>, AllocError> {
    let mut words = Vec::new(rt.alloc());
    match env::args(rt) {
        Ok(args) => {
            for word in args.skip(1) {
                words.push(word)?;
            }
        }
        Err(error) if error.kind() == ErrorKind::OutOfMemory => return Err(AllocError),
        Err(error) if error.kind() == ErrorKind::InvalidData => {
            let _ = eprintln!(rt; "{PROGRAM}: a word is no UTF-8 (give its bytes by /dev/stdin)");
        }
        Err(error) => {
            let _ = eprintln!(rt; "{PROGRAM}: the words: {error}");
        }
    }
    Ok(words)
}
