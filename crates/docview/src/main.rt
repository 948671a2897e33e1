//! `docview`: documents of Word 97 as people read them.
#![tactic(auto)]

use doc_outer::{HostShelf, HostSink};
use docview_run::{PROGRAM, program};
use run_stages::{STATUS_MEMORY, tell_status};
use std::alloc::{AllocError, Global};
use std::env;
use std::io::{Eprint, ErrorKind};
use std::process::ExitCode;
use std::rt::Env;

/// Runs the words over real files, the standard output and the standard error.
fn main(rt: HostRuntime) -> ExitCode {
    let alloc = rt.alloc();
    let errors = rt.stderr();
    let mut reasons = HostSink::new(PROGRAM, &errors, &rt);
    let Ok(words) = words(&rt) else {
        tell_status(&mut reasons, PROGRAM, STATUS_MEMORY);
        return ExitCode::from(STATUS_MEMORY);
    };
    let mut shelf = HostShelf::new(alloc, PROGRAM, &rt, &rt);
    let mut out = HostSink::new(PROGRAM, &rt, &rt);
    program(alloc, &words, &mut shelf, &mut out, &mut reasons)
}

/// The words after the program's name. Words that are no UTF-8 ask for nothing; that is written to the standard error.
fn words<R: Env + Eprint + AllocGlobal>(rt: &R) -> Result<Vec<String>, AllocError> {
    let mut words = Vec::new(rt.alloc());
    match env::args(rt) {
        Ok(args) => {
            for word in args.skip(1) {
                words.push(word)?;
            }
        }
        Err(error) if error.kind() == ErrorKind::OutOfMemory => return Err(AllocError),
        Err(error) => {
            let _ = eprintln!(rt; "docview: the words: {error}");
        }
    }
    Ok(words)
}
