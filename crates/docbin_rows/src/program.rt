// The program that rows run.
use doc_outer::{Shelf, Sink};
use doc_run::docbin_run;
use std::alloc::Global;

/// Runs the program without guards.
pub(crate) fn status_of<S: Shelf, K: Sink>(
    alloc: Global,
    words: &[String],
    shelf: &mut S,
    sink: &mut K,
) -> u8 {
    docbin_run(alloc, words, shelf, sink, Vec::new(alloc))
}
