// What rows edit, and the program that they run.
use crate::row_fault::RowFault;
use doc_bits::Bytes;
use doc_outer::{MemShelf, MemSink};
use std::alloc::Global;

/// How a document is saved.
#[derive(Clone, Copy)]
pub enum Mode {
    Fast,
    Full,
}

/// A document and what is edited beside it, and the program. Rows know nothing else of them.
pub trait Subject {
    /// Runs the program over files, and answers the status.
    fn run(alloc: Global, words: &[String], shelf: &mut MemShelf, sink: &mut MemSink) -> u8;

    /// The file of the blank document.
    fn blank(alloc: Global) -> Result<Bytes, RowFault>;

    /// Begins on the document of a file.
    fn open(alloc: Global, file: &[u8]) -> Result<Self, RowFault>;

    /// Makes the command of an object so many times, and answers the line on what came of the last time.
    fn make(&mut self, count: u64, object: &str) -> Result<String, RowFault>;

    /// Saves, and answers what came of it.
    fn save(&mut self, mode: Mode) -> Result<String, RowFault>;

    /// The file that was saved last, or the first one.
    fn file(&self) -> &[u8];

    /// The line on the ledgers.
    fn ledgers(&self) -> Result<String, RowFault>;

    /// The lines of the listing on `styles`, or those on `texts`.
    fn listing(&self, what: &str) -> Result<String, RowFault>;
}
