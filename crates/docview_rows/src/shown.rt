// Runs of docview. Nothing is edited.
use doc_bits::Bytes;
use doc_outer::{MemShelf, MemSink, write_all};
use docview_run::docview_run;
use row_language::{Mode, REASONS_LEN, RowFault, Subject};
use run_stages::STATUS_MEMORY;
use std::alloc::Global;

/// No document.
#[derive(Clone, Copy)]
pub(crate) struct Shown;

impl Subject for Shown {
    /// What the standard error would take is behind what the standard output took.
    fn run(alloc: Global, words: &[String], shelf: &mut MemShelf, sink: &mut MemSink) -> u8 {
        let Ok(mut reasons) = MemSink::new(alloc, REASONS_LEN) else {
            return STATUS_MEMORY;
        };
        let status = docview_run(alloc, words, shelf, sink, &mut reasons);
        let _ = write_all(sink, reasons.written());
        drop(reasons);
        status
    }

    fn blank(_alloc: Global) -> Result<Bytes, RowFault> {
        Err(RowFault::NoScript)
    }

    fn open(_alloc: Global, _file: &[u8]) -> Result<Shown, RowFault> {
        Err(RowFault::NoScript)
    }

    fn make(&mut self, _count: u64, _object: &str) -> Result<String, RowFault> {
        Err(RowFault::NoScript)
    }

    fn save(&mut self, _mode: Mode) -> Result<String, RowFault> {
        Err(RowFault::NoScript)
    }

    fn file(&self) -> &[u8] {
        &[]
    }

    fn ledgers(&self) -> Result<String, RowFault> {
        Err(RowFault::NoScript)
    }

    fn listing(&self, _what: &str) -> Result<String, RowFault> {
        Err(RowFault::NoScript)
    }
}
