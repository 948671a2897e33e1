// Runs of the program.
use crate::files::Files;
use crate::lent::{copy_of, given, push_parts, silent};
use crate::outside::Outside;
use crate::row_fault::RowFault;
use crate::subject::Subject;
use crate::words::Words;
use doc_outer::MemShelf;
use std::alloc::Global;

/// The files of a row, what the next run meets outside, and what the last one printed.
#[derive(Drop)]
pub(crate) struct Runs {
    alloc: Global,
    pub(crate) files: Files,
    outside: Outside,
    printed: Vec<u8>,
}

impl Runs {
    /// No file, and no run.
    pub(crate) fn new(alloc: Global) -> Runs {
        Runs {
            alloc,
            files: Files::new(alloc),
            outside: Outside::new(alloc),
            printed: Vec::new(alloc),
        }
    }

    /// Does what a line on files and runs says, and answers what is to be printed.
    pub(crate) fn act<S: Subject>(
        &mut self,
        first: &str,
        words: &mut Words<'_, '_>,
    ) -> Result<String, RowFault> {
        match first {
            "run" => self.run::<S>(words),
            "blank" => silent(self.alloc, self.hold_blank::<S>(words)),
            "fail" | "room" | "stopped" => silent(self.alloc, self.outside.act(first, words)),
            "printed" => silent(self.alloc, self.hold_printed(words)),
            "same" => self.files.same(words),
            "kept" => self.files.kept(words),
            _ => silent(self.alloc, self.files.make(first, words)),
        }
    }

    /// Lets a name hold the file of the blank document.
    fn hold_blank<S: Subject>(&mut self, words: &mut Words<'_, '_>) -> Result<(), RowFault> {
        let name = words.word()?;
        let file = S::blank(self.alloc)?;
        let held = self.files.hold_copy(name, file.as_slice());
        drop(file);
        held
    }

    /// Lets a name hold what the sink took in the last run.
    fn hold_printed(&mut self, words: &mut Words<'_, '_>) -> Result<(), RowFault> {
        let name = words.word()?;
        self.files.hold_copy(name, &self.printed)
    }

    /// Runs the program over the files of the row, and answers the line, what the sink took, and the status.
    fn run<S: Subject>(&mut self, words: &mut Words<'_, '_>) -> Result<String, RowFault> {
        let all = words.all(self.alloc)?;
        let status = self.run_words::<S>(&all);
        drop(all);
        report(self.alloc, words.line, &self.printed, status?)
    }

    /// Runs the program with these words, and answers the status.
    fn run_words<S: Subject>(&mut self, words: &[String]) -> Result<u8, RowFault> {
        let mut shelf = self.files.shelf()?;
        let status = self.run_over::<S>(words, &mut shelf);
        drop(shelf);
        status
    }

    /// Runs the program over a store, and answers the status. The files of the row then hold what the store holds under
    /// their names and under the last word.
    fn run_over<S: Subject>(
        &mut self,
        words: &[String],
        shelf: &mut MemShelf,
    ) -> Result<u8, RowFault> {
        self.outside.plan(shelf)?;
        let mut sink = self.outside.sink(self.alloc)?;
        let status = S::run(self.alloc, words, shelf, &mut sink);
        let printed = copy_of(self.alloc, sink.written());
        drop(sink);
        self.printed = printed?;
        let failing = self.outside.calls();
        self.outside = Outside::new(self.alloc);
        if let Some(name) = words.last() {
            self.files.keep(shelf, name.as_str(), failing)?;
        }
        Ok(status)
    }
}

/// The line of a run, what the sink took, and the status.
fn report(alloc: Global, line: &str, written: &[u8], status: u8) -> Result<String, RowFault> {
    let mut text = String::new(alloc);
    let pushed = push_report(alloc, &mut text, line, written, status);
    given(text, pushed)
}

/// Puts the line of a run, what the sink took, and the status behind a text.
fn push_report(
    alloc: Global,
    text: &mut String,
    line: &str,
    written: &[u8],
    status: u8,
) -> Result<(), RowFault> {
    push_parts(text, &[line, "\n"])?;
    push_written(alloc, text, written)?;
    push_status(alloc, text, status)
}

/// Puts what the sink took behind a text.
fn push_written(alloc: Global, text: &mut String, written: &[u8]) -> Result<(), RowFault> {
    let taken = String::from_utf8_lossy(alloc, written)?;
    let pushed = push_taken(text, taken.as_str());
    drop(taken);
    pushed
}

/// Puts a status behind a text.
fn push_status(alloc: Global, text: &mut String, status: u8) -> Result<(), RowFault> {
    let line = format!(in alloc; "status {status}\n")?;
    let pushed = push_parts(text, &[line.as_str()]);
    drop(line);
    pushed
}

/// What the sink took, line by line, each behind a bar. A rest without a line feed is behind a colon.
fn push_taken(text: &mut String, taken: &str) -> Result<(), RowFault> {
    for line in taken.split_inclusive('\n') {
        push_line(text, line)?;
    }
    Ok(())
}

/// Puts a line behind a bar, or a rest behind a colon.
fn push_line(text: &mut String, line: &str) -> Result<(), RowFault> {
    if line.ends_with('\n') {
        push_parts(text, &["| ", line])
    } else {
        push_parts(text, &[": ", line, "\n"])
    }
}

/// How many bytes of reasons are taken.
pub const REASONS_LEN: u32 = 1_024;
