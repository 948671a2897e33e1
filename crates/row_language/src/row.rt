use crate::lent::{joined, silent};
use crate::row_fault::RowFault;
use crate::runs::Runs;
use crate::subject::{Mode, Subject};
use crate::words::Words;
use doc_outer::Shelf;
use std::alloc::Global;

/// A row: its files, its runs, and its document, once there is one.
#[derive(Drop)]
pub(crate) struct Row<S: Subject + Drop> {
    alloc: Global,
    runs: Runs,
    subject: Option<S>,
    has_source: bool,
}

impl<S: Subject + Drop> Row<S> {
    /// A row with no file.
    pub(crate) fn new(alloc: Global) -> Row<S> {
        Row {
            alloc,
            runs: Runs::new(alloc),
            subject: None,
            has_source: false,
        }
    }

    /// Does what a line says, and answers what is to be printed.
    pub(crate) fn act<D: Shelf>(
        &mut self,
        words: &mut Words<'_, '_>,
        data: &mut D,
    ) -> Result<String, RowFault> {
        let text = self.said(words, data)?;
        ended(words, text)
    }

    /// Does what a line says, as far as its words are read.
    fn said<D: Shelf>(
        &mut self,
        words: &mut Words<'_, '_>,
        data: &mut D,
    ) -> Result<String, RowFault> {
        let first = words.word()?;
        match first {
            "row" => self.begin(words),
            "from" => {
                self.has_source = !words.rest().is_empty();
                Ok(String::new(self.alloc))
            }
            first => self.step(first, words, data),
        }
    }

    /// Begins another row.
    fn begin(&mut self, words: &mut Words<'_, '_>) -> Result<String, RowFault> {
        words.word()?;
        *self = Row::new(self.alloc);
        joined(self.alloc, &[words.line, "\n"])
    }

    /// Does what a line says in a row that has a source.
    fn step<D: Shelf>(
        &mut self,
        first: &str,
        words: &mut Words<'_, '_>,
        data: &mut D,
    ) -> Result<String, RowFault> {
        if !self.has_source {
            return Err(RowFault::NoSource);
        }
        match first {
            "file" => silent(self.alloc, self.runs.files.read(data, words)),
            "document" => self.open(words),
            "saved" => self.hold_saved(words),
            "do" | "again" => self.edit(first, words),
            "save" | "ledgers" | "styles" | "texts" => self.show(first, words),
            _ => self.runs.act::<S>(first, words),
        }
    }

    /// Begins with the document of a file.
    fn open(&mut self, words: &mut Words<'_, '_>) -> Result<String, RowFault> {
        let file = self.runs.files.named(words)?;
        let subject = S::open(self.alloc, file)?;
        self.subject = Some(subject);
        Ok(String::new(self.alloc))
    }

    /// Lets a name hold the file that was saved last.
    fn hold_saved(&mut self, words: &mut Words<'_, '_>) -> Result<String, RowFault> {
        let Some(subject) = &self.subject else {
            return Err(RowFault::NoDocument);
        };
        let name = words.word()?;
        silent(self.alloc, self.runs.files.hold_copy(name, subject.file()))
    }

    /// Makes an edit once or more, and answers the line and what came of the last time.
    fn edit(&mut self, first: &str, words: &mut Words<'_, '_>) -> Result<String, RowFault> {
        let count = if first == "do" { 1 } else { words.number()? };
        let object = words.spelled()?;
        let shown = self.make(count, object.as_str());
        drop(object);
        behind(self.alloc, words.line, "\n", shown?)
    }

    /// Makes an edit once or more, and answers what came of the last time.
    fn make(&mut self, count: u64, object: &str) -> Result<String, RowFault> {
        match &mut self.subject {
            Some(subject) => subject.make(count, object),
            None => Err(RowFault::NoDocument),
        }
    }

    /// Saves the document, or shows something of it or of its session.
    fn show(&mut self, first: &str, words: &mut Words<'_, '_>) -> Result<String, RowFault> {
        let Some(subject) = &mut self.subject else {
            return Err(RowFault::NoDocument);
        };
        match first {
            "save" => {
                let mode = mode_of(words)?;
                let shown = subject.save(mode)?;
                behind(self.alloc, words.line, ": ", shown)
            }
            "ledgers" => subject.ledgers(),
            what => subject.listing(what),
        }
    }
}

/// How a document is saved by the next word.
fn mode_of(words: &mut Words<'_, '_>) -> Result<Mode, RowFault> {
    let word = words.word()?;
    match word {
        "fast" => Ok(Mode::Fast),
        "full" => Ok(Mode::Full),
        _ => Err(RowFault::NoCommand),
    }
}

/// The text behind a line and a sign.
fn behind(alloc: Global, line: &str, sign: &str, text: String) -> Result<String, RowFault> {
    let joined = joined(alloc, &[line, sign, text.as_str()]);
    drop(text);
    joined
}

/// What a line comes to whose words are all read.
fn ended(words: &Words<'_, '_>, text: String) -> Result<String, RowFault> {
    if words.has_more() {
        Err(RowFault::WordTooMany)
    } else {
        Ok(text)
    }
}
