// A document and a session on its file, which are edited alike.
use crate::answers::{shown, shown_ledgers, shown_save};
use crate::document::{Plain, blank_file};
use crate::edits::{Edits, edit};
use crate::program::status_of;
use crate::session::Saves;
use doc_bits::Bytes;
use doc_outer::{MemShelf, MemSink};
use edit_ops::{Command, EditFault, Facts, Script, ScriptFault, read_script};
use fast_save::FastFault;
use row_language::{Mode, RowFault, Subject};
use std::alloc::Global;

/// The member that ends each script.
const SAVE: &str = "{\"do\":\"save\",\"mode\":\"full\"}";

/// The first line of the texts in a listing.
const MAIN_TEXT: &str = "story main\n";

/// A document, and a session on its file.
#[derive(Drop)]
pub(crate) struct Edited<D: Drop, S: Drop> {
    alloc: Global,
    document: D,
    session: S,
}

impl<D: Edits + Plain + Drop, S: Edits + Saves<D> + Drop> Subject for Edited<D, S> {
    fn run(alloc: Global, words: &[String], shelf: &mut MemShelf, sink: &mut MemSink) -> u8 {
        status_of(alloc, words, shelf, sink)
    }

    fn blank(alloc: Global) -> Result<Bytes, RowFault> {
        blank_file(alloc)
    }

    fn open(alloc: Global, file: &[u8]) -> Result<Edited<D, S>, RowFault> {
        let document = D::begin(alloc, file)?;
        match S::begin(alloc, file) {
            Ok(session) => Ok(Edited {
                alloc,
                document,
                session,
            }),
            Err(fault) => Err(fault),
        }
    }

    fn make(&mut self, count: u64, object: &str) -> Result<String, RowFault> {
        let script = script_of(self.alloc, object)?;
        let answer = self.edit_by(count, &script);
        drop(script);
        shown(self.alloc, answer?)
    }

    fn save(&mut self, mode: Mode) -> Result<String, RowFault> {
        let answer = self.save_session(mode)?;
        self.has_one_document()?;
        if answer.is_ok() {
            self.is_saved(mode)?;
        }
        shown_save(self.alloc, answer)
    }

    fn file(&self) -> &[u8] {
        self.session.file()
    }

    fn ledgers(&self) -> Result<String, RowFault> {
        shown_ledgers(self.alloc, &self.session.counted()?)
    }

    fn listing(&self, what: &str) -> Result<String, RowFault> {
        let text = self.document.listed(self.alloc)?;
        let part = part_of(self.alloc, text.as_str(), what);
        drop(text);
        part
    }
}

impl<D: Edits + Plain + Drop, S: Edits + Saves<D> + Drop> Edited<D, S> {
    /// Makes the one edit of a script so many times, and answers what came of the last time.
    fn edit_by(
        &mut self,
        count: u64,
        script: &Script,
    ) -> Result<Result<Facts, EditFault>, RowFault> {
        if script.len() != 2 {
            return Err(RowFault::NoScript);
        }
        for _ in 1..count {
            self.edit_unseen(script.get(0))?;
        }
        self.edit(script.get(0))
    }

    /// Makes an edit of both that is accepted, and compares nothing else.
    fn edit_unseen(&mut self, command: &Command) -> Result<(), RowFault> {
        let made = self.document.make_edit(self.alloc, command)?;
        let other = self.session.make_edit(self.alloc, command)?;
        match (made, other) {
            (Ok(()), Ok(())) => Ok(()),
            (Err(EditFault::Memory), _) | (_, Err(EditFault::Memory)) => Err(RowFault::Memory),
            _ => Err(RowFault::TwoAnswers),
        }
    }

    /// Makes an edit of both, which answer alike.
    fn edit(&mut self, command: &Command) -> Result<Result<Facts, EditFault>, RowFault> {
        let answer = edit(self.alloc, &mut self.document, command)?;
        let other = edit(self.alloc, &mut self.session, command)?;
        if answer != other {
            return Err(RowFault::OtherSession);
        }
        self.has_one_document()?;
        Ok(answer)
    }

    /// The session has the document.
    fn has_one_document(&self) -> Result<(), RowFault> {
        if self.session.has(&self.document)? {
            Ok(())
        } else {
            Err(RowFault::OtherSession)
        }
    }

    /// Saves the session. Where it refuses it is what it was.
    fn save_session(&mut self, mode: Mode) -> Result<Result<(), FastFault>, RowFault> {
        let before = self.session.seen(self.alloc)?;
        let answer = self.save_from(&before, mode);
        drop(before);
        answer
    }

    /// Saves the session, of which this was seen before.
    fn save_from(
        &mut self,
        before: &S::Seen,
        mode: Mode,
    ) -> Result<Result<(), FastFault>, RowFault> {
        let answer = self.session.save(mode);
        if answer.is_err() && !self.session.is_still(before)? {
            return Err(RowFault::Changed);
        }
        match answer {
            Err(FastFault::Memory) => Err(RowFault::Kept),
            _ => Ok(answer),
        }
    }

    /// The file of the session holds the document; where it was saved in full, it is the full save of that.
    fn is_saved(&self, mode: Mode) -> Result<(), RowFault> {
        let file = self.session.file();
        if !self.document.is_in(self.alloc, file)? {
            return Err(RowFault::OtherFile);
        }
        match mode {
            Mode::Fast => Ok(()),
            Mode::Full => self.is_saved_in_full(),
        }
    }

    /// Refuses a session whose bytes are not the full save of the document.
    fn is_saved_in_full(&self) -> Result<(), RowFault> {
        let file = self.document.saved(self.alloc)?;
        let same = file.as_slice() == self.session.file();
        drop(file);
        if same {
            Ok(())
        } else {
            Err(RowFault::OtherFile)
        }
    }
}

/// The script of one command and a save.
fn script_of(alloc: Global, object: &str) -> Result<Script, RowFault> {
    let spelled = format!(in alloc; "[{object},{SAVE}]")?;
    let script = read_script(alloc, spelled.as_bytes());
    drop(spelled);
    match script {
        Ok(script) => Ok(script),
        Err(ScriptFault::Memory) => Err(RowFault::Memory),
        Err(_) => Err(RowFault::NoScript),
    }
}

/// The lines of a listing on styles, or those on texts.
fn part_of(alloc: Global, text: &str, what: &str) -> Result<String, RowFault> {
    match text.split_once(MAIN_TEXT) {
        Some((styles, _)) if what == "styles" => Ok(String::from_str(alloc, styles)?),
        Some((_, texts)) => Ok(format!(in alloc; "{MAIN_TEXT}{texts}")?),
        None => Err(RowFault::NoDocument),
    }
}
