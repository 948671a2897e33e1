// Sessions on files, as the calls of fast_save edit and save them.
ghost use Rattle.std.specs.Prelude.{IfOk, IsTrue};
ghost use Rattle.fast_save.specs.Edited.{HasEditRoom};

use crate::document::refusal;
use crate::edits::Edits;
use doc_bits::{Bytes, Memory};
use doc_read::ReadFault;
use edit_ops::{Command, EditFault, Facts};
use fast_save::{FastFault, Ledgers, Session};
use full_save::SaveFault;
use plain_doc::{Document, equal};
use row_language::{Mode, RowFault};
use std::alloc::Global;

/// The units, runs and sections that a session may have counted before an edit.
const ROOM: u64 = 1_000_000;

/// What saves a document of this type.
pub(crate) trait Saves<D> {
    /// Saves.
    fn save(&mut self, mode: Mode) -> Result<(), FastFault>;

    /// Whether it has this document.
    fn has(&self, document: &D) -> Result<bool, Memory>;

    /// Its file.
    fn file(&self) -> &[u8];

    /// Its ledgers.
    fn counted(&self) -> Result<Ledgers, Memory>;
}

/// What is seen of a session.
#[derive(Drop)]
pub(crate) struct Seen {
    document: Document,
    file: Bytes,
    ledgers: Ledgers,
}

impl Edits for Session {
    type Seen = Seen;

    fn begin(alloc: Global, file: &[u8]) -> Result<Session, RowFault> {
        begun(Session::start(alloc, file))
    }

    fn seen(&self, alloc: Global) -> Result<Seen, Memory> {
        let ledgers = self.ledgers()?;
        let file = Bytes::from_slice(alloc, self.bytes())?;
        match self.document() {
            Ok(document) => Ok(Seen {
                document,
                file,
                ledgers,
            }),
            Err(Memory) => Err(Memory),
        }
    }

    fn is_still(&self, seen: &Seen) -> Result<bool, Memory> {
        let ledgers = self.ledgers()?;
        let kept = self.bytes() == seen.file.as_slice() && ledgers == seen.ledgers;
        Ok(kept && self.has(&seen.document)?)
    }

    fn try_edit(
        &self,
        _alloc: Global,
        command: &Command,
    ) -> Result<Result<Facts, EditFault>, RowFault> {
        Ok(self.test(command))
    }

    fn make_edit(
        &mut self,
        _alloc: Global,
        command: &Command,
    ) -> Result<Result<(), EditFault>, RowFault> {
        if has_room(self)? {
            Ok(self.edit(command))
        } else {
            Err(RowFault::NoRoom)
        }
    }
}

impl Saves<Document> for Session {
    fn save(&mut self, mode: Mode) -> Result<(), FastFault> {
        match mode {
            Mode::Fast => self.fast(),
            Mode::Full => saved(self.full()),
        }
    }

    fn has(&self, document: &Document) -> Result<bool, Memory> {
        let held = self.document()?;
        let same = equal(&held, document);
        drop(held);
        Ok(same)
    }

    fn file(&self) -> &[u8] {
        self.bytes()
    }

    fn counted(&self) -> Result<Ledgers, Memory> {
        self.ledgers()
    }
}

/// What begins, or why its file is not opened.
fn begun<S: Drop>(answer: Result<S, ReadFault>) -> Result<S, RowFault> {
    match answer {
        Ok(session) => Ok(session),
        Err(fault) => Err(refusal(fault)),
    }
}

/// What a full save answers, as a fast one does.
fn saved(answer: Result<(), SaveFault>) -> Result<(), FastFault> {
    match answer {
        Ok(()) => Ok(()),
        Err(SaveFault::TooLarge { sectors }) => Err(FastFault::TooLarge { sectors }),
        Err(SaveFault::Memory) => Err(FastFault::Memory),
    }
}

/// Whether so little was added to a session that it may be edited.
fn has_room(session: &Session) -> Result<bool, Memory>
    ensures { IfOk result (λ room. IsTrue room → HasEditRoom session.now.counts) }
{
    let ledgers = session.ledgers()?;
    Ok(ledgers.units <= ROOM && ledgers.runs <= ROOM && ledgers.sections <= ROOM)
}
