// A session: a document that is edited beside the pieces of its text. After want of memory it is what it was.
ghost use Rattle.std.specs.Prelude.{◌≡◌, ◌<◌, ◌≤◌, length, OnOk, OnErr, IfOk, IfErr, MatchResult};
ghost use Rattle.cfb_sectors.specs.Header.{sector_count};
ghost use Rattle.plain_doc.specs.Sound.{IsSound};
ghost use Rattle.full_save.specs.WordDocument.{table_stream};
ghost use Rattle.full_save.specs.Layout.{FitsCompoundFile, IsTooLarge};
ghost use Rattle.file_rules.specs.Faults.{IsReadFault};
ghost use Rattle.doc_read.specs.Holds.{IsAccepted, all_rules};
ghost use Rattle.doc_read.specs.Opened.{IsOpened};
ghost use Rattle.edit_ops.specs.Causes.{IsAcceptedEdit, IsEditFault};
ghost use Rattle.edit_ops.specs.EditFacts.{edit_facts};
ghost use Rattle.fast_save.specs.Laws.{IsHeldInFull};
ghost use Rattle.fast_save.specs.Ledgers.{ledgers_of, AreCountsOf};
ghost use Rattle.fast_save.specs.Session.{bin_length};
ghost use Rattle.fast_save.specs.Edited.{HasEditRoom, IsPlannedEdit, session_after};
ghost use Rattle.fast_save.specs.Started.{IsStarted, session_after_full};
ghost use Rattle.fast_save.specs.Fast.{IsFastFault, IsSavedFast};

use crate::by_items::{file_in_full, items_of};
use crate::fast::{FastFault, check_save};
use crate::fast_parts::FastParts;
use crate::full_parts::parts_in_full;
use crate::ledgers::{Counts, Ledgers};
use crate::parts::{SessionParts, bin_bytes, pieces_are_few};
use crate::written::{put_pieces, written_file};
use doc_bits::{Bytes, Memory, with_result};
use doc_columns::{ColumnDocument, Columns};
use doc_read::{ColumnFile, ReadFault, open};
use edit_ops::{Command, Edit, EditFault, Facts, edit_of};
use full_save::{SaveFault, table_len_of_columns};
use plain_doc::Document;
use session_text::Added;
use std::alloc::Global;
use std::marker::Model;

/// A document that is edited beside the pieces of its text, and the file that was given or last saved.
#[derive(Drop)]
pub struct Session {
    alloc: Global,
    document: ColumnDocument,
    parts: SessionParts,
    file: Bytes,
    counts: Counts,
}

impl Model for Session {
    ghost use Rattle.fast_save.specs.Session.{SessionView, IsSession, IsSessionCounted};
    ghost use Rattle.fast_save.specs.Codes.{session_code};

    ghost Value = { SessionView };

    ghost coded = { session_code };

    ghost view = { λ s. record {
      bytes = s.file;
      document = s.document;
      counts = s.counts;
      quick_saves = s.parts.fib.quick_saves;
    } };

    ghost invariant = { λ s. IsSession s.file s.document s.parts × IsSessionCounted s.file s.parts s.counts };
}

impl Session {
    /// Begins on a file. A file that is refused breaks a rule, and the first is named, at its least place.
    pub fn start(alloc: Global, file: &[u8]) -> Result<Session, ReadFault>
        ensures { MatchResult result (IsStarted file.now) (IsReadFault (all_rules file.now)) }
    {
        let bytes = Bytes::from_slice(alloc, file)?;
        match open(alloc, file) {
            Ok(opened) => Session::begin(alloc, file, bytes, opened),
            Err(fault) => Err(fault),
        }
    }

    /// Begins on a file that is opened, with a copy of its bytes.
    fn begin(
        alloc: Global,
        file: &[u8],
        bytes: Bytes,
        opened: ColumnFile,
    ) -> Result<Session, ReadFault>
        requires opened { IsOpened file.now opened }
        requires bytes { bytes ≡ file.now }
        ensures { MatchResult result (IsStarted file.now) (IsReadFault (all_rules file.now)) }
    {
        let (document, fib, container, pieces) = opened.into_parts();
        let made = SessionParts::of_file(alloc, &document, fib, container, pieces);
        let (document, parts) = with_result(document, made)?;
        let counts = counts_of(&parts, file);
        Ok(Session {
            alloc,
            document,
            parts,
            file: bytes,
            counts,
        })
    }

    /// What an edit would do, or why it is refused.
    pub fn test(&self, command: &Command) -> Result<Facts, EditFault>
        ensures { MatchResult result
            (λ facts. IsAcceptedEdit self.now.document command.now
            × (facts ≡ edit_facts self.now.document command.now))
            (IsEditFault self.now.document command.now) }
    {
        let edit = self.plan(command)?;
        Ok(edit.facts)
    }

    /// An edit as `make` takes it, or why it is refused.
    pub fn plan(&self, command: &Command) -> Result<Edit, EditFault>
        ensures { MatchResult result
            (IsPlannedEdit self.now.document command.now) (IsEditFault self.now.document command.now) }
    {
        edit_of(self.alloc, &self.document, command)
    }

    /// Makes a planned edit. The file stays. After want of memory the session is as it was.
    pub fn make(&mut self, command: &Command, edit: Edit) -> Result<(), Memory>
        requires room { HasEditRoom self.old.counts }
        requires planned { IsPlannedEdit self.old.document command.now edit }
        ensures ok { OnOk result (self.new ≡ session_after command.now self.old) }
        ensures err { OnErr result (self.new ≡ self.old) }
    {
        let Edit {
            document,
            changes,
            facts,
        } = edit;
        let made = self.parts.text.edit(self.alloc, &self.document, &changes);
        drop(changes);
        let (document, _) = with_result(document, made)?;
        pieces_are_few(&self.parts.text.pieces);
        self.counts = self.counts.after_edit(command, facts.units_in);
        self.document = document;
        Ok(())
    }

    /// Makes an edit. The file stays. A refused edit leaves the session as it was.
    pub fn edit(&mut self, command: &Command) -> Result<(), EditFault>
        requires { HasEditRoom self.old.counts }
        ensures ok { OnOk result
            (IsAcceptedEdit self.old.document command.now × (self.new ≡ session_after command.now self.old)) }
        ensures err { IfErr result
            (λ fault. (self.new ≡ self.old) × IsEditFault self.old.document command.now fault) }
    {
        let edit = self.plan(command)?;
        self.make(command, edit)?;
        Ok(())
    }

    /// Saves the document in full. A refused save leaves the session as it was.
    pub fn full(&mut self) -> Result<(), SaveFault>
        ensures ok { OnOk result
            (FitsCompoundFile self.old.document
            × (IsHeldInFull self.old.document × (self.new ≡ session_after_full self.old))) }
        ensures err { IfErr result (λ fault. (self.new ≡ self.old) × IsTooLarge self.old.document fault) }
    {
        let file = file_in_full(self.alloc, &self.document)?;
        let made = parts_in_full(self.alloc, &self.document, file.as_slice());
        let (image, parts) = with_result(file, made)?;
        self.counts = counts_of(&parts, image.as_slice());
        self.parts = parts;
        self.file = image;
        Ok(())
    }

    /// Saves the document behind the file that is there. A refused save leaves the session as it was.
    pub fn fast(&mut self) -> Result<(), FastFault>
        ensures ok { OnOk result (IsSavedFast self.old self.new) }
        ensures err { IfErr result (λ fault. (self.new ≡ self.old)
            × IsFastFault self.old.quick_saves self.old.counts (length (table_stream self.old.document)) fault) }
    {
        let sectors = check_save(self.alloc, &self.document, &self.parts.fib, &self.counts)?;
        let written = written_file(
            self.alloc,
            self.file.as_slice(),
            &self.document,
            &self.parts,
            &self.counts,
        )?;
        let behind = FastParts::of_file(self.alloc, &self.document, written.file.as_slice())?;
        put_pieces(&mut self.parts.text.pieces, written.pieces);
        self.parts.text.added = Added {
            base: behind.base,
            items: Columns::new(self.alloc),
        };
        self.parts.text.ends = behind.ends;
        self.parts.text.sections = behind.places;
        self.parts.fib = behind.fib;
        self.parts.container = behind.container;
        self.counts = self.counts.after_fast(sectors);
        self.file = written.file;
        Ok(())
    }

    /// The document now, by columns.
    pub fn columns(&self) -> &ColumnDocument
        ensures same { result.now ≡ self.now.document }
        ensures sound { IsSound result.now }
    {
        &self.document
    }

    /// The document now.
    pub fn document(&self) -> Result<Document, Memory>
        ensures { IfOk result (λ document. (document ≡ self.now.document) × IsSound document) }
    {
        items_of(self.alloc, &self.document)
    }

    /// The file that was given or last saved.
    pub fn bytes(&self) -> &[u8]
        ensures bytes { result.now ≡ self.now.bytes }
        ensures accepted { IsAccepted result.now }
    {
        self.file.as_slice()
    }

    /// The number of fast saves in a row that made the file, up to 15.
    pub fn quick_saves(&self) -> u8
        ensures { result ≡ self.now.quick_saves }
    {
        self.parts.fib.quick_saves()
    }

    /// The number of items of the main text.
    pub fn main_len(&self) -> u32
        ensures len { result ≡ length self.now.document.main }
        ensures some { 0 < result }
    {
        self.document.main.len() as u32
    }

    /// The numbers that decide whether a fast save is refused.
    pub fn ledgers(&self) -> Result<Ledgers, Memory>
        ensures { IfOk result (λ ledgers. ledgers ≡
            ledgers_of self.now.counts (length (table_stream self.now.document))) }
    {
        let len = table_len_of_columns(self.alloc, &self.document)?;
        Ok(self.counts.ledgers(len))
    }
}

/// The counts of a file with these parts, since whose save nothing was added.
fn counts_of(parts: &SessionParts, file: &[u8]) -> Counts
    requires { 512 ≤ length file.now }
    ensures { AreCountsOf parts.now.text.pieces.pieces (sector_count file.now) (bin_length parts.now.fib) result }
{
    let sectors = file.len() as u64 / 512 - 1;
    Counts::of_file(&parts.text.pieces, sectors, bin_bytes(&parts.fib))
}
