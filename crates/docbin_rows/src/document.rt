// Documents, as the calls of the layers below read, edit and write them.
ghost use Rattle.std.specs.Prelude.{IsTrue};
ghost use Rattle.doc_bits.specs.Rules.{Hold};
ghost use Rattle.doc_model.specs.Marks.{HasFormedBookmarks};
ghost use Rattle.plain_doc.specs.Sound.{IsSound, document_rules};

use crate::edits::Edits;
use doc_bits::{Bytes, Memory, Text};
use doc_read::{Opened, ReadFault, read};
use doc_show::listing;
use edit_ops::{Command, EditFault, Facts, apply_plain, test};
use full_save::{SaveFault, full};
use plain_doc::{Document, blank, check, equal};
use row_language::RowFault;
use std::alloc::Global;

/// A document by itself.
pub(crate) trait Plain {
    /// Whether it is the document of a file.
    fn is_in(&self, alloc: Global, file: &[u8]) -> Result<bool, RowFault>;

    /// Its full save.
    fn saved(&self, alloc: Global) -> Result<Bytes, RowFault>;

    /// Its listing.
    fn listed(&self, alloc: Global) -> Result<Text, Memory>;
}

impl Edits for Document {
    type Seen = Document;

    fn begin(alloc: Global, file: &[u8]) -> Result<Document, RowFault> {
        match read(alloc, file) {
            Ok(opened) => Ok(document_in(opened)),
            Err(fault) => Err(refusal(fault)),
        }
    }

    fn seen(&self, alloc: Global) -> Result<Document, Memory> {
        self.copy(alloc)
    }

    fn is_still(&self, seen: &Document) -> Result<bool, Memory> {
        Ok(equal(self, seen))
    }

    fn try_edit(
        &self,
        alloc: Global,
        command: &Command,
    ) -> Result<Result<Facts, EditFault>, RowFault> {
        if is_sound(self) {
            Ok(test(alloc, self, command))
        } else {
            Err(RowFault::NotSound)
        }
    }

    fn make_edit(
        &mut self,
        alloc: Global,
        command: &Command,
    ) -> Result<Result<(), EditFault>, RowFault> {
        if is_sound(self) {
            Ok(apply_plain(alloc, self, command))
        } else {
            Err(RowFault::NotSound)
        }
    }
}

impl Plain for Document {
    fn is_in(&self, alloc: Global, file: &[u8]) -> Result<bool, RowFault> {
        match read(alloc, file) {
            Ok(opened) => {
                let same = equal(opened.document(), self);
                drop(opened);
                Ok(same)
            }
            Err(fault) => Err(refusal(fault)),
        }
    }

    fn saved(&self, alloc: Global) -> Result<Bytes, RowFault> {
        if is_sound(self) {
            full_save(alloc, self)
        } else {
            Err(RowFault::NotSound)
        }
    }

    fn listed(&self, alloc: Global) -> Result<Text, Memory> {
        listing(alloc, self)
    }
}

/// Whether a document breaks no rule.
fn is_sound(document: &Document) -> bool
    ensures { IsTrue result → IsSound document.now }
{
    if !has_formed_bookmarks(document) {
        return false;
    }
    keeps_rules(document)
}

/// Whether the bookmarks of a document are formed.
fn has_formed_bookmarks(document: &Document) -> bool
    ensures { IsTrue result → HasFormedBookmarks document.now }
{
    document.bookmarks.are_formed(document.main.len())
}

/// Whether a document breaks no rule.
fn keeps_rules(document: &Document) -> bool
    ensures { IsTrue result → Hold (document_rules document.now) }
{
    match check(document) {
        Ok(()) => true,
        Err(_) => false,
    }
}

/// The document of a file that is opened.
fn document_in(opened: Opened) -> Document {
    opened.into_parts().0
}

/// Why a file is not opened.
pub(crate) fn refusal(fault: ReadFault) -> RowFault {
    match fault {
        ReadFault::Refused { .. } => RowFault::NoData,
        ReadFault::Memory => RowFault::Memory,
    }
}

/// The full save of a sound document.
fn full_save(alloc: Global, document: &Document) -> Result<Bytes, RowFault>
    requires { IsSound document.now }
{
    match full(alloc, document) {
        Ok(file) => Ok(file),
        Err(SaveFault::TooLarge { .. }) => Err(RowFault::OtherFile),
        Err(SaveFault::Memory) => Err(RowFault::Memory),
    }
}

/// The full save of the blank document.
pub(crate) fn blank_file(alloc: Global) -> Result<Bytes, RowFault> {
    let document = blank(alloc)?;
    let file = document.saved(alloc);
    drop(document);
    file
}
