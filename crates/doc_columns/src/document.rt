// A document by columns. Contracts see the document.
ghost use Rattle.std.specs.Prelude.{◌≡◌, IfOk};

use crate::{ColumnTexts, Columns};
use doc_bits::Memory;
use doc_parts::Bookmarks;
use plain_doc::Carried;
use std::alloc::Global;
use std::marker::Model;
use style_sheet::StyleSheet;

/// A document whose texts are kept by columns. The bookmarks are those of its main text.
#[derive(Drop)]
pub struct ColumnDocument {
    pub main: Columns,
    pub notes: ColumnTexts,
    pub heads: ColumnTexts,
    pub sheet: StyleSheet,
    pub carried: Carried,
    pub bookmarks: Bookmarks,
}

impl Model for ColumnDocument {
    ghost use Rattle.doc_model.specs.declared.document.Document.{Document};
    ghost use Rattle.doc_model.specs.contracts.document.Document as document;

    ghost Value = { Document };

    ghost coded = { document.the_row.coded };

    ghost view = { λ d. record {
      main = d.main;
      notes = d.notes;
      heads = d.heads;
      sheet = d.sheet;
      carried = d.carried;
      bookmarks = d.bookmarks;
    } };
}

impl ColumnDocument {
    /// A copy of the document, which shares its maps and styles.
    pub fn copy(&self, alloc: Global) -> Result<ColumnDocument, Memory>
        ensures { IfOk result (λ copy. copy ≡ self.now) }
    {
        let texts = copy_texts(alloc, &self.main, &self.notes, &self.heads)?;
        let others = copy_others(alloc, &self.sheet, &self.carried, &self.bookmarks)?;
        Ok(texts.document(others))
    }
}

/// Copies of the texts, which share their maps.
fn copy_texts(
    alloc: Global,
    main: &Columns,
    notes: &ColumnTexts,
    heads: &ColumnTexts,
) -> Result<TextColumns, Memory>
    ensures main { IfOk result (λ texts. texts.main ≡ main.now) }
    ensures notes { IfOk result (λ texts. texts.notes ≡ notes.now) }
    ensures heads { IfOk result (λ texts. texts.heads ≡ heads.now) }
{
    let main = main.copy(alloc, 0, main.len())?;
    let notes = notes.copy(alloc, 0, notes.len())?;
    let heads = heads.copy(alloc, 0, heads.len())?;
    Ok(TextColumns { main, notes, heads })
}

/// The parts of a document beside its texts.
#[derive(Drop)]
pub(crate) struct OtherParts {
    pub(crate) sheet: StyleSheet,
    pub(crate) carried: Carried,
    pub(crate) bookmarks: Bookmarks,
}

/// Copies of the other parts, which share their styles.
pub(crate) fn copy_others(
    alloc: Global,
    sheet: &StyleSheet,
    carried: &Carried,
    bookmarks: &Bookmarks,
) -> Result<OtherParts, Memory>
    ensures sheet { IfOk result (λ others. others.sheet ≡ sheet.now) }
    ensures carried { IfOk result (λ others. others.carried ≡ carried.now) }
    ensures bookmarks { IfOk result (λ others. others.bookmarks ≡ bookmarks.now) }
{
    let sheet = sheet.copy(alloc)?;
    let bookmarks = bookmarks.copy(alloc, 0, bookmarks.len())?;
    let carried = carried.copy(alloc)?;
    Ok(OtherParts {
        sheet,
        carried,
        bookmarks,
    })
}

/// The texts of a document.
#[derive(Drop)]
pub(crate) struct TextColumns {
    pub(crate) main: Columns,
    pub(crate) notes: ColumnTexts,
    pub(crate) heads: ColumnTexts,
}

impl TextColumns {
    /// The document that these texts and the other parts make.
    pub(crate) fn document(self, others: OtherParts) -> ColumnDocument
        ensures { result ≡ record {
          main = self.main;
          notes = self.notes;
          heads = self.heads;
          sheet = others.sheet;
          carried = others.carried;
          bookmarks = others.bookmarks;
        } }
    {
        let TextColumns { main, notes, heads } = self;
        let OtherParts {
            sheet,
            carried,
            bookmarks,
        } = others;
        ColumnDocument {
            main,
            notes,
            heads,
            sheet,
            carried,
            bookmarks,
        }
    }
}
