// Columns put as plain texts and documents, and these as columns.
ghost use Rattle.std.specs.Prelude.{◌≡◌, IfOk};
ghost use Rattle.doc_model.specs.Document.{IsFormedText};

use crate::collect::{TextParts, push_run};
use crate::document::{OtherParts, TextColumns, copy_others};
use crate::{ColumnDocument, ColumnTexts, Columns};
use doc_bits::Memory;
use plain_doc::{Document, Item, Items, Texts};
use run_lists::Cursor;
use std::alloc::Global;

impl Columns {
    /// The items one by one. Their maps are shared.
    pub fn expand(&self, alloc: Global) -> Result<Items, Memory>
        ensures { IfOk result (λ made. made ≡ self.now) }
    {
        let _len = self.len();
        let parts = TextParts {
            units: self.units(),
            chps: self.chps(),
        };
        let mut items = Items::new(alloc);
        let mut cursor = Cursor::new();
        let mut place = 0;
        for run in self.attachments() {
            push_run(alloc, &parts, &mut cursor, place, run, &mut items)?;
            place += run.count as usize;
        }
        Ok(items)
    }

    /// Items by columns. Their maps are shared.
    pub fn from_items(alloc: Global, items: &[Item]) -> Result<Columns, Memory>
        requires { IsFormedText items.now }
        ensures { IfOk result (λ made. made ≡ items.now) }
    {
        let mut made = Columns::new(alloc);
        for item in items {
            made = made.add(item.copy(alloc)?)?;
        }
        Ok(made)
    }
}

impl ColumnTexts {
    /// The texts item by item. Their maps are shared.
    pub fn expand(&self, alloc: Global) -> Result<Texts, Memory>
        ensures { IfOk result (λ made. made ≡ self.now) }
    {
        let mut made = Texts::new(alloc);
        for k in 0..self.len() {
            made.add(self.get(k).expand(alloc)?)?;
        }
        Ok(made)
    }

    /// Texts by columns. Their maps are shared.
    pub fn from_texts(alloc: Global, texts: &Texts) -> Result<ColumnTexts, Memory>
        ensures { IfOk result (λ made. made ≡ texts.now) }
    {
        let mut made = ColumnTexts::new(alloc);
        for k in 0..texts.len() {
            made.add(Columns::from_items(alloc, texts.get(k).as_slice())?)?;
        }
        Ok(made)
    }
}

impl ColumnDocument {
    /// The document item by item. Maps and styles are shared.
    pub fn expand(&self, alloc: Global) -> Result<Document, Memory>
        ensures { IfOk result (λ made. made ≡ self.now) }
    {
        let texts = expand_texts(alloc, &self.main, &self.notes, &self.heads)?;
        let others = copy_others(alloc, &self.sheet, &self.carried, &self.bookmarks)?;
        Ok(texts.document(others))
    }

    /// A document by columns. Maps and styles are shared.
    pub fn from_document(alloc: Global, document: &Document) -> Result<ColumnDocument, Memory>
        ensures { IfOk result (λ made. made ≡ document.now) }
    {
        let texts = columns_of(alloc, &document.main, &document.notes, &document.heads)?;
        let others = copy_others(
            alloc,
            &document.sheet,
            &document.carried,
            &document.bookmarks,
        )?;
        Ok(texts.document(others))
    }
}

/// Texts item by item. Their maps are shared.
fn expand_texts(
    alloc: Global,
    main: &Columns,
    notes: &ColumnTexts,
    heads: &ColumnTexts,
) -> Result<PlainTexts, Memory>
    ensures main { IfOk result (λ texts. texts.main ≡ main.now) }
    ensures notes { IfOk result (λ texts. texts.notes ≡ notes.now) }
    ensures heads { IfOk result (λ texts. texts.heads ≡ heads.now) }
{
    let main = main.expand(alloc)?;
    let notes = notes.expand(alloc)?;
    let heads = heads.expand(alloc)?;
    Ok(PlainTexts { main, notes, heads })
}

/// Texts by columns. Their maps are shared.
fn columns_of(
    alloc: Global,
    main: &Items,
    notes: &Texts,
    heads: &Texts,
) -> Result<TextColumns, Memory>
    ensures main { IfOk result (λ texts. texts.main ≡ main.now) }
    ensures notes { IfOk result (λ texts. texts.notes ≡ notes.now) }
    ensures heads { IfOk result (λ texts. texts.heads ≡ heads.now) }
{
    let main = Columns::from_items(alloc, main.as_slice())?;
    let notes = ColumnTexts::from_texts(alloc, notes)?;
    let heads = ColumnTexts::from_texts(alloc, heads)?;
    Ok(TextColumns { main, notes, heads })
}

/// The texts of a document item by item.
#[derive(Drop)]
struct PlainTexts {
    main: Items,
    notes: Texts,
    heads: Texts,
}

impl PlainTexts {
    /// The document that these texts and the other parts make.
    fn document(self, others: OtherParts) -> Document
        ensures { result ≡ record {
          main = self.main;
          notes = self.notes;
          heads = self.heads;
          sheet = others.sheet;
          carried = others.carried;
          bookmarks = others.bookmarks;
        } }
    {
        let PlainTexts { main, notes, heads } = self;
        let OtherParts {
            sheet,
            carried,
            bookmarks,
        } = others;
        Document {
            main,
            notes,
            heads,
            sheet,
            carried,
            bookmarks,
        }
    }
}
