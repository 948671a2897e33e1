// A document, as the reader finds it, edits change it and saves write it.
ghost use Rattle.std.specs.Prelude.{◌≡◌, ◌↔◌, ◌+◌, ◌-◌, ◌^◌, ◌<◌};
ghost use Rattle.std.specs.Prelude.{◌≤◌, length, slice_get, slice_set, Some, IsTrue, All};
ghost use Rattle.std.specs.Prelude.{IfOk, OnOk, OnErr};
ghost use Rattle.doc_model.specs.Document.{HasPropertyMaps};
ghost use Rattle.doc_model.specs.Marks.{main_spliced};

use crate::{Carried, Item, Items, Texts};
use doc_bits::Memory;
use doc_parts::Bookmarks;
use std::alloc::Global;
use style_sheet::StyleSheet;

/// A document: its main text, its notes and header texts in their order, its styles, what is
/// carried along unread, and the bookmarks of its main text. The main text changes through
/// `splice_main` and `replace_main` alone.
#[derive(Drop)]
pub struct Document {
    pub main: Items,
    pub notes: Texts,
    pub heads: Texts,
    pub sheet: StyleSheet,
    pub carried: Carried,
    pub bookmarks: Bookmarks,
}

impl Document {
    /// A copy of the document, which shares its maps and styles.
    pub fn copy(&self, alloc: Global) -> Result<Document, Memory>
        ensures { IfOk result (λ copy. copy ≡ self.now) }
    {
        let texts = copy_texts(alloc, &self.main, &self.notes, &self.heads)?;
        let others = copy_others(alloc, &self.sheet, &self.carried, &self.bookmarks)?;
        Ok(texts.document(others))
    }

    /// Puts `fresh` in place of the items of the main text from `from` to before `to`. Each item is
    /// moved once, and the ends of the bookmarks go with the text.
    pub fn splice_main(&mut self, from: usize, to: usize, fresh: Items) -> Result<(), Memory>
        requires ordered { from ≤ to }
        requires within { to ≤ length self.old.main }
        requires few { length self.old.main + length fresh < 2 ^ 32 + (to - from) }
        requires starts { All (λ b. b.from ≤ length self.old.main) self.old.bookmarks }
        requires ends { All (λ b. b.to ≤ length self.old.main) self.old.bookmarks }
        ensures ok { OnOk result (self.new ≡ main_spliced from to fresh self.old) }
        ensures err { OnErr result (self.new ≡ self.old) }
    {
        let len = self.main.len();
        let count = fresh.len();
        self.main.splice(from, to, fresh)?;
        self.bookmarks.follow(from, to, count, len);
        Ok(())
    }

    /// Puts an item in place of another of the main text, and hands back the old one. It takes no
    /// memory.
    pub fn replace_main(&mut self, i: usize, item: Item) -> Item
        requires within { i < length self.old.main }
        requires maps { HasPropertyMaps item }
        ensures old { slice_get self.old.main i ≡ Some result }
        ensures new { self.new ≡ record self.old { main = slice_set self.old.main i item } }
    {
        self.main.replace(i, item)
    }
}

/// Copies of the texts, which share their maps.
fn copy_texts(alloc: Global, main: &Items, notes: &Texts, heads: &Texts) -> Result<AllTexts, Memory>
    ensures main { IfOk result (λ texts. texts.main ≡ main.now) }
    ensures notes { IfOk result (λ texts. texts.notes ≡ notes.now) }
    ensures heads { IfOk result (λ texts. texts.heads ≡ heads.now) }
{
    let main = main.copy(alloc, 0, main.len())?;
    let notes = notes.copy(alloc, 0, notes.len())?;
    let heads = heads.copy(alloc, 0, heads.len())?;
    Ok(AllTexts { main, notes, heads })
}

/// The parts of a document beside its texts.
#[derive(Drop)]
pub struct OtherParts {
    pub sheet: StyleSheet,
    pub carried: Carried,
    pub bookmarks: Bookmarks,
}

/// Copies of the other parts, which share their styles.
fn copy_others(
    alloc: Global,
    sheet: &StyleSheet,
    carried: &Carried,
    bookmarks: &Bookmarks,
) -> Result<OtherParts, Memory>
    ensures sheet { IfOk result (λ others. others.sheet ≡ sheet.now) }
    ensures carried { IfOk result (λ others. others.carried ≡ carried.now) }
    ensures bookmarks { IfOk result (λ others. others.bookmarks ≡ bookmarks.now) }
{
    let sheet = sheet.copy(alloc)?;
    let bookmarks = bookmarks.copy(alloc, 0, bookmarks.len())?;
    let carried = carried.copy(alloc)?;
    Ok(OtherParts {
        sheet,
        carried,
        bookmarks,
    })
}

/// The texts of a document.
#[derive(Drop)]
pub struct AllTexts {
    pub main: Items,
    pub notes: Texts,
    pub heads: Texts,
}

impl AllTexts {
    /// The document that these texts and the other parts make.
    pub fn document(self, others: OtherParts) -> Document
        ensures { result ≡ record {
          main = self.main;
          notes = self.notes;
          heads = self.heads;
          sheet = others.sheet;
          carried = others.carried;
          bookmarks = others.bookmarks;
        } }
    {
        let AllTexts { main, notes, heads } = self;
        let OtherParts {
            sheet,
            carried,
            bookmarks,
        } = others;
        Document {
            main,
            notes,
            heads,
            sheet,
            carried,
            bookmarks,
        }
    }
}

/// Whether two documents are the same in all parts. It takes no memory.
pub fn equal(a: &Document, b: &Document) -> bool
    ensures { IsTrue result ↔ a.now ≡ b.now }
{
    a.main.equal(&b.main)
        && a.notes.equal(&b.notes)
        && a.heads.equal(&b.heads)
        && a.sheet.equal(&b.sheet)
        && a.carried.equal(&b.carried)
        && a.bookmarks.equal(&b.bookmarks)
}
