// What an edit changes. After want of memory a list is what it was.
ghost use Rattle.std.specs.Prelude.{◌≡◌, ◌<◌, [], ◌∷◌, ◌++◌, length, slice_get, Some, OnOk, OnErr};

use doc_bits::{Memory, Story};
use doc_columns::{ColumnTexts, Columns};
use doc_parts::Bookmarks;
use prop_map::{Modifier, PropMap};
use std::alloc::Global;
use std::marker::Model;

/// A change of a document. Ranges are from the first number to before the second.
#[derive(Drop)]
pub enum Change {
    /// Puts items in place of a range of a text.
    SpliceText(Story, usize, usize, Columns),
    /// Acts with a modifier on each item of a range of a text.
    ModifyItems(Story, usize, usize, Modifier),
    /// Sets codes of the section that ends at this item of the main text.
    SetSection(usize, PropMap),
    /// Puts notes in place of a range of the notes.
    SpliceNotes(usize, usize, ColumnTexts),
    /// Puts header texts in place of a range of them.
    SpliceHeads(usize, usize, ColumnTexts),
    /// Sets character codes of a style.
    SetStyleCharacters(u16, PropMap),
    /// Sets paragraph codes of a style.
    SetStyleParagraphs(u16, PropMap),
    /// Puts a list of bookmarks in place of all.
    SetBookmarks(Bookmarks),
}

/// The changes of an edit, in the order in which they are made.
#[derive(Drop)]
pub struct Changes {
    changes: Vec<Change>,
}

impl Model for Changes {
    ghost use Rattle.std.specs.Prelude.{List};
    ghost use Rattle.std.specs.Coded.{coded_list};
    ghost use Rattle.doc_patch.specs.declared.changes.Change.{Change};
    ghost use Rattle.doc_patch.specs.contracts.changes.Change as row;

    ghost Value = { List Change };

    ghost coded = { coded_list row.the_row.coded };

    ghost view = { λ c. c.changes.items };
}

impl Changes {
    pub fn new(alloc: Global) -> Changes
        ensures { result ≡ [] }
    {
        Changes {
            changes: Vec::new(alloc),
        }
    }

    /// The number of changes.
    pub fn len(&self) -> usize
        ensures { result ≡ length self.now }
    {
        self.changes.len()
    }

    pub fn get(&self, i: usize) -> &Change
        requires { i < length self.now }
        ensures { slice_get self.now i ≡ Some result.now }
    {
        &self.changes[i]
    }

    /// Puts a change last.
    pub fn add(&mut self, change: Change) -> Result<(), Memory>
        ensures ok { OnOk result (self.new ≡ self.old ++ change ∷ []) }
        ensures err { OnErr result (self.new ≡ self.old) }
    {
        self.changes.push(change)?;
        Ok(())
    }
}
