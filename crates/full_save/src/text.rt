// The text of a document, as runs: the main text, the notes and the header texts, with the marks behind
// stories.
ghost use Rattle.std.specs.Prelude.{◌≡◌, ◌+◌, ◌^◌, ◌<◌, ◌≤◌, List, [], ◌∷◌, length, nat_lt, OnOk, IfOk};
ghost use Rattle.doc_model.specs.Collected.{joined_texts};
ghost use Rattle.full_save.specs.Text.{extra_mark, mark_if, with_mark, text_items};
ghost use Rattle.full_save.specs.RunsSoFar.{IsTextSoFar, GoesOnBy, IsWholeText, IsSavedTextOf};
ghost use Rattle.doc_model.specs.declared.item.Item.{Item as TextItem};

use crate::runs::{CharacterRuns, ParagraphRuns, UNIT_LEN};
use doc_bits::Memory;
use doc_columns::{ColumnDocument, ColumnTexts, Columns};
use fkp_pages::{ChpRuns, PapRuns};
use plain_doc::Mark;
use prop_map::PropMap;
use std::alloc::Global;

/// Where the text begins in `WordDocument`.
pub const TEXT_START: u32 = 1024;

/// How many units a text has, its runs, and the counts of its stories.
#[derive(Drop)]
pub(crate) struct SavedText {
    pub(crate) len: u32,
    pub(crate) characters: ChpRuns,
    pub(crate) paragraphs: PapRuns,
    pub(crate) counts: [u32; 3],
}

/// The text of a document.
pub(crate) fn text_of(alloc: Global, document: &ColumnDocument) -> Result<SavedText, Memory>
    requires { length (text_items document.now) ≤ 500001 }
    ensures { IfOk result (IsSavedTextOf document.now) }
{
    let mut text = TextSoFar::new(alloc);
    text.push_text(&document.main)?;
    let main = text.len;
    text.push_story(&document.notes)?;
    let notes = text.len - main;
    text.push_story(&document.heads)?;
    let heads = text.len - main - notes;
    text.mark_behind(main)?;
    let text = text.finish([main, notes, heads])?;
    Ok(text)
}

/// How many units a text has so far, and its runs.
#[derive(Drop)]
struct TextSoFar {
    alloc: Global,
    len: u32,
    characters: CharacterRuns,
    paragraphs: ParagraphRuns,
}

impl TextSoFar {
    /// No text.
    fn new(alloc: Global) -> TextSoFar
        ensures { IsTextSoFar [] result }
    {
        TextSoFar {
            alloc,
            len: 0,
            characters: CharacterRuns::new(alloc, TEXT_START),
            paragraphs: ParagraphRuns::new(alloc, TEXT_START),
        }
    }

    /// Goes on by a text.
    fn push_text(&mut self, text: &Columns) -> Result<(), Memory>
        requires { self.old.len + length text.now < 2 ^ 30 }
        ensures text { OnOk result (GoesOnBy text.now self.old self.new) }
        ensures count { OnOk result (self.new.len ≡ self.old.len + length text.now) }
    {
        let at = TEXT_START + UNIT_LEN * self.len;
        self.characters.push_runs(self.alloc, text.chps(), at)?;
        self.paragraphs
            .push_runs(self.alloc, text.attachments(), at)?;
        self.len += text.len() as u32;
        Ok(())
    }

    /// Goes on by texts.
    fn push_texts(&mut self, texts: &ColumnTexts) -> Result<(), Memory>
        requires { self.old.len + length (joined_texts texts.now) < 2 ^ 30 }
        ensures text { OnOk result (GoesOnBy (joined_texts texts.now) self.old self.new) }
        ensures count { OnOk result (self.new.len ≡ self.old.len + length (joined_texts texts.now)) }
    {
        for k in 0..texts.len() {
            self.push_text(texts.get(k))?;
        }
        Ok(())
    }

    /// Goes on by the texts of a story, and a mark behind them where they have items.
    fn push_story(&mut self, texts: &ColumnTexts) -> Result<(), Memory>
        requires { self.old.len + length (joined_texts texts.now) + 1 < 2 ^ 30 }
        ensures text { OnOk result (GoesOnBy (with_mark (joined_texts texts.now)) self.old self.new) }
        ensures count { OnOk result (self.new.len ≡ self.old.len + length (with_mark (joined_texts texts.now))) }
    {
        let before = self.len;
        self.push_texts(texts)?;
        self.mark_behind(before)?;
        Ok(())
    }

    /// Goes on by a mark where units came behind the first `before`.
    fn mark_behind(&mut self, before: u32) -> Result<(), Memory>
        requires { self.old.len + 1 < 2 ^ 30 }
        ensures text { OnOk result (GoesOnBy (mark_if (nat_lt before self.old.len)) self.old self.new) }
        ensures count { OnOk result (self.new.len ≡ self.old.len + length (mark_if (nat_lt before self.old.len))) }
    {
        if before < self.len {
            self.push_mark()?;
            return Ok(());
        }
        Ok(())
    }

    /// Goes on by a mark of style 0 without properties.
    fn push_mark(&mut self) -> Result<(), Memory>
        requires { self.old.len + 1 < 2 ^ 30 }
        ensures text { OnOk result (GoesOnBy (extra_mark ∷ []) self.old self.new) }
        ensures count { OnOk result (self.new.len ≡ self.old.len + 1) }
    {
        let at = TEXT_START + UNIT_LEN * self.len;
        let none = PropMap::new(self.alloc);
        self.characters.push_run(self.alloc, &none, 1, at)?;
        let mark = Mark { istd: 0, pap: none };
        self.paragraphs.close(self.alloc, &mark, at + UNIT_LEN)?;
        self.len += 1;
        Ok(())
    }

    /// The whole text, with its counts.
    fn finish(self, counts: [u32; 3]) -> Result<SavedText, Memory>
        requires { self.len < 2 ^ 30 }
        ensures { IfOk result (λ text. (done : List TextItem) → IsTextSoFar done self → IsWholeText done counts text) }
    {
        let end = TEXT_START + UNIT_LEN * self.len;
        let TextSoFar {
            alloc,
            len,
            characters,
            paragraphs,
        } = self;
        Ok(SavedText {
            len,
            characters: characters.finish(end)?,
            paragraphs: paragraphs.finish(alloc, end)?,
            counts,
        })
    }
}
