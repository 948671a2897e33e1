// The three stories of a text that is edited, by their numbers of items, and how a range of a story's items is in
// the whole text.
ghost use Rattle.std.specs.Prelude.{◌≡◌, ◌+◌, ◌-◌, ◌^◌, ◌<◌, ◌≤◌, List, length};
ghost use Rattle.doc_model.specs.declared.item.Item.{Item as TextItem};
ghost use Rattle.doc_model.specs.Collected.{joined_texts};
ghost use Rattle.save_laws.specs.Slots.{Slot, loose_if};
ghost use Rattle.session_text.specs.StoryMarks.{nth_text_begin};
ghost use Rattle.session_text.specs.TextSteps.{AreStories, IsStoryPlace, IsStoryCut, coming, going, ending};

use doc_columns::{ColumnDocument, ColumnTexts};
use save_laws::Ends;

/// The numbers of items of the main text, of the notes and of the header texts, and the marks behind the latter two.
#[derive(Clone, Copy)]
pub(crate) struct Stories {
    pub(crate) main: u32,
    pub(crate) notes: u32,
    pub(crate) heads: u32,
    pub(crate) ends: Ends,
}

impl Stories {
    /// Those of a document.
    pub(crate) fn of(document: &ColumnDocument, ends: Ends) -> Stories
        requires main { length document.now.main < 2 ^ 32 }
        requires notes { length (joined_texts document.now.notes) < 2 ^ 32 }
        requires heads { length (joined_texts document.now.heads) < 2 ^ 32 }
        ensures stories { AreStories document.now result }
        ensures ends { result.ends ≡ ends }
    {
        let main = document.main.len();
        let notes = items_of(&document.notes);
        let heads = items_of(&document.heads);
        Stories {
            main: main as u32,
            notes: notes as u32,
            heads: heads as u32,
            ends,
        }
    }
}

/// A story in the whole text: the CP where it begins, its items, whether a mark is behind it, and whether the other
/// story has slots.
#[derive(Clone, Copy)]
pub(crate) struct StoryPlace {
    pub(crate) begin: u32,
    pub(crate) items: u32,
    pub(crate) end: bool,
    pub(crate) others: bool,
}

/// A range of a story's items as a range of CPs, with the marks behind it that go; the marks that come; and whether a
/// mark is behind the story after that.
#[derive(Clone, Copy)]
pub(crate) struct StoryCut {
    pub(crate) from: u32,
    pub(crate) to: u32,
    pub(crate) marks: usize,
    pub(crate) end: bool,
}

impl StoryPlace {
    /// The cut of a range of the story's items, in place of which so many items come.
    pub(crate) fn cut(self, from: u32, to: u32, fresh: u32) -> StoryCut
        requires order { from ≤ to }
        requires within { to ≤ self.items }
        requires few { self.begin + (self.items + (fresh + 2)) < 2 ^ 32 }
        ensures { (items new : List TextItem) (other : List Slot) → IsStoryPlace self items other →
            length new + (to - from) ≡ length items + fresh → IsStoryCut self items new other from to result }
    {
        let before = self.items > 0;
        let after = self.items - (to - from) + fresh > 0;
        StoryCut {
            from: self.begin + from,
            to: self.begin + (to + marks_going(before, after, self.end, self.others)),
            marks: marks_coming(before, after, self.end, self.others),
            end: end_behind(before, after, self.end),
        }
    }
}

/// How many marks come behind a story, by whether it has items before and after, a mark behind it, and slots of the
/// other story.
fn marks_coming(before: bool, after: bool, end: bool, others: bool) -> usize
    ensures { result ≡ coming before after end others }
{
    match (before, after, end, others) {
        (false, true, false, true) => 1,
        (false, true, false, false) => 2,
        _ => 0,
    }
}

/// How many marks behind a story go.
fn marks_going(before: bool, after: bool, end: bool, others: bool) -> u32
    ensures value { result ≡ going before after end others }
    ensures few { result ≤ 2 }
{
    match (before, after, end, others) {
        (true, false, false, false) => 1,
        (true, false, true, true) => 1,
        (true, false, true, false) => 2,
        _ => 0,
    }
}

/// Whether a mark is behind a story after a change.
fn end_behind(before: bool, after: bool, end: bool) -> bool
    ensures { result ≡ ending before after end }
{
    if before == after { end } else { after }
}

/// The number of items of the first texts.
pub(crate) fn begin_of_text(texts: &ColumnTexts, number: usize) -> usize
    requires within { number ≤ length texts.now }
    requires few { length (joined_texts texts.now) < 2 ^ 32 }
    ensures begin { result ≡ nth_text_begin texts.now number }
    ensures within { result ≤ length (joined_texts texts.now) }
{
    let mut begin = 0;
    for k in 0..number {
        begin += texts.get(k).len();
    }
    begin
}

/// The number of items of texts.
fn items_of(texts: &ColumnTexts) -> usize
    requires { length (joined_texts texts.now) < 2 ^ 32 }
    ensures { result ≡ length (joined_texts texts.now) }
{
    begin_of_text(texts, texts.len())
}

/// The number of CPs of a story: those of its items, and that of the mark behind it.
pub(crate) fn slots_of(items: u32, end: bool) -> u32
    requires { items < 2 ^ 32 - 1 }
    ensures count { result ≡ items + length (loose_if end) }
    ensures few { result ≤ items + 1 }
{
    if end { items + 1 } else { items }
}
