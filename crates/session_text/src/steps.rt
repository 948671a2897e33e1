// What a change of the document is for its whole text: a block of items in place of a range of CPs.
ghost use Rattle.std.specs.Prelude.{◌≡◌, ◌+◌, ◌^◌, ◌<◌, ◌≤◌, List, [], length};
ghost use Rattle.doc_model.specs.declared.item.Item.{Item as TextItem};
ghost use Rattle.doc_model.specs.declared.document.Document.{Document as TheDocument};
ghost use Rattle.doc_model.specs.Marks.{main_spliced};
ghost use Rattle.session_text.specs.StoryMarks.{AreSplicedTexts};
ghost use Rattle.session_text.specs.TextSteps.{AreStories, IsTextStep};

use crate::stories::{Stories, StoryPlace, slots_of};
use doc_columns::Columns;
use save_laws::Ends;
use std::alloc::Global;

/// A block of items, with so many marks behind them, in place of a range of CPs, and the stories after that.
#[derive(Drop)]
pub(crate) struct TextStep {
    pub(crate) from: u32,
    pub(crate) to: u32,
    pub(crate) items: Columns,
    pub(crate) marks: usize,
    pub(crate) after: Stories,
}

/// The step of a change that leaves the text as it is.
pub(crate) fn no_step(alloc: Global, stories: Stories) -> TextStep
    ensures step { result ≡ record { from = 0; to = 0; items = []; marks = 0; after = stories } }
{
    TextStep {
        from: 0,
        to: 0,
        items: Columns::new(alloc),
        marks: 0,
        after: stories,
    }
}

/// The step of a splice of the main text.
pub(crate) fn main_step(stories: Stories, from: usize, to: usize, fresh: Columns) -> TextStep
    requires order { from ≤ to }
    requires within { to ≤ stories.main }
    requires few { stories.main + length fresh < 2 ^ 32 }
    ensures step { (document : TheDocument) → AreStories document stories →
        IsTextStep document (main_spliced from to fresh document) stories.ends result }
    ensures items { result.items ≡ fresh }
{
    let count = fresh.len();
    TextStep {
        from: from as u32,
        to: to as u32,
        items: fresh,
        marks: 0,
        after: Stories {
            main: stories.main - (to - from) as u32 + count as u32,
            ..stories
        },
    }
}

/// The step of a splice of the items of the notes, one note after the other.
pub(crate) fn note_step(stories: Stories, from: usize, to: usize, fresh: Columns) -> TextStep
    requires order { from ≤ to }
    requires within { to ≤ stories.notes }
    requires few { stories.main + (stories.notes + (stories.heads + (length fresh + 3))) < 2 ^ 32 }
    ensures step { (document : TheDocument) (notes : List (List TextItem)) → AreStories document stories →
        AreSplicedTexts document.notes notes from to fresh →
        IsTextStep document (record document { notes = notes }) stories.ends result }
    ensures items { result.items ≡ fresh }
{
    let count = fresh.len();
    let heads = slots_of(stories.heads, stories.ends.heads);
    let place = StoryPlace {
        begin: stories.main,
        items: stories.notes,
        end: stories.ends.notes,
        others: heads > 0,
    };
    let cut = place.cut(from as u32, to as u32, count as u32);
    TextStep {
        from: cut.from,
        to: cut.to,
        items: fresh,
        marks: cut.marks,
        after: Stories {
            notes: stories.notes - (to - from) as u32 + count as u32,
            ends: Ends {
                notes: cut.end,
                heads: stories.ends.heads,
            },
            ..stories
        },
    }
}

/// The step of a splice of the items of the header texts, one text after the other.
pub(crate) fn head_step(stories: Stories, from: usize, to: usize, fresh: Columns) -> TextStep
    requires order { from ≤ to }
    requires within { to ≤ stories.heads }
    requires few { stories.main + (stories.notes + (stories.heads + (length fresh + 3))) < 2 ^ 32 }
    ensures step { (document : TheDocument) (heads : List (List TextItem)) → AreStories document stories →
        AreSplicedTexts document.heads heads from to fresh →
        IsTextStep document (record document { heads = heads }) stories.ends result }
    ensures items { result.items ≡ fresh }
{
    let count = fresh.len();
    let notes = slots_of(stories.notes, stories.ends.notes);
    let place = StoryPlace {
        begin: stories.main + notes,
        items: stories.heads,
        end: stories.ends.heads,
        others: notes > 0,
    };
    let cut = place.cut(from as u32, to as u32, count as u32);
    TextStep {
        from: cut.from,
        to: cut.to,
        items: fresh,
        marks: cut.marks,
        after: Stories {
            heads: stories.heads - (to - from) as u32 + count as u32,
            ends: Ends {
                notes: stories.ends.notes,
                heads: cut.end,
            },
            ..stories
        },
    }
}
