// Which stories of a file have a mark behind them.
ghost use Rattle.std.specs.Prelude.{◌≡◌, ◌^◌, ◌<◌, Bool, length};
ghost use Rattle.plain_doc.specs.Sound.{IsSound};
ghost use Rattle.doc_model.specs.Collected.{joined_texts};
ghost use Rattle.save_laws.specs.Slots.{StoryEnds, story_slots, story_counts};
ghost use Rattle.save_laws.specs.Ends.{ends_of};

use doc_columns::{ColumnDocument, ColumnTexts};
use fib_form::Fib;
use save_laws::Ends;

/// The marks behind the stories of a document: those have more CPs, by the FIB, than their texts have items.
pub(crate) fn ends_behind(document: &ColumnDocument, fib: &Fib) -> Ends
    requires { IsSound document.now }
    ensures { (ends : StoryEnds) → fib.now.ccps ≡ story_counts document.now ends → ends_of result ≡ ends }
{
    Ends {
        notes: has_end(&document.notes, fib.ccp(1)),
        heads: has_end(&document.heads, fib.ccp(2)),
    }
}

/// Whether a mark is behind the texts of a story of so many CPs.
fn has_end(texts: &ColumnTexts, count: u32) -> bool
    requires { length (joined_texts texts.now) < 2 ^ 32 }
    ensures { (end : Bool) → count ≡ length (story_slots texts.now end) → result ≡ end }
{
    count as usize > items_of(texts)
}

/// The number of items of all texts.
fn items_of(texts: &ColumnTexts) -> usize
    requires { length (joined_texts texts.now) < 2 ^ 32 }
    ensures { result ≡ length (joined_texts texts.now) }
{
    let mut count = 0;
    for k in 0..texts.len() {
        count += texts.get(k).len();
    }
    count
}
