// The rules on the numbers of texts and items.
ghost use Rattle.std.specs.Prelude.{◌≡◌, ◌+◌, ◌^◌, ◌<◌, ◌≤◌, length};
ghost use Rattle.std.specs.List.{sum_by};
ghost use Rattle.plain_doc.specs.RulesOfSheet.{note_count, section_count, item_count};
ghost use Rattle.plain_doc.specs.TextWalk.{HasTextCounts};

use crate::{Document, Item, Texts};

/// [MS-DOC] PlcfHdd: six texts separate notes.
pub const SEPARATORS: usize = 6;

/// [MS-DOC] PlcfHdd: each section has six headers and footers.
pub const HEADERS_PER_SECTION: usize = 6;

/// How many items of a text refer to notes, and how many end a section.
#[derive(Clone, Copy)]
pub struct Counts {
    pub notes: usize,
    pub sections: usize,
}

/// The counts of a text, by a walk for each.
pub(crate) fn counts_in(text: &[Item]) -> Counts
    requires { length text.now < 2 ^ 32 }
    ensures { HasTextCounts text.now result }
{
    Counts {
        notes: notes_in(text),
        sections: sections_in(text),
    }
}

/// How many items refer to notes.
pub fn notes_in(main: &[Item]) -> usize
    ensures { result ≡ note_count main.now }
{
    let mut count = 0;
    for item in main {
        if item.note.is_some() {
            count += 1;
        }
    }
    count
}

/// How many items end a section.
pub fn sections_in(main: &[Item]) -> usize
    ensures count { result ≡ section_count main.now }
    ensures few { result ≤ length main.now }
{
    let mut count = 0;
    for item in main {
        if item.sect.is_some() {
            count += 1;
        }
    }
    count
}

/// How many items all texts have. That many lengths fit 128 bits.
pub fn all_items(document: &Document) -> u128
    ensures { result ≡ item_count document.now }
{
    let beside = items_of(&document.notes) as u128 + items_of(&document.heads) as u128;
    document.main.len() as u128 + beside
}

/// How many items these texts have.
fn items_of(texts: &Texts) -> u64
    ensures { result ≡ sum_by length texts.now }
{
    let mut count = 0;
    for k in 0..texts.len() {
        count += texts.get(k).len() as u64;
    }
    count
}
