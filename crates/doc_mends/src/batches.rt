// Ranges of one text, one behind the other.
ghost use Rattle.std.specs.Prelude.{◌≡◌, ◌↔◌, ◌<◌, length, slice_get, Some, IsTrue};
ghost use Rattle.doc_bits.specs.declared.places.Story.TheVariants.{Main, Note, Head};
ghost use Rattle.doc_mends.specs.Batches.{IsFirstBatch, IsNext};

use crate::mends::DeletedRange;
use doc_bits::Story;

/// Ranges of one text, each of which begins where the one before it ends, or behind.
#[derive(Drop)]
pub(crate) struct Batch<'a> {
    pub(crate) story: Story,
    pub(crate) ranges: &'a [DeletedRange],
}

/// As many of the first ranges as are such, one at least.
pub(crate) fn first_batch(ranges: &[DeletedRange]) -> Batch<'_>
    requires { 0 < length ranges.now }
    ensures { IsFirstBatch ranges.now result }
{
    let first = range_at(ranges, 0);
    let mut at = first.to;
    for k in 1..ranges.len() {
        let range = range_at(ranges, k);
        if !is_next(range, first.story, at) {
            return batch_of(first.story, &ranges[..k]);
        }
        at = range.to;
    }
    batch_of(first.story, ranges)
}

/// These ranges, which are of that text.
fn batch_of(story: Story, ranges: &[DeletedRange]) -> Batch<'_>
    ensures story { result.story ≡ story }
    ensures ranges { result.ranges.now ≡ ranges.now }
{
    Batch { story, ranges }
}

/// The range of that number.
pub(crate) fn range_at(ranges: &[DeletedRange], k: usize) -> DeletedRange
    requires { k < length ranges.now }
    ensures { slice_get ranges.now k ≡ Some result }
{
    ranges[k]
}

/// Whether a range of that text begins at a place, or behind.
pub(crate) fn is_next(range: DeletedRange, story: Story, at: usize) -> bool
    ensures { IsTrue result ↔ IsNext story at range }
{
    is_same(range.story, story) && at <= range.from
}

/// Whether both are the same text.
fn is_same(one: Story, other: Story) -> bool
    ensures { IsTrue result ↔ one ≡ other }
{
    match one {
        Story::Main => is_main(other),
        Story::Note(number) => is_note(other, number),
        Story::Head(number) => is_head(other, number),
    }
}

/// Whether it is the main text.
fn is_main(story: Story) -> bool
    ensures { IsTrue result ↔ Main ≡ story }
{
    match story {
        Story::Main => true,
        Story::Note(_) => false,
        Story::Head(_) => false,
    }
}

/// Whether it is the note of that number.
fn is_note(story: Story, number: u32) -> bool
    ensures { IsTrue result ↔ Note number ≡ story }
{
    match story {
        Story::Main => false,
        Story::Note(other) => other == number,
        Story::Head(_) => false,
    }
}

/// Whether it is the header text of that number.
fn is_head(story: Story, number: u32) -> bool
    ensures { IsTrue result ↔ Head number ≡ story }
{
    match story {
        Story::Main => false,
        Story::Note(_) => false,
        Story::Head(other) => other == number,
    }
}
