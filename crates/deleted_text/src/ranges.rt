// The ranges of a document that a reviser deleted.
ghost use Rattle.std.specs.Prelude.{◌≡◌, ◌<◌, ◌≤◌, ◌++◌, ◌∷◌, [], ℕ, false, length, take, drop, slice_index_or, IfOk, OnOk};
ghost use Rattle.std.specs.List.{filter_map};
ghost use Rattle.deleted_text.specs.Ranges.{begins_at, run_end, range_at as found_at, text_ranges, texts_ranges};
ghost use Rattle.deleted_text.specs.Ranges.{begins_of, document_ranges};

use doc_bits::{Memory, Story, get32};
use doc_columns::{ColumnDocument, ColumnTexts};
use doc_mends::{DeletedRange, side_name};
use fib_form::{CCP_FTN, CCP_TEXT};
use plain_doc::Side;
use std::alloc::Global;

/// The CPs at which the stories of the notes and of the header texts begin.
#[derive(Clone, Copy)]
pub struct StoryBegins {
    pub notes: usize,
    pub heads: usize,
}

/// Where these stories of `WordDocument` begin.
pub fn story_begins(wd: &[u8]) -> StoryBegins
    requires { 84 ≤ length wd.now }
    ensures { result ≡ begins_of wd.now }
{
    let notes = get32(wd, CCP_TEXT) as usize;
    StoryBegins {
        notes,
        heads: notes + get32(wd, CCP_FTN) as usize,
    }
}

/// The ranges of a document whose items were deleted, by flags of its CPs.
pub fn deleted_ranges(
    alloc: Global,
    document: &ColumnDocument,
    begins: StoryBegins,
    flags: &[bool],
) -> Result<Vec<DeletedRange>, Memory>
    ensures { IfOk result (λ ranges. ranges.items ≡ document_ranges begins flags.now document.now) }
{
    let mut ranges = Vec::new(alloc);
    if !has_deleted(flags) {
        return Ok(ranges);
    }
    add_text(&mut ranges, Story::Main, front(flags, document.main.len()))?;
    add_texts(
        &mut ranges,
        Side::Notes,
        &document.notes,
        behind(flags, begins.notes),
    )?;
    add_texts(
        &mut ranges,
        Side::Heads,
        &document.heads,
        behind(flags, begins.heads),
    )?;
    Ok(ranges)
}

/// Whether one of the flags is set.
fn has_deleted(flags: &[bool]) -> bool
    ensures { result ≡ false → (k : ℕ) → slice_index_or flags.now k false ≡ false }
{
    for k in 0..flags.len() {
        if flags[k] {
            return true;
        }
    }
    false
}

/// The first so many flags.
fn front(flags: &[bool], count: usize) -> &[bool]
    ensures { result.now ≡ take count flags.now }
{
    &flags[..count.min(flags.len())]
}

/// The flags behind the first so many.
fn behind(flags: &[bool], count: usize) -> &[bool]
    ensures { result.now ≡ drop count flags.now }
{
    &flags[count.min(flags.len())..]
}

/// Appends the ranges of several texts, whose flags are one behind the other.
fn add_texts(
    ranges: &mut Vec<DeletedRange>,
    side: Side,
    texts: &ColumnTexts,
    flags: &[bool],
) -> Result<(), Memory>
    ensures { OnOk result (ranges.new.items ≡ ranges.old.items ++ texts_ranges side flags.now texts.now) }
{
    let mut left = flags;
    for number in 0..texts.len() {
        let len = texts.get(number).len();
        add_text(ranges, side_name(side, number), front(left, len))?;
        left = behind(left, len);
    }
    Ok(())
}

/// Appends the ranges of a text.
fn add_text(ranges: &mut Vec<DeletedRange>, story: Story, flags: &[bool]) -> Result<(), Memory>
    ensures { OnOk result (ranges.new.items ≡ ranges.old.items ++ text_ranges story flags.now) }
{
    for at in 0..flags.len() {
        add_found(range_at(story, flags, at), ranges)?;
    }
    Ok(())
}

/// Appends a range, where there is one.
fn add_found(found: Option<DeletedRange>, ranges: &mut Vec<DeletedRange>) -> Result<(), Memory>
    ensures { OnOk result (ranges.new.items ≡ ranges.old.items ++ filter_map (λ range. range) (found ∷ [])) }
{
    if let Some(range) = found {
        ranges.push(range)?;
    }
    Ok(())
}

/// The range that begins at a place, where one does.
fn range_at(story: Story, flags: &[bool], at: usize) -> Option<DeletedRange>
    requires { at < length flags.now }
    ensures { result ≡ found_at story flags.now at }
{
    if !begins(flags, at) {
        return None;
    }
    Some(DeletedRange {
        story,
        from: at,
        to: end_of(flags, at),
    })
}

/// Whether a range begins there.
fn begins(flags: &[bool], at: usize) -> bool
    requires { at < length flags.now }
    ensures { result ≡ begins_at flags.now at }
{
    flags[at] && (at == 0 || !flags[at - 1])
}

/// Where the range ends that begins there.
fn end_of(flags: &[bool], at: usize) -> usize
    requires { at ≤ length flags.now }
    ensures end { result ≡ run_end flags.now at }
{
    for end in at..flags.len() {
        if !flags[end] {
            return end;
        }
    }
    flags.len()
}
