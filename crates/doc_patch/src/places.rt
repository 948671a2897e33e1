// Places of a text by columns that commands speak of, found run by run. No call takes memory.
ghost use Rattle.std.specs.Prelude.{◌≡◌, ◌^◌, ◌≤◌, ◌<◌, ◌↔◌, length, map, take, Some, None};
ghost use Rattle.std.specs.Prelude.{IsTrue, IsSome, MatchOption, slice_get, replicate, true, ⊤};
ghost use Rattle.std.specs.List.{count_by};
ghost use Rattle.std.specs.Option.{option_and_then};
ghost use Rattle.run_lists.specs.Spread.{expanded, total_len};
ghost use Rattle.doc_columns.specs.Attached.{attached_of};
ghost use Rattle.plain_doc.specs.RulesOfSheet.{section_count};
ghost use Rattle.doc_patch.specs.Places.{HasText};
ghost use Rattle.doc_patch.specs.Places.{story_text, mark_place as place_of_mark, paragraph_mark_at as mark_there};
ghost use Rattle.doc_patch.specs.Places.{section_place as place_of_section, section_around as section_there};
ghost use Rattle.doc_patch.specs.Places.{note_number as number_of_note, head_number as number_of_head};
ghost use Rattle.doc_patch.specs.Parts.{has_part as is_there, IsFirstWithPart};

use doc_bits::Story;
use doc_columns::{Attached, ColumnDocument, ColumnTexts, Columns};
use plain_doc::{HEADERS_PER_SECTION, Mark, SEPARATORS};
use prop_map::PropMap;
use run_lists::{Cursor, Run, find, seek};

/// What may be beside a unit.
#[derive(Clone, Copy)]
pub(crate) enum Part {
    /// A note that is referred to.
    Note,
    /// What ends a paragraph.
    Mark,
    /// What ends a section.
    Section,
}

/// Whether the part is there.
fn has_part(attached: &Attached, part: Part) -> bool
    ensures { result ≡ is_there part attached.now }
{
    match part {
        Part::Note => attached.note.is_some(),
        Part::Mark => attached.mark.is_some(),
        Part::Section => attached.sect.is_some(),
    }
}

/// Whether the run has units, and beside them the part is there.
fn shows(run: &Run<Attached>, part: Part) -> bool
    ensures { IsTrue result ↔ (0 < run.now.count) × (is_there part run.now.value ≡ true) }
{
    run.count > 0 && has_part(&run.value, part)
}

/// The place of the first unit from a place on beside which the part is there, or the end.
fn first_place(runs: &[Run<Attached>], at: usize, part: Part) -> usize
    requires within { at ≤ total_len runs.now }
    requires few { total_len runs.now < 2 ^ 32 }
    ensures { IsFirstWithPart part (expanded runs.now) at result }
{
    let spot = find(runs, 0, at);
    let mut begin = at - spot.left;
    for number in spot.run..runs.len() {
        let run = &runs[number];
        if shows(run, part) {
            return at.max(begin);
        }
        begin += run.count as usize;
    }
    begin
}

/// Beside how many units before a place the part is there.
fn count_before(runs: &[Run<Attached>], at: usize, part: Part) -> usize
    requires { at ≤ total_len runs.now }
    ensures count { result ≡ count_by (is_there part) (take at (expanded runs.now)) }
    ensures few { result ≤ at }
{
    let mut count = 0;
    let mut left = at;
    for run in runs {
        let some = left.min(run.count as usize);
        count += count_within(&run.value, some, part);
        left -= some;
    }
    count
}

/// Beside how many of so many units with this beside them the part is there.
fn count_within(attached: &Attached, count: usize, part: Part) -> usize
    ensures count { result ≡ count_by (is_there part) (replicate count attached.now) }
    ensures few { result ≤ count }
{
    if has_part(attached, part) { count } else { 0 }
}

/// What is beside the unit at the place, where there is one.
fn attached_at(text: &Columns, place: usize) -> Option<&Attached>
    ensures { MatchOption result
        (slice_get (map attached_of text.now) place ≡ None)
        (λ attached. slice_get (map attached_of text.now) place ≡ Some attached.now) }
{
    if place >= text.len() {
        return None;
    }
    let mut cursor = Cursor::new();
    Some(seek(text.attachments(), &mut cursor, place))
}

/// Whether the item at the place has a mark.
pub fn has_mark(text: &Columns, place: usize) -> bool
    ensures { IsTrue result ↔ IsSome (option_and_then (λ item. item.mark) (slice_get text.now place)) }
{
    match attached_at(text, place) {
        None => false,
        Some(attached) => attached.mark.is_some(),
    }
}

/// Whether the item at the place ends a section.
pub fn has_section(text: &Columns, place: usize) -> bool
    ensures { IsTrue result ↔ IsSome (option_and_then (λ item. item.sect) (slice_get text.now place)) }
{
    match attached_at(text, place) {
        None => false,
        Some(attached) => attached.sect.is_some(),
    }
}

/// The properties of the item at the place, where there is one.
pub fn chp_at(text: &Columns, place: usize) -> Option<&PropMap>
    ensures { MatchOption result
        (slice_get (map (λ item. item.chp) text.now) place ≡ None)
        (λ chp. slice_get (map (λ item. item.chp) text.now) place ≡ Some chp.now) }
{
    if place >= text.len() {
        return None;
    }
    let mut cursor = Cursor::new();
    Some(seek(text.chps(), &mut cursor, place))
}

/// The text of this name, where it is there.
pub fn find_text(document: &ColumnDocument, story: Story) -> Option<&Columns>
    ensures { MatchOption result
        (story_text document.now story ≡ None)
        (λ text. story_text document.now story ≡ Some text.now) }
{
    match story {
        Story::Main => Some(&document.main),
        Story::Note(number) => entry_of(&document.notes, number),
        Story::Head(number) => entry_of(&document.heads, number),
    }
}

/// The text of this number, where it is there.
fn entry_of(texts: &ColumnTexts, number: u32) -> Option<&Columns>
    ensures { MatchOption result
        (slice_get texts.now number ≡ None)
        (λ text. slice_get texts.now number ≡ Some text.now) }
{
    if (number as usize) < texts.len() {
        Some(texts.get(number as usize))
    } else {
        None
    }
}

/// The text of this name, which is there.
pub fn text_of(document: &ColumnDocument, story: Story) -> &Columns
    requires { HasText document.now story (λ _. ⊤) }
    ensures { story_text document.now story ≡ Some result.now }
{
    match story {
        Story::Main => &document.main,
        Story::Note(number) => document.notes.get(number as usize),
        Story::Head(number) => document.heads.get(number as usize),
    }
}

/// The place of the first item with a mark, from a place on, or the end of the text.
pub fn mark_place(text: &Columns, at: usize) -> usize
    requires { at ≤ length text.now }
    ensures place { result ≡ place_of_mark text.now at }
    ensures within { result ≤ length text.now }
    ensures short { result < 2 ^ 32 }
{
    let _len = text.len();
    first_place(text.attachments(), at, Part::Mark)
}

/// The mark of the paragraph that holds the place.
pub fn mark_at(text: &Columns, at: usize) -> Option<&Mark>
    requires within { at ≤ length text.now }
    ensures { MatchOption result
        (mark_there text.now at ≡ None)
        (λ mark. mark_there text.now at ≡ Some mark.now) }
{
    match attached_at(text, mark_place(text, at)) {
        None => None,
        Some(attached) => attached.mark.as_ref(),
    }
}

/// The place of the first item that ends a section, from a place on, or the end of the text.
pub fn section_place(main: &Columns, at: usize) -> usize
    requires { at ≤ length main.now }
    ensures place { result ≡ place_of_section main.now at }
    ensures within { result ≤ length main.now }
{
    let _len = main.len();
    first_place(main.attachments(), at, Part::Section)
}

/// The properties of the section that holds the place.
pub fn section_at(main: &Columns, at: usize) -> Option<&PropMap>
    requires within { at ≤ length main.now }
    ensures { MatchOption result
        (section_there main.now at ≡ None)
        (λ map. section_there main.now at ≡ Some map.now) }
{
    match attached_at(main, section_place(main, at)) {
        None => None,
        Some(attached) => attached.sect.as_ref(),
    }
}

/// The number of the first note that is referred to from a place on.
pub fn note_number(main: &Columns, at: usize) -> usize
    requires { at ≤ length main.now }
    ensures { result ≡ number_of_note main.now at }
{
    count_before(main.attachments(), at, Part::Note)
}

/// The number of sections that end before a place.
pub fn section_number(main: &Columns, at: usize) -> usize
    requires { at ≤ length main.now }
    ensures number { result ≡ section_count (take at main.now) }
    ensures few { result ≤ at }
{
    count_before(main.attachments(), at, Part::Section)
}

/// The number of the first header text of the section that holds a place.
pub fn head_number(main: &Columns, at: usize) -> usize
    requires { at ≤ length main.now }
    ensures { result ≡ number_of_head main.now at }
{
    let _len = main.len();
    SEPARATORS + HEADERS_PER_SECTION * section_number(main, at)
}
