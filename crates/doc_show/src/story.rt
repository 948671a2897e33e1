// The lines that show a text. They are made run by run: no item is put together.
ghost use Rattle.std.specs.Prelude.{◌≡◌, ℕ, ◌+◌, ◌-◌, ◌<◌, ◌≤◌, ◌++◌, ◌&&◌, true, false};
ghost use Rattle.std.specs.Prelude.{length, slice_get, slice_range, Some, OnOk};
ghost use Rattle.std.specs.List.{flat_map};
ghost use Rattle.doc_model.specs.declared.item.Item.{Item};
ghost use Rattle.doc_model.specs.Stretches.{stretches};
ghost use Rattle.doc_model.specs.Settings.{same_properties};
ghost use Rattle.doc_columns.specs.Attached.{attached_of};
ghost use Rattle.doc_columns.specs.Walks.{items_in, AreFullParts, IsColumnWalk};
ghost use Rattle.doc_show.specs.Story.{is_one_run, item_word, mark_line};
ghost use Rattle.doc_show.specs.Story.{run_line, sect_line, story_lines};
ghost use Rattle.doc_show.specs.Walks.{is_unattached, alike_line};

use crate::shown_maps::ShownMaps;
use doc_bits::{Memory, Text};
use doc_columns::{Alike, Attached, Columns, Parts, Walk, alike_from, paragraph_end};
use plain_doc::{Mark, NoteKind, has_same_properties};
use prop_map::PropMap;
use run_lists::{Cursor, seek};
use std::alloc::Global;
use text_codes::{push_byte, show_units};

/// Appends the lines of a text. After want of memory a part of them may be there, as with each call here. It is linear
/// in the units and the runs.
pub(crate) fn push_story(alloc: Global, text: &mut Text, columns: &Columns) -> Result<(), Memory>
    ensures { OnOk result (text.new ≡ text.old ++ story_lines columns.now) }
{
    let parts = columns.parts();
    push_paragraphs(alloc, text, &parts)
}

/// Appends the lines of paragraphs: of each its mark, its runs, and the section that ends with it.
fn push_paragraphs(alloc: Global, text: &mut Text, parts: &Parts<'_>) -> Result<(), Memory>
    requires { AreFullParts parts.now }
    ensures { OnOk result (text.new ≡ text.old ++ story_lines (items_in parts.now)) }
{
    let mut maps = ShownMaps::new(alloc);
    let mut walk = Walk::new();
    let mut marks = Cursor::new();
    let mut at = 0;
    while at < parts.units.len() {
        let end = paragraph_end(parts.attachments, &mut marks, at, parts.units.len());
        let last = seek(parts.attachments, &mut marks, end - 1);
        push_mark(&mut maps, text, &last.mark)?;
        push_runs(&mut maps, text, parts, &mut walk, at, end)?;
        push_sect(&mut maps, text, &last.sect)?;
        at = end;
    }
    Ok(())
}

/// Appends the line of a mark.
fn push_mark(maps: &mut ShownMaps, text: &mut Text, mark: &Option<Mark>) -> Result<(), Memory>
    ensures { OnOk result (text.new ≡ text.old ++ mark_line mark.now) }
{
    if let Some(mark) = mark {
        let alloc = maps.alloc;
        let istd = mark.istd;
        let word = format!(in alloc; "mark {istd}")?;
        text.push_all(word.as_str())?;
        maps.push(text, &mark.pap)?;
        text.push_all("\n")?;
    }
    Ok(())
}

/// Appends the line of a section.
fn push_sect(maps: &mut ShownMaps, text: &mut Text, sect: &Option<PropMap>) -> Result<(), Memory>
    ensures { OnOk result (text.new ≡ text.old ++ sect_line sect.now) }
{
    if let Some(sect) = sect {
        text.push_all("sect")?;
        maps.push(text, sect)?;
        text.push_all("\n")?;
    }
    Ok(())
}

/// Appends the lines of the runs of a paragraph, which is from `from` to before `end`.
fn push_runs(
    maps: &mut ShownMaps,
    text: &mut Text,
    parts: &Parts<'_>,
    walk: &mut Walk,
    from: usize,
    end: usize,
) -> Result<(), Memory>
    requires parts { AreFullParts parts.now }
    requires walk { IsColumnWalk parts.now walk.old from }
    requires ordered { from ≤ end }
    requires within { end ≤ length parts.now.units.now }
    ensures walk { OnOk result (IsColumnWalk parts.now walk.new end) }
    ensures lines { OnOk result (text.new ≡ text.old
        ++ flat_map run_line (stretches is_one_run (slice_range (items_in parts.now) from end))) }
{
    let mut at = from;
    while at < end {
        let first = alike_from(parts, walk, at);
        let until = run_end(parts, walk, &first, at, end);
        push_run(maps, text, &first, &parts.units[at..until])?;
        at = until;
    }
    Ok(())
}

/// Where the run of a place ends, which begins with items that have this in common, in a paragraph up to `end`.
fn run_end(parts: &Parts<'_>, walk: &mut Walk, first: &Alike<'_>, place: usize, end: usize) -> usize
    requires parts { AreFullParts parts.now }
    requires walk { IsColumnWalk parts.now walk.old place }
    requires some { place < first.now.end }
    requires before { place < end }
    requires within { end ≤ length parts.now.units.now }
    requires chps { (k : ℕ) (item : Item) → place ≤ k → k < first.now.end
        → slice_get (items_in parts.now) k ≡ Some item → item.chp ≡ first.now.chp.now }
    requires attachments { (k : ℕ) (item : Item) → place ≤ k → k < first.now.end
        → slice_get (items_in parts.now) k ≡ Some item → attached_of item ≡ first.now.attached.now }
    ensures walk { IsColumnWalk parts.now walk.new result }
    ensures some { place < result }
    ensures within { result ≤ end }
    ensures joined { (k : ℕ) (item next : Item) → place ≤ k → k + 1 < result
        → slice_get (items_in parts.now) k ≡ Some item → slice_get (items_in parts.now) (k + 1) ≡ Some next
        → is_one_run item next ≡ true }
    ensures ends { result < end → (item next : Item) → slice_get (items_in parts.now) (result - 1) ≡ Some item
        → slice_get (items_in parts.now) result ≡ Some next → is_one_run item next ≡ false }
{
    if !is_plain(first.attached) {
        return place + 1;
    }
    let mut until = first.end;
    while until < end {
        let next = alike_from(parts, walk, until);
        if !goes_on(first, &next) {
            return until;
        }
        until = next.end;
    }
    end
}

/// Whether a run goes on with what others have in common.
fn goes_on(first: &Alike<'_>, next: &Alike<'_>) -> bool
    ensures { result ≡ (is_unattached next.now.attached.now && same_properties first.now.chp.now next.now.chp.now) }
{
    is_plain(next.attached) && has_same_properties(first.chp, next.chp)
}

/// Whether there is no field character and no reference.
fn is_plain(attached: &Attached) -> bool
    ensures { result ≡ is_unattached attached.now }
{
    attached.fld.is_none() && attached.note.is_none()
}

/// Appends the line of a run, a field character or a reference: of these units, whose items begin
/// with what they have in common.
fn push_run(
    maps: &mut ShownMaps,
    text: &mut Text,
    first: &Alike<'_>,
    units: &[u16],
) -> Result<(), Memory>
    ensures { OnOk result (text.new ≡ text.old
        ++ alike_line first.now.attached.now first.now.chp.now units.now) }
{
    push_item_word(text, &first.attached.fld, &first.attached.note)?;
    maps.push(text, first.chp)?;
    text.push_all(" | ")?;
    let shown = show_units(maps.alloc, units)?;
    text.push_all(shown.as_str())?;
    text.push_all("\n")
}

/// Appends what is before the properties of an item.
fn push_item_word(text: &mut Text, fld: &Option<u8>, note: &Option<NoteKind>) -> Result<(), Memory>
    ensures { OnOk result (text.new ≡ text.old ++ item_word fld.now note.now) }
{
    match fld {
        Some(byte) => {
            text.push_all("fld ")?;
            push_byte(text, *byte)
        }
        None => match note {
            None => text.push_all("run"),
            Some(NoteKind::Auto) => text.push_all("note auto"),
            Some(NoteKind::Custom) => text.push_all("note custom"),
        },
    }
}
