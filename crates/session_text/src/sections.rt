// Where the properties of sections are, while the main text changes. No place: they are still to be written.
ghost use Rattle.std.specs.Prelude.{◌≡◌, ◌<◌, ◌++◌, length, replicate, take, slice_get, None, IfOk, OnOk};
ghost use Rattle.std.specs.Option.{option_and_then};
ghost use Rattle.plain_doc.specs.RulesOfSheet.{section_count};
ghost use Rattle.session_text.specs.SessionText.{section_properties};
ghost use Rattle.session_text.specs.SectionPlans.{spliced_plan, set_plan, plan_after, FitsPlan};
ghost use Rattle.session_text.specs.TextSteps.{IsRangeOf};
ghost use Rattle.session_text.specs.EditSteps.{AreEditSteps};
ghost use Rattle.session_text.specs.TextEdits.{IsSectionsEdit};

use doc_bits::{Memory, Story};
use doc_columns::{ColumnDocument, Columns};
use doc_patch::{Change, Changes, has_section, section_number};
use std::alloc::Global;

/// The places after the changes of a command.
pub(crate) fn sections_after(
    alloc: Global,
    places: &[Option<u32>],
    document: &ColumnDocument,
    changes: &Changes,
) -> Result<Vec<Option<u32>>, Memory>
    requires steps { AreEditSteps document.now changes.now }
    requires count { length places.now ≡ length (section_properties document.now.main) }
    ensures { IfOk result (λ new. IsSectionsEdit document.now changes.now places.now new.items) }
{
    let mut new = Vec::new(alloc);
    new.extend_from_slice(places)?;
    for k in 0..changes.len() {
        new = section_step(alloc, new, &document.main, changes.get(k))?;
    }
    Ok(new)
}

/// The places after a change.
fn section_step(
    alloc: Global,
    places: Vec<Option<u32>>,
    main: &Columns,
    change: &Change,
) -> Result<Vec<Option<u32>>, Memory>
    requires { FitsPlan main.now places.items change.now }
    ensures { IfOk result (λ new. new.items ≡ plan_after main.now places.items change.now) }
{
    match change {
        Change::SpliceText(Story::Main, from, to, fresh) => {
            splice_places(alloc, &places, main, (*from, *to), fresh)
        }
        Change::SpliceText(Story::Note(_), _, _, _) => Ok(places),
        Change::SpliceText(Story::Head(_), _, _, _) => Ok(places),
        Change::SetSection(at, _) => Ok(unwritten_at(places, main, *at)),
        Change::ModifyItems(_, _, _, _) => Ok(places),
        Change::SpliceNotes(_, _, _) => Ok(places),
        Change::SpliceHeads(_, _, _) => Ok(places),
        Change::SetStyleCharacters(_, _) => Ok(places),
        Change::SetStyleParagraphs(_, _) => Ok(places),
        Change::SetBookmarks(_) => Ok(places),
    }
}

/// The places after a splice of the main text.
fn splice_places(
    alloc: Global,
    places: &[Option<u32>],
    main: &Columns,
    range: (usize, usize),
    fresh: &Columns,
) -> Result<Vec<Option<u32>>, Memory>
    requires range { IsRangeOf range.0 range.1 main.now }
    requires count { length places.now ≡ section_count main.now }
    ensures { IfOk result (λ new. new.items ≡ spliced_plan main.now places.now range.0 range.1 fresh.now) }
{
    let from = section_number(main, range.0);
    let to = section_number(main, range.1);
    let mut new = Vec::new(alloc);
    new.extend_from_slice(&places[..from])?;
    put_unwritten(&mut new, section_number(fresh, fresh.len()))?;
    new.extend_from_slice(&places[to..])?;
    Ok(new)
}

/// The places where the properties of the section that ends at an item are set.
fn unwritten_at(mut places: Vec<Option<u32>>, main: &Columns, at: usize) -> Vec<Option<u32>>
    requires within { at < length main.now }
    requires count { length places.items ≡ section_count main.now }
    ensures { result.items ≡ set_plan places.items (section_count (take at main.now))
        (option_and_then (λ item. item.sect) (slice_get main.now at)) }
{
    if has_section(main, at) {
        let number = section_number(main, at);
        places[number] = None;
    }
    places
}

/// Puts so many sections last whose properties are still to be written.
fn put_unwritten(places: &mut Vec<Option<u32>>, count: usize) -> Result<(), Memory>
    ensures { OnOk result (places.new.items ≡ places.old.items ++ replicate count None) }
{
    for _k in 0..count {
        places.push(None)?;
    }
    Ok(())
}
