// Whether the texts of a document by columns break a rule on texts. Bare items are looked at by runs, the others one by
// one.
ghost use Rattle.std.specs.Prelude.{◌≡◌, ◌⊎◌, ◌+◌, ◌-◌, ◌<◌, ◌≤◌, [], length, slice_get, All};
ghost use Rattle.std.specs.Prelude.{Some, IsTrue, IfOk, IfSome, OnOk};
ghost use Rattle.prop_map.specs.Formed.{IsPropertyMap, character_groups};
ghost use Rattle.run_lists.specs.Spread.{expanded};
ghost use Rattle.run_lists.specs.Places.{IsAtRunBegin};
ghost use Rattle.plain_doc.specs.RulesOfItems.{IsShortChp};
ghost use Rattle.plain_doc.specs.RulesOfTexts.{IsHead};
ghost use Rattle.plain_doc.specs.TextWalk.{KeepsTextRules, AreValidTexts, HasTextCounts};
ghost use Rattle.doc_columns.specs.Specials.{IsPlainUnit};
ghost use Rattle.doc_columns.specs.Judging.{IsJudgedText, IsPassedTo, IsAttachedRun};

use crate::columns::item_with;
use crate::{Attached, ColumnTexts, Columns};
use doc_bits::{Memory, Where};
use plain_doc::{Counts, Item, MAX_CHPX_GRPPRL, Side, TextWalk, is_head};
use prop_map::PropMap;
use run_lists::{Cursor, Run, Shared, seek};
use std::alloc::Global;
use style_sheet::StyleSheet;
use text_codes::{PARAGRAPH_MARK, bare_len};

/// A text that is checked: its sheet, which text it is, and its units and the runs of their properties.
#[derive(Drop)]
pub(crate) struct JudgedText<'a> {
    pub(crate) sheet: &'a StyleSheet,
    pub(crate) part: Where,
    pub(crate) text: &'a Columns,
    pub(crate) units: &'a [u16],
    pub(crate) chps: &'a [Run<PropMap>],
}

/// Whether no text of a list is known to break a rule.
pub(crate) fn are_valid_texts(
    alloc: Global,
    sheet: &StyleSheet,
    side: Side,
    texts: &ColumnTexts,
) -> Result<bool, Memory>
    ensures { IfOk result (λ right. IsTrue right → AreValidTexts sheet.now side texts.now) }
{
    for k in 0..texts.len() {
        match right_counts(alloc, sheet, side.part(k as u32), texts.get(k))? {
            None => return Ok(false),
            Some(_) => {}
        }
    }
    Ok(true)
}

/// The counts of a text, where it is known to break no rule.
pub(crate) fn right_counts(
    alloc: Global,
    sheet: &StyleSheet,
    part: Where,
    text: &Columns,
) -> Result<Option<Counts>, Memory>
    ensures { IfOk result (λ found. IfSome found (λ counts.
        KeepsTextRules sheet.now part text.now × HasTextCounts text.now counts)) }
{
    let _len = text.len();
    let judged = JudgedText {
        sheet,
        part,
        text,
        units: text.units(),
        chps: text.chps(),
    };
    if !ends_right(part, judged.units) {
        return Ok(None);
    }
    if !are_short(judged.chps) {
        return Ok(None);
    }
    let counts = judged_counts(alloc, &judged)?;
    Ok(counts)
}

/// Whether the last unit is a paragraph mark, or there is none in a header text.
fn ends_right(part: Where, units: &[u16]) -> bool
    ensures { IsTrue result
        → (slice_get units.now (length units.now - 1) ≡ Some PARAGRAPH_MARK) ⊎ (IsHead part × (units.now ≡ [])) }
{
    if units.is_empty() {
        return is_head(part);
    }
    units[units.len() - 1] == PARAGRAPH_MARK
}

/// Whether all properties are short enough for a file.
fn are_short(chps: &[Run<PropMap>]) -> bool
    requires { All (IsPropertyMap character_groups) (expanded chps.now) }
    ensures { IsTrue result → All IsShortChp (expanded chps.now) }
{
    for run in chps {
        if !is_short_run(run) {
            return false;
        }
    }
    true
}

/// Whether the properties of a run are, where it has a value.
fn is_short_run(run: &Run<PropMap>) -> bool
    requires { 0 < run.now.count → IsPropertyMap character_groups run.now.value }
    ensures { IsTrue result → 0 < run.now.count → IsShortChp run.now.value }
{
    if run.count == 0 {
        return true;
    }
    run.value.printed_len() <= MAX_CHPX_GRPPRL
}

/// The counts of a text whose items are all passed.
fn judged_counts(alloc: Global, judged: &JudgedText<'_>) -> Result<Option<Counts>, Memory>
    requires { IsJudgedText judged.now }
    ensures { IfOk result (λ found. IfSome found (λ counts.
        KeepsTextRules judged.now.sheet.now judged.now.part judged.now.text.now
        × HasTextCounts judged.now.text.now counts)) }
{
    let mut walk = TextWalk::new();
    let mut cursor = Cursor::new();
    let mut place = 0;
    for run in judged.text.attachments() {
        if !pass_run(alloc, judged, &mut cursor, place, run, &mut walk)? {
            return Ok(None);
        }
        place += run.count as usize;
    }
    Ok(walk.counts())
}

/// Goes past the items of a run, where none of them is known to break a rule.
fn pass_run(
    alloc: Global,
    judged: &JudgedText<'_>,
    cursor: &mut Cursor,
    place: usize,
    run: &Run<Attached>,
    walk: &mut TextWalk,
) -> Result<bool, Memory>
    requires judged { IsJudgedText judged.now }
    requires run { IsAttachedRun judged.now.text.now place run.now }
    requires at { IsAtRunBegin judged.now.chps.now cursor.old }
    requires ahead { cursor.old.begin ≤ place }
    requires passed { IsPassedTo judged.now place walk.old }
    ensures at { OnOk result (IsAtRunBegin judged.now.chps.now cursor.new) }
    ensures ahead { OnOk result (cursor.new.begin ≤ place + run.now.count) }
    ensures passed { IfOk result (λ known. IsTrue known → IsPassedTo judged.now (place + run.now.count) walk.new) }
{
    if run.value.is_something() {
        let known = pass_items(alloc, judged, cursor, place, run, walk)?;
        return Ok(known);
    }
    Ok(are_plain(&judged.units[place..place + run.count as usize]))
}

/// Whether none of the units is that of a mark.
fn are_plain(units: &[u16]) -> bool
    ensures { IsTrue result → All IsPlainUnit units.now }
{
    bare_len(units) == units.len()
}

/// Goes past the items of a run one by one.
fn pass_items(
    alloc: Global,
    judged: &JudgedText<'_>,
    cursor: &mut Cursor,
    place: usize,
    run: &Run<Attached>,
    walk: &mut TextWalk,
) -> Result<bool, Memory>
    requires judged { IsJudgedText judged.now }
    requires run { IsAttachedRun judged.now.text.now place run.now }
    requires at { IsAtRunBegin judged.now.chps.now cursor.old }
    requires ahead { cursor.old.begin ≤ place }
    requires passed { IsPassedTo judged.now place walk.old }
    ensures at { OnOk result (IsAtRunBegin judged.now.chps.now cursor.new) }
    ensures ahead { OnOk result (cursor.new.begin ≤ place + run.now.count) }
    ensures passed { IfOk result (λ known. IsTrue known → IsPassedTo judged.now (place + run.now.count) walk.new) }
{
    let len = judged.units.len();
    for at in place..place + run.count as usize {
        let item = made_item(alloc, judged, cursor, place, run, at)?;
        if !walk.pass_marked(judged.sheet, judged.part, len, at, &item) {
            return Ok(false);
        }
    }
    Ok(true)
}

/// The item at a place of a run that begins at `place`. Its maps are shared.
fn made_item(
    alloc: Global,
    judged: &JudgedText<'_>,
    cursor: &mut Cursor,
    place: usize,
    run: &Run<Attached>,
    at: usize,
) -> Result<Item, Memory>
    requires judged { IsJudgedText judged.now }
    requires run { IsAttachedRun judged.now.text.now place run.now }
    requires at { IsAtRunBegin judged.now.chps.now cursor.old }
    requires ahead { cursor.old.begin ≤ at }
    requires from { place ≤ at }
    requires until { at < place + run.now.count }
    ensures at { OnOk result (IsAtRunBegin judged.now.chps.now cursor.new) }
    ensures ahead { OnOk result (cursor.new.begin ≤ at) }
    ensures item { IfOk result (λ item. slice_get judged.now.text.now at ≡ Some item) }
{
    let chp = seek(judged.chps, cursor, at).copy(alloc)?;
    let attached = run.value.copy(alloc)?;
    Ok(item_with(judged.units[at], chp, attached))
}
