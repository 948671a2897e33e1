// Which ranges can be struck.
ghost use Rattle.std.specs.Prelude.{◌≡◌, ◌^◌, ◌<◌, ◌≤◌, IfOk, OnOk, All, slice_range, ⊤};
ghost use Rattle.std.specs.List.{list_all};
ghost use Rattle.run_lists.specs.Spread.{expanded, total_len};
ghost use Rattle.run_lists.specs.Places.{IsAtRunBegin};
ghost use Rattle.prop_map.specs.Modifiers.{IsFormedModifier};
ghost use Rattle.prop_map.specs.Formed.{IsPropertyMap, character_groups};
ghost use Rattle.doc_patch.specs.Places.{HasText, items_at};
ghost use Rattle.doc_mends.specs.Mends.{strike as settings_of_strike, striking as modifier_of_strike, is_short};
ghost use Rattle.doc_mends.specs.Mends.{AreRanges};
ghost use Rattle.doc_mends.specs.Judging.{IsMendVerdict, AddsRange, IsChpWalk};

use crate::batches::{is_next, range_at};
use crate::mends::{DeletedRange, Mend};
use doc_bits::{Memory, Story};
use doc_columns::{ColumnDocument, Columns};
use doc_patch::{find_text, property_characters};
use prop_map::{Modifier, PropMap};
use run_lists::{Cursor, Run, value_until};
use sprm_table::Code;
use std::alloc::Global;

/// [MS-DOC] sprmCFStrike.
const STRIKE: Code = Code(0x0837);

/// The most bytes of the properties of characters, as they are printed.
const MAX_CHP: u64 = 255;

/// Ranges that are struck, and their mends, and ranges that stay as they are.
#[derive(Drop)]
pub(crate) struct Judged {
    pub(crate) mends: Vec<Mend>,
    pub(crate) struck: Vec<DeletedRange>,
    pub(crate) kept: Vec<DeletedRange>,
}

/// A walk over the runs of the properties of a text, which goes on from one range of the text to the next.
#[derive(Drop)]
pub(crate) struct ChpWalk<'a> {
    pub(crate) story: Story,
    pub(crate) runs: &'a [Run<PropMap>],
    pub(crate) cursor: Cursor,
}

/// The properties of a struck character.
fn strike(alloc: Global) -> Result<PropMap, Memory>
    ensures { IfOk result (λ set. set ≡ settings_of_strike) }
{
    let mut set = PropMap::new(alloc);
    set.set(STRIKE, &[1])?;
    Ok(set)
}

/// The modifier that strikes characters.
pub(crate) fn striking(alloc: Global) -> Result<Modifier, Memory>
    ensures is { IfOk result (λ modifier. modifier ≡ modifier_of_strike) }
    ensures formed { IfOk result (λ modifier. IsFormedModifier modifier) }
{
    let set = strike(alloc)?;
    let modifier = property_characters(alloc, &set)?;
    Ok(modifier)
}

/// Whether the properties of a character fit a page once it is struck.
fn stays_short(alloc: Global, chp: &PropMap, striking: &Modifier) -> Result<bool, Memory>
    requires striking { striking.now ≡ modifier_of_strike }
    requires formed { IsFormedModifier striking.now }
    requires chp { IsPropertyMap character_groups chp.now }
    ensures { IfOk result (λ short. short ≡ is_short chp.now) }
{
    let struck = striking.on_char(alloc, chp)?;
    Ok(struck.printed_len() <= MAX_CHP)
}

impl<'a> ChpWalk<'a> {
    /// At the start of a text.
    fn of(story: Story, text: &'a Columns) -> ChpWalk<'a>
        ensures walk { IsChpWalk text.now result }
        ensures story { result.story ≡ story }
        ensures start { result.cursor.begin ≡ 0 }
    {
        let _len = text.len();
        ChpWalk {
            story,
            runs: text.chps(),
            cursor: Cursor::new(),
        }
    }

    /// The walk that is not behind a range: this one, or one from the start of the range's text.
    fn toward(self, document: &'a ColumnDocument, range: DeletedRange) -> ChpWalk<'a>
        requires walk { IsChpWalk (items_at document.now self.story) self }
        requires there { HasText document.now range.story (λ _. ⊤) }
        ensures walk { IsChpWalk (items_at document.now range.story) result }
        ensures story { result.story ≡ range.story }
        ensures ahead { result.cursor.begin ≤ range.from }
    {
        if is_next(range, self.story, self.cursor.begin) {
            return self;
        }
        match find_text(document, range.story) {
            None => self,
            Some(text) => ChpWalk::of(range.story, text),
        }
    }
}

/// Whether all properties of a range do, to which the cursor goes.
fn range_stays_short(
    alloc: Global,
    runs: &[Run<PropMap>],
    cursor: &mut Cursor,
    range: DeletedRange,
    striking: &Modifier,
) -> Result<bool, Memory>
    requires at { IsAtRunBegin runs.now cursor.old }
    requires ahead { cursor.old.begin ≤ range.from }
    requires ordered { range.from ≤ range.to }
    requires within { range.to ≤ total_len runs.now }
    requires few { total_len runs.now < 2 ^ 32 }
    requires maps { All (IsPropertyMap character_groups) (expanded runs.now) }
    requires striking { striking.now ≡ modifier_of_strike }
    requires formed { IsFormedModifier striking.now }
    ensures at { OnOk result (IsAtRunBegin runs.now cursor.new) }
    ensures short { IfOk result (λ short.
        short ≡ list_all is_short (slice_range (expanded runs.now) range.from range.to)) }
{
    let mut at = range.from;
    while at < range.to {
        let (chp, end) = value_until(runs, cursor, at);
        if !stays_short(alloc, chp, striking)? {
            return Ok(false);
        }
        at = end;
    }
    Ok(true)
}

/// Checks the ranges of a document that a reviser deleted.
pub(crate) fn check(
    alloc: Global,
    document: &ColumnDocument,
    ranges: &[DeletedRange],
) -> Result<Judged, Memory>
    requires { AreRanges document.now ranges.now }
    ensures { IfOk result (IsMendVerdict document.now ranges.now) }
{
    let striking = striking(alloc)?;
    let mut judged = Judged {
        mends: Vec::new(alloc),
        struck: Vec::new(alloc),
        kept: Vec::new(alloc),
    };
    let mut walk = ChpWalk::of(Story::Main, &document.main);
    for k in 0..ranges.len() {
        let range = range_at(ranges, k);
        walk = walk.toward(document, range);
        let can = range_stays_short(alloc, walk.runs, &mut walk.cursor, range, &striking)?;
        judged.add(range, can)?;
    }
    Ok(judged)
}

impl Judged {
    /// Puts a range to those that are struck, or to those that stay.
    fn add(&mut self, range: DeletedRange, can: bool) -> Result<(), Memory>
        ensures { OnOk result (AddsRange range can self.old self.new) }
    {
        if can {
            self.struck.push(range)?;
            self.mends.push(Mend::StrikeDeleted(range))?;
        } else {
            self.kept.push(range)?;
        }
        Ok(())
    }
}
