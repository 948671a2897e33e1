// What a change makes of the runs of a text.
ghost use Rattle.std.specs.Prelude.{◌≡◌, ◌<◌, length, option_map, IfOk};
ghost use Rattle.std.specs.Option.{ForSome};
ghost use Rattle.prop_map.specs.Formed.{IsPropertyMap, StaysFormed, paragraph_groups, section_groups};
ghost use Rattle.prop_map.specs.Modifiers.{IsFormedModifier};
ghost use Rattle.prop_map.specs.Overlay.{overlay};
ghost use Rattle.doc_patch.specs.Places.{HasRange};
ghost use Rattle.doc_patch.specs.Changes.{changed_at, map_range, modified_item, modified_mark as mark_after};
ghost use Rattle.doc_patch.specs.Changes.{with_section};
ghost use Rattle.doc_patch.specs.Becomes.{BecomesCharacters, BecomesAttached, BecomesSection, StaysMark};

use crate::modifiers::property_characters;
use doc_bits::Memory;
use doc_columns::{Attached, Columns};
use plain_doc::Mark;
use prop_map::{Modifier, PropMap};
use run_lists::{Change, Shared};
use std::alloc::Global;

/// The properties of characters after a modifier.
#[derive(Drop)]
struct OnCharacters<'a> {
    modifier: &'a Modifier,
}

impl<'a> Change<PropMap> for OnCharacters<'a> {
    ghost becomes = { λ by before after. BecomesCharacters by.modifier.now before after };

    fn change(&self, alloc: Global, value: &PropMap) -> Result<PropMap, Memory> {
        let made = modified_chp(alloc, value, self.modifier)?;
        Ok(made)
    }
}

/// What is beside units after a modifier, which acts on marks.
#[derive(Drop)]
struct OnMarks<'a> {
    modifier: &'a Modifier,
}

impl<'a> Change<Attached> for OnMarks<'a> {
    ghost becomes = { λ by before after. BecomesAttached by.modifier.now before after };

    fn change(&self, alloc: Global, value: &Attached) -> Result<Attached, Memory> {
        let made = modified_attached(alloc, value, self.modifier)?;
        Ok(made)
    }
}

/// What is beside units where properties are put over those of the section that ends there.
#[derive(Drop)]
struct OverSection<'a> {
    set: &'a PropMap,
}

impl<'a> Change<Attached> for OverSection<'a> {
    ghost becomes = { λ by before after. BecomesSection by.set.now before after };

    fn change(&self, alloc: Global, value: &Attached) -> Result<Attached, Memory> {
        let made = attached_over(alloc, value, self.set)?;
        Ok(made)
    }
}

/// Properties after a modifier.
fn modified_chp(alloc: Global, chp: &PropMap, modifier: &Modifier) -> Result<PropMap, Memory>
    ensures { IfOk result (BecomesCharacters modifier.now chp.now) }
{
    let made = modifier.on_char(alloc, chp)?;
    Ok(made)
}

/// What is beside a unit after a modifier.
fn modified_attached(
    alloc: Global,
    attached: &Attached,
    modifier: &Modifier,
) -> Result<Attached, Memory>
    ensures { IfOk result (BecomesAttached modifier.now attached.now) }
{
    let mut made = attached.copy(alloc)?;
    made.mark = modified_end(alloc, &attached.mark, modifier)?;
    Ok(made)
}

/// What is beside a unit where properties are put over those of a section.
fn attached_over(alloc: Global, attached: &Attached, set: &PropMap) -> Result<Attached, Memory>
    ensures { IfOk result (BecomesSection set.now attached.now) }
{
    let mut made = attached.copy(alloc)?;
    made.sect = set_over(alloc, &attached.sect, set)?;
    Ok(made)
}

/// A mark after a modifier, where there is one.
fn modified_end(
    alloc: Global,
    mark: &Option<Mark>,
    modifier: &Modifier,
) -> Result<Option<Mark>, Memory>
    ensures mark { IfOk result (λ made. made ≡ option_map (mark_after modifier.now) mark.now) }
    ensures formed { IfOk result (λ made. IsFormedModifier modifier.now → StaysMark mark.now made) }
{
    match mark {
        None => Ok(None),
        Some(mark) => Ok(Some(modified_mark(alloc, mark, modifier)?)),
    }
}

/// A mark after a modifier.
fn modified_mark(alloc: Global, mark: &Mark, modifier: &Modifier) -> Result<Mark, Memory>
    ensures mark { IfOk result (λ made. made ≡ mark_after modifier.now mark.now) }
    ensures formed { IfOk result
        (λ made. IsFormedModifier modifier.now → StaysFormed paragraph_groups mark.now.pap made.pap) }
{
    let after = modifier.on_mark(alloc, mark.istd, &mark.pap)?;
    Ok(Mark {
        istd: modifier.istd.unwrap_or(mark.istd),
        pap: after.map,
    })
}

/// Properties put over those of a section, where there is one.
fn set_over(alloc: Global, sect: &Option<PropMap>, set: &PropMap) -> Result<Option<PropMap>, Memory>
    ensures { IfOk result (λ made. made ≡ option_map (overlay set.now) sect.now) }
{
    match sect {
        None => Ok(None),
        Some(base) => Ok(Some(properties_over(alloc, set, base)?)),
    }
}

/// The properties put over others.
pub fn properties_over(alloc: Global, set: &PropMap, base: &PropMap) -> Result<PropMap, Memory>
    ensures { IfOk result (λ made. made ≡ overlay set.now base.now) }
{
    let change = property_characters(alloc, set)?;
    let made = change.on_char(alloc, base)?;
    Ok(made)
}

/// A text with each item of a range after a modifier.
pub(crate) fn modify_text(
    alloc: Global,
    text: Columns,
    from: usize,
    to: usize,
    modifier: &Modifier,
) -> Result<Columns, Memory>
    requires range { HasRange from to text }
    requires modifier { IsFormedModifier modifier.now }
    ensures { IfOk result (λ made. made ≡ map_range (modified_item modifier.now) text from to) }
{
    let chps = text.change_chps(alloc, from, to, &OnCharacters { modifier })?;
    let made = chps.change_attachments(alloc, from, to, &OnMarks { modifier })?;
    Ok(made)
}

/// A main text with properties put over those of the section that ends at an item.
pub(crate) fn section_over(
    alloc: Global,
    main: Columns,
    at: usize,
    set: &PropMap,
) -> Result<Columns, Memory>
    requires within { at < length main }
    requires set { IsPropertyMap section_groups set.now }
    ensures { IfOk result (λ made. made ≡ changed_at main at (with_section set.now)) }
{
    let made = main.change_attachments(alloc, at, at + 1, &OverSection { set })?;
    Ok(made)
}
