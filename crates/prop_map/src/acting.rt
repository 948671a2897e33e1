// Acting with a list of sprms.
ghost use Rattle.std.specs.Prelude.{◌≡◌, [], ◌∷◌, IfOk, IfSome, OnOk};
ghost use Rattle.std.specs.Option.{option_or};
ghost use Rattle.std.specs.FinMap.{empty};
ghost use Rattle.sprm_table.specs.Sprm.{IsPrl, IsAcceptedList};
ghost use Rattle.prop_map.specs.Formed.{StaysFormed};
ghost use Rattle.prop_map.specs.Acting.{ArePropertiesAfter, IsActedBy, style_named};
ghost use Rattle.prop_map.specs.Block.{HasCodesBelow, map_of};
ghost use Rattle.prop_map.specs.Values.{entry_of, set_map, AreCodesInOrder};

use crate::PropMap;
use crate::block::{Block, push_entry};
use crate::draft::Draft;
use crate::values::{SetValue, block_of, put_value};
use doc_bits::{Bytes, Memory, get16};
use sprm_table::{Class, Code, SprmIter, class, held};
use std::alloc::Global;

/// The bytes of a long list, which is seldom in order of its codes.
const LONG_LIST: usize = 512;

/// What a list makes of a map, and the style that it names, where it names one.
#[derive(Drop)]
pub struct Acted {
    pub map: PropMap,
    pub istd: Option<u16>,
}

/// Acts with a list on a map, at a place that holds these groups. `groups` has bit sgc set for each.
pub fn act(alloc: Global, list: &[u8], groups: u8, map: &PropMap) -> Result<Acted, Memory>
    requires { IsAcceptedList list.now groups }
    ensures acted { IfOk result (IsActedBy list.now groups map.now) }
    ensures formed { IfOk result (λ acted. StaysFormed groups map.now acted.map) }
{
    if map.is_empty() {
        let made = act_on_nothing(alloc, list, groups)?;
        return Ok(made);
    }
    let acted = act_on_draft(alloc, list, groups, map)?;
    Ok(acted)
}

/// Acts with a list on the empty map.
fn act_on_nothing(alloc: Global, list: &[u8], groups: u8) -> Result<Acted, Memory>
    requires { IsAcceptedList list.now groups }
    ensures { IfOk result (IsActedBy list.now groups empty) }
{
    match act_in_order(alloc, list, groups)? {
        Some(acted) => Ok(acted),
        None => {
            let acted = act_on_values(alloc, list, groups)?;
            Ok(acted)
        }
    }
}

/// Acts with a list on the empty map, whose values are put in order of their codes; a list that clears, or that sets
/// too many codes, is brought into a tree.
fn act_on_values(alloc: Global, list: &[u8], groups: u8) -> Result<Acted, Memory>
    requires { IsAcceptedList list.now groups }
    ensures { IfOk result (IsActedBy list.now groups empty) }
{
    match act_by_values(alloc, list, groups)? {
        Some(acted) => Ok(acted),
        None => {
            let nothing = PropMap::new(alloc);
            let acted = act_on_draft(alloc, list, groups, &nothing)?;
            Ok(acted)
        }
    }
}

/// Acts with a list on the empty map where none of it clears, and where it sets few codes.
fn act_by_values(alloc: Global, list: &[u8], groups: u8) -> Result<Option<Acted>, Memory>
    requires { IsAcceptedList list.now groups }
    ensures { IfOk result (λ acted. IfSome acted (IsActedBy list.now groups empty)) }
{
    let mut values = Vec::new(alloc);
    let mut guess = 0;
    let mut istd = None;
    let mut prls = SprmIter::new(list);
    while let Some((code, from, to)) = prls.next() {
        let value = &list[from..to];
        match keep_value(&mut values, guess, groups, SetValue { code, value })? {
            None => return Ok(None),
            Some(next) => guess = next,
        }
        istd = style(groups, code, value, istd);
    }
    let map = PropMap::from_block(alloc, block_of(alloc, &values)?)?;
    Ok(Some(Acted { map, istd }))
}

/// Keeps what a sprm sets among the values so far, and tells where the next one is looked for first. Nothing where the
/// sprm clears, or where too many codes are set.
fn keep_value<'a>(
    values: &mut Vec<SetValue<'a>>,
    guess: usize,
    groups: u8,
    set: SetValue<'a>,
) -> Result<Option<usize>, Memory>
    requires { AreCodesInOrder values.old.items }
    ensures order { OnOk result (AreCodesInOrder values.new.items) }
    ensures kept { IfOk result (λ kept. IfSome kept (λ _. ArePropertiesAfter (entry_of set.entry ∷ []) groups
        (set_map values.old.items) (set_map values.new.items))) }
{
    if held(groups, set.code) {
        match class(set.code) {
            Class::Plain | Class::Toggle => {
                let put = put_value(values, guess, set)?;
                Ok(put)
            }
            Class::Clear => Ok(None),
            Class::Style | Class::Refused => Ok(Some(guess)),
        }
    } else {
        Ok(Some(guess))
    }
}

/// Acts with a list on the empty map where its codes ascend and none clears: its entries are those of the map.
fn act_in_order(alloc: Global, list: &[u8], groups: u8) -> Result<Option<Acted>, Memory>
    requires { IsAcceptedList list.now groups }
    ensures { IfOk result (λ acted. IfSome acted (IsActedBy list.now groups empty)) }
{
    let mut bytes = Bytes::with_capacity(alloc, room_for(list))?;
    let mut least = 0;
    let mut istd = None;
    let mut prls = SprmIter::new(list);
    while let Some((code, from, to)) = prls.next() {
        let value = &list[from..to];
        match push_property(&mut bytes, least, groups, code, value)? {
            None => return Ok(None),
            Some(next) => least = next,
        }
        istd = style(groups, code, value, istd);
    }
    let map = PropMap::from_block(alloc, Block::of_bytes(bytes))?;
    Ok(Some(Acted { map, istd }))
}

/// The room that the entries of a list take at most: three bytes of it make seven. That of a long list is less.
fn room_for(list: &[u8]) -> usize {
    list.len().min(LONG_LIST) / 3 * 7
}

/// Appends to the entries of a map what a sprm sets, where its code is not below the least: the least code for the
/// next sprm. Nothing where the code is below, or where the sprm clears.
fn push_property(
    bytes: &mut Bytes,
    least: u32,
    groups: u8,
    code: Code,
    value: &[u8],
) -> Result<Option<u32>, Memory>
    requires { HasCodesBelow bytes.old least }
    ensures { IfOk result (λ next. IfSome next (λ next. HasCodesBelow bytes.new next
        × ArePropertiesAfter ((code.0, value.now) ∷ []) groups (map_of bytes.old) (map_of bytes.new))) }
{
    if held(groups, code) {
        match class(code) {
            Class::Plain | Class::Toggle => {
                let number = code.0 as u32;
                if number < least {
                    return Ok(None);
                }
                push_entry(bytes, code, value)?;
                Ok(Some(number + 1))
            }
            Class::Clear => Ok(None),
            Class::Style | Class::Refused => Ok(Some(least)),
        }
    } else {
        Ok(Some(least))
    }
}

/// Acts with a list on a map, as a tree.
fn act_on_draft(alloc: Global, list: &[u8], groups: u8, map: &PropMap) -> Result<Acted, Memory>
    requires { IsAcceptedList list.now groups }
    ensures { IfOk result (IsActedBy list.now groups map.now) }
{
    let mut draft = Draft::new(alloc);
    draft.put_all(alloc, map)?;
    let mut istd = None;
    let mut prls = SprmIter::new(list);
    while let Some((code, from, to)) = prls.next() {
        let value = &list[from..to];
        draft.act(alloc, groups, code, value)?;
        istd = style(groups, code, value, istd);
    }
    Ok(Acted {
        map: draft.into_map(alloc)?,
        istd,
    })
}

/// The style that a sprm names, or the one that was named before.
fn style(groups: u8, code: Code, value: &[u8], before: Option<u16>) -> Option<u16>
    requires { IsPrl (code.0, value.now) }
    ensures { result ≡ option_or (style_named ((code.0, value.now) ∷ []) groups) before }
{
    if held(groups, code) && class(code) == Class::Style {
        Some(get16(value, 0))
    } else {
        before
    }
}
