// A sheet of styles, as it is read from its values.
ghost use Rattle.std.specs.Prelude.{◌≡◌, ◌≢◌, ◌↔◌, ◌<◌, List, Option, IsTrue, MatchResult, Ok, Some, None, All};
ghost use Rattle.serde_json.specs.Data.{array};
ghost use Rattle.serde_json.specs.View.{view, items_view, members_view};
ghost use Rattle.doc_bits.specs.Number.{AreBytes};
ghost use Rattle.edit_script.specs.Json.{GivesReading, each_of};
ghost use Rattle.edit_script.specs.Values.{short_number, bytes_of};
ghost use Rattle.style_sheet.specs.declared.styles.Style.{Style};
ghost use Rattle.style_sheet.specs.Formed.{IsFormedBase, IsFormedKind, IsFormedSlot, IsFormedStyle, IsFormedSheet};
ghost use Rattle.json_values.specs.Rows.{Steps, need, may};
ghost use Rattle.json_doc.specs.ReadValues.{ReadsValue, Tells};
ghost use Rattle.json_doc.specs.StyleReading.{list_as, base_of, kind_of_parts, read_style_of, sheet_values};
ghost use Rattle.json_doc.specs.StyleReading.{AreFormedSlots};
ghost use Rattle.json_doc.specs.StyleGroups.{style_row, made_behind, style_with, IsMadeBehind, IsNoneBehind};
ghost use Rattle.json_doc.specs.Styles.{style_json, slot_json, slots_json, sheet_json};

use doc_bits::Units;
use edit_script::{ShapeError, bytes_in, short_in};
use json_values::Row;
use prop_map::{CHARACTER_GROUPS, PARAGRAPH_GROUPS, PropMap};
use serde_json::Value;
use std::alloc::Global;
use style_sheet::{Kind, Style, StyleSheet, UpxList};

/// The most slots of a sheet.
const MAX_SLOTS: usize = 4094;

/// The numbers of a header.
const HEAD_LEN: usize = 7;

/// A style that another one is based on, or null.
fn base_in(value: &Value) -> Result<Option<u16>, ShapeError>
    ensures { GivesReading result (base_of (view value.now)) }
{
    if value.is_null() {
        return Ok(None);
    }
    Ok(Some(short_in(value)?))
}

/// The style at a key that another one is based on.
fn base_at(row: &mut Row<'_>, key: &str) -> Result<Option<u16>, ShapeError>
    ensures { Steps (need key.now base_of) (members_view row.old.left) result (members_view row.new.left) }
{
    base_in(row.need(key)?)
}

/// Property lists as they are: an array of bytes.
fn upxes_in(alloc: Global, value: &Value) -> Result<UpxList, ShapeError>
    ensures { GivesReading result (list_as bytes_of (view value.now)) }
{
    match value.as_array() {
        None => Err(ShapeError::Shape),
        Some(values) => upxes_from(alloc, values.as_slice()),
    }
}

/// The property lists of the values of an array.
fn upxes_from(alloc: Global, values: &[Value]) -> Result<UpxList, ShapeError>
    ensures { GivesReading result (each_of bytes_of (items_view values.now)) }
{
    let mut upxes = UpxList::new(alloc);
    for value in values {
        upxes.add(bytes_in(alloc, value)?)?;
    }
    Ok(upxes)
}

/// The property lists at a key, where it comes first.
fn upxes_if(alloc: Global, row: &mut Row<'_>, key: &str) -> Result<Option<UpxList>, ShapeError>
    ensures { Steps (may key.now (list_as bytes_of)) (members_view row.old.left) result (members_view row.new.left) }
{
    match row.may(key) {
        None => Ok(None),
        Some(value) => Ok(Some(upxes_in(alloc, value)?)),
    }
}

/// The numbers of 16 bits of an array.
fn numbers_in(alloc: Global, value: &Value) -> Result<Units, ShapeError>
    ensures { GivesReading result (list_as short_number (view value.now)) }
{
    match value.as_array() {
        None => Err(ShapeError::Shape),
        Some(values) => numbers_from(alloc, values.as_slice()),
    }
}

/// The numbers of 16 bits of the values of an array.
fn numbers_from(alloc: Global, values: &[Value]) -> Result<Units, ShapeError>
    ensures { GivesReading result (each_of short_number (items_view values.now)) }
{
    let mut numbers = Units::new(alloc);
    for value in values {
        numbers.push_all(&[short_in(value)?])?;
    }
    Ok(numbers)
}

/// The kind that has these.
fn kind_from(
    chp: Option<PropMap>,
    pap: Option<PropMap>,
    stk: Option<u8>,
    upxes: Option<UpxList>,
) -> Result<Kind, ShapeError>
    ensures { GivesReading result (kind_of_parts chp pap stk upxes) }
{
    match (chp, pap, stk, upxes) {
        (Some(chp), Some(pap), None, None) => Ok(Kind::Para { pap, chp }),
        (Some(chp), None, None, None) => Ok(Kind::Char { chp }),
        (None, None, Some(stk), Some(upxes)) => Ok(Kind::Other { stk, upxes }),
        _ => Err(ShapeError::Shape),
    }
}

/// What the first five keys of a style have.
#[derive(Drop)]
pub struct StyleFront {
    pub base: Option<u16>,
    pub chp: Option<PropMap>,
    pub flags: u8,
    pub grfstd: u16,
    pub name: Units,
}

/// What the other keys have.
#[derive(Drop)]
pub struct StyleBack {
    pub next: u16,
    pub pap: Option<PropMap>,
    pub sti: u16,
    pub stk: Option<u8>,
    pub upxes: Option<UpxList>,
}

/// What the first five keys of a style have.
fn style_front_in(alloc: Global, row: &mut Row<'_>) -> Result<StyleFront, ShapeError>
    ensures { MatchResult result
        (λ front. style_row (members_view row.old.left) ≡ made_behind front (members_view row.new.left))
        (λ fault. fault ≡ ShapeError.Shape → style_row (members_view row.old.left) ≡ None) }
{
    let base = base_at(row, "base")?;
    let chp = row.properties_if(alloc, "char")?;
    let flags = row.byte("flags")?;
    let grfstd = row.short("grfstd")?;
    let name = row.units(alloc, "name")?;
    Ok(StyleFront {
        base,
        chp,
        flags,
        grfstd,
        name,
    })
}

/// What the other keys have.
fn style_back_in(alloc: Global, row: &mut Row<'_>) -> Result<StyleBack, ShapeError>
    ensures { MatchResult result
        (λ back. IsMadeBehind (members_view row.old.left) back (members_view row.new.left))
        (λ fault. fault ≡ ShapeError.Shape → IsNoneBehind (members_view row.old.left)) }
{
    let next = row.short("next")?;
    let pap = row.properties_if(alloc, "par")?;
    let sti = row.short("sti")?;
    let stk = row.byte_if("stk")?;
    let upxes = upxes_if(alloc, row, "upxes")?;
    Ok(StyleBack {
        next,
        pap,
        sti,
        stk,
        upxes,
    })
}

/// The style of what its keys have.
fn style_from(front: StyleFront, back: StyleBack) -> Result<Style, ShapeError>
    ensures { GivesReading result (style_with front back) }
{
    let kind = kind_from(front.chp, back.pap, back.stk, back.upxes)?;
    Ok(Style {
        sti: back.sti,
        flags: front.flags,
        base: front.base,
        next: back.next,
        grfstd: front.grfstd,
        name: front.name,
        kind,
    })
}

/// A style, as its object has it.
fn style_in(alloc: Global, value: &Value) -> Result<Style, ShapeError>
    ensures { GivesReading result (read_style_of (view value.now)) }
{
    let mut row = Row::of(value)?;
    let front = style_front_in(alloc, &mut row)?;
    let back = style_back_in(alloc, &mut row)?;
    row.end()?;
    style_from(front, back)
}

/// Whether a style may be based on this one.
fn is_valid_base(base: &Option<u16>) -> bool
    ensures { IsTrue result ↔ IsFormedBase base.now }
{
    match base {
        None => true,
        Some(number) => *number < 4095,
    }
}

/// Whether the properties of a kind may be there, or its stk is 3 or 4 and it has 15 property lists at most.
fn is_valid_kind(kind: &Kind) -> bool
    ensures { IsTrue result ↔ IsFormedKind kind.now }
{
    match kind {
        Kind::Para { pap, chp } => {
            pap.is_held(PARAGRAPH_GROUPS) && chp.is_held(CHARACTER_GROUPS)
        }
        Kind::Char { chp } => chp.is_held(CHARACTER_GROUPS),
        Kind::Other { stk, upxes } => {
            have_bytes(upxes);
            (*stk == 3 || *stk == 4) && upxes.len() <= 15
        }
    }
}

/// Property lists are bytes.
fn have_bytes(upxes: &UpxList)
    ensures { All AreBytes upxes.now }
{
    for i in 0..upxes.len() {
        are_bytes(upxes.get(i).as_slice());
    }
}

/// Bytes are below 256.
fn are_bytes(bytes: &[u8])
    ensures { AreBytes bytes.now }
{}

/// The units of a name have 16 bits.
fn are_words(units: &[u16])
    ensures { All (λ unit. unit < 65536) units.now }
{}

/// A number of 16 bits is below 65,536.
fn is_word(number: u16)
    ensures { number < 65536 }
{}

/// Whether each number of a style has the bits that an STD has for it, and its kind is right.
fn is_valid_style(style: &Style) -> bool
    ensures { IsTrue result ↔ IsFormedStyle style.now }
{
    if style.sti >= 4096 || style.flags >= 16 || style.next >= 4096 {
        return false;
    }
    if !is_valid_base(&style.base) {
        return false;
    }
    is_word(style.grfstd);
    are_words(style.name.as_slice());
    is_valid_kind(&style.kind)
}

/// A formed style.
fn right_style_in(alloc: Global, value: &Value) -> Result<Style, ShapeError>
    ensures { ReadsValue style_json IsFormedStyle (view value.now) result }
{
    let style = style_in(alloc, value)?;
    if !is_valid_style(&style) {
        return Err(ShapeError::Shape);
    }
    Ok(style)
}

/// A slot: null, or a style.
fn slot_in(alloc: Global, value: &Value) -> Result<Option<Style>, ShapeError>
    ensures { ReadsValue slot_json IsFormedSlot (view value.now) result }
{
    if value.is_null() {
        return Ok(None);
    }
    match right_style_in(alloc, value) {
        Ok(style) => Ok(Some(style)),
        Err(fault) => Err(fault),
    }
}

/// A sheet with this header and the slots of an array.
fn sheet_from(alloc: Global, head: [u16; 7], values: &[Value]) -> Result<StyleSheet, ShapeError>
    ensures { MatchResult result
        (λ sheet. (sheet.head ≡ head)
        × ReadsValue slots_json AreFormedSlots (array (items_view values.now)) (Ok sheet.styles))
        (λ fault. fault ≡ ShapeError.Shape
        → (slots : List (Option Style)) → AreFormedSlots slots → array (items_view values.now) ≢ slots_json slots) }
{
    if values.is_empty() {
        return Err(ShapeError::Shape);
    }
    if values.len() > MAX_SLOTS {
        return Err(ShapeError::Shape);
    }
    let first = slot_in(alloc, &values[0])?;
    let mut sheet = StyleSheet::new(alloc, head, first)?;
    for i in 1..values.len() {
        let slot = slot_in(alloc, &values[i])?;
        sheet.add(slot)?;
    }
    Ok(sheet)
}

/// A sheet with this header and the slots of a value.
fn slots_in(alloc: Global, head: [u16; 7], value: &Value) -> Result<StyleSheet, ShapeError>
    ensures { MatchResult result
        (λ sheet. (sheet.head ≡ head) × ReadsValue slots_json AreFormedSlots (view value.now) (Ok sheet.styles))
        (λ fault. fault ≡ ShapeError.Shape
        → (slots : List (Option Style)) → AreFormedSlots slots → view value.now ≢ slots_json slots) }
{
    match value.as_array() {
        None => Err(ShapeError::Shape),
        Some(values) => sheet_from(alloc, head, values.as_slice()),
    }
}

/// The numbers of a header, and the value that has the slots.
fn sheet_values_in(alloc: Global, value: &Value) -> Result<(Units, &Value), ShapeError>
    ensures { MatchResult result
        (λ parts. sheet_values (view value.now) ≡ Some (parts.0, view parts.1.now))
        (λ fault. fault ≡ ShapeError.Shape → sheet_values (view value.now) ≡ None) }
{
    let mut row = Row::of(value)?;
    let head = head_at(alloc, &mut row, "head")?;
    let slots = row.need("styles")?;
    row.end()?;
    Ok((head, slots))
}

/// The numbers at a key.
fn head_at(alloc: Global, row: &mut Row<'_>, key: &str) -> Result<Units, ShapeError>
    ensures { Steps (need key.now (list_as short_number)) (members_view row.old.left) result
        (members_view row.new.left) }
{
    numbers_in(alloc, row.need(key)?)
}

/// A sheet of styles.
pub(crate) fn sheet_in(alloc: Global, value: &Value) -> Result<StyleSheet, ShapeError>
    ensures { Tells sheet_json IsFormedSheet (view value.now) result }
{
    let (head, slots) = sheet_values_in(alloc, value)?;
    if head.as_slice().len() != HEAD_LEN {
        return Err(ShapeError::Shape);
    }
    let mut seven = [0u16; HEAD_LEN];
    seven.copy_from_slice(head.as_slice());
    slots_in(alloc, seven, slots)
}
