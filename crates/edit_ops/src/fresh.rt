// The items that commands put, as runs of equal properties.
ghost use Rattle.std.specs.Prelude.{◌≡◌, ◌+◌, ◌^◌, ◌<◌, ◌≤◌, [], ◌∷◌, ◌++◌, length, IfOk, Some};
ghost use Rattle.std.specs.FinMap.{empty};
ghost use Rattle.prop_map.specs.Formed.{IsPropertyMap, character_groups, paragraph_groups};
ghost use Rattle.prop_map.specs.Overlay.{without};
ghost use Rattle.doc_model.specs.Document.{HasPropertyMaps};
ghost use Rattle.edit_ops.specs.Codes.{most_units};
ghost use Rattle.edit_ops.specs.Fresh.{base_properties as base_of, special as special_of, special_codes};
ghost use Rattle.edit_ops.specs.Fresh.{unit_item as item_of, unit_items as units_of, mark_item as marked_item};
ghost use Rattle.edit_ops.specs.Fresh.{plain_end as end_of};
ghost use Rattle.edit_ops.specs.Fresh.{inserted_items as inserted_of, field_items as field_of};
ghost use Rattle.edit_ops.specs.Fresh.{note_reference as reference_of, note_items as note_of};

use doc_bits::Memory;
use doc_columns::Columns;
use doc_patch::chp_at;
use plain_doc::{Item, Mark, NoteKind};
use prop_map::PropMap;
use sprm_table::{Code, SPRM_C_F_SPEC};
use std::alloc::Global;
use text_codes::{FIELD_BEGIN, FIELD_END, FIELD_SEPARATOR, PARAGRAPH_MARK};

/// [MS-DOC] sprmCFSpec, sprmCFData and sprmCPicLocation.
const SPECIAL_CODES: [Code; 3] = [Code(0x0855), Code(0x0806), Code(0x6A03)];

/// The byte of a separator.
const SEPARATOR_BYTE: u8 = 0xFF;

/// The byte of an end.
const FLD_END_FLAGS: u8 = 0x80;

/// The unit that refers to a note, and that begins its text.
const NOTE_REF: u16 = 0x02;

/// The properties of the item at the place, without what makes a unit special.
pub(crate) fn base_properties(alloc: Global, text: &Columns, at: usize) -> Result<PropMap, Memory>
    ensures map { IfOk result (λ base. base ≡ base_of text.now at) }
    ensures formed { IfOk result (IsPropertyMap character_groups) }
{
    let _len = text.len();
    match chp_at(text, at) {
        None => Ok(PropMap::new(alloc)),
        Some(chp) => without_special(alloc, chp),
    }
}

/// The properties, without what makes a unit special.
fn without_special(alloc: Global, chp: &PropMap) -> Result<PropMap, Memory>
    requires { IsPropertyMap character_groups chp.now }
    ensures map { IfOk result (λ base. base ≡ without special_codes chp.now) }
    ensures formed { IfOk result (IsPropertyMap character_groups) }
{
    let base = chp.without(alloc, &SPECIAL_CODES)?;
    Ok(base)
}

/// The properties, of a special unit.
fn special(alloc: Global, base: &PropMap) -> Result<PropMap, Memory>
    requires { IsPropertyMap character_groups base.now }
    ensures map { IfOk result (λ made. made ≡ special_of base.now) }
    ensures formed { IfOk result (IsPropertyMap character_groups) }
{
    let mut made = base.copy(alloc)?;
    made.set(SPRM_C_F_SPEC, &[1])?;
    Ok(made)
}

/// A unit with these properties and nothing beside them.
fn unit_item(alloc: Global, chp: &PropMap, unit: u16) -> Result<Item, Memory>
    requires { IsPropertyMap character_groups chp.now }
    ensures item { IfOk result (λ made. made ≡ item_of chp.now unit) }
    ensures maps { IfOk result HasPropertyMaps }
{
    Ok(Item {
        unit,
        fld: None,
        note: None,
        chp: chp.copy(alloc)?,
        mark: None,
        sect: None,
    })
}

/// A unit with a mark.
pub(crate) fn mark_item(alloc: Global, chp: &PropMap, unit: u16, mark: Mark) -> Result<Item, Memory>
    requires chp { IsPropertyMap character_groups chp.now }
    requires pap { IsPropertyMap paragraph_groups mark.pap }
    ensures item { IfOk result (λ made. made ≡ marked_item chp.now unit mark) }
    ensures maps { IfOk result HasPropertyMaps }
{
    Ok(Item {
        unit,
        fld: None,
        note: None,
        chp: chp.copy(alloc)?,
        mark: Some(mark),
        sect: None,
    })
}

/// A paragraph mark of style 0 without properties. It takes no memory.
fn plain_end(alloc: Global) -> Item
    ensures item { result ≡ end_of }
    ensures maps { HasPropertyMaps result }
{
    Item {
        unit: PARAGRAPH_MARK,
        fld: None,
        note: None,
        chp: PropMap::new(alloc),
        mark: Some(Mark {
            istd: 0,
            pap: PropMap::new(alloc),
        }),
        sect: None,
    }
}

/// The units as they are put before the place of a text.
pub(crate) fn inserted_items(
    alloc: Global,
    text: &Columns,
    at: usize,
    units: &[u16],
) -> Result<Columns, Memory>
    requires { length units.now ≤ most_units }
    ensures { IfOk result (λ made. made ≡ inserted_of text.now at units.now) }
{
    if text.len() == 0 {
        return first_items(alloc, units);
    }
    let base = base_properties(alloc, text, at)?;
    let made = Columns::new(alloc).add_units(units, base)?;
    Ok(made)
}

/// The units of an empty header text, with the two paragraph marks that end it.
fn first_items(alloc: Global, units: &[u16]) -> Result<Columns, Memory>
    requires { length units.now ≤ most_units }
    ensures { IfOk result (λ made. made ≡ inserted_of [] 0 units.now) }
{
    let none = PropMap::new(alloc);
    let shown = Columns::new(alloc).add_units(units, none)?;
    let ended = shown.add(plain_end(alloc))?;
    let made = ended.add(plain_end(alloc))?;
    Ok(made)
}

/// A field character with its byte, of special properties.
fn field_mark(alloc: Global, chp: &PropMap, unit: u16, byte: u8) -> Result<Item, Memory>
    requires { IsPropertyMap character_groups chp.now }
    ensures item { IfOk result (λ made. made ≡ record (item_of chp.now unit) { fld = Some byte }) }
    ensures maps { IfOk result HasPropertyMaps }
{
    Ok(Item {
        unit,
        fld: Some(byte),
        note: None,
        chp: chp.copy(alloc)?,
        mark: None,
        sect: None,
    })
}

/// A text with a field character more, of these properties, with its byte.
fn with_mark(
    alloc: Global,
    text: Columns,
    chp: &PropMap,
    unit: u16,
    byte: u8,
) -> Result<Columns, Memory>
    requires few { length text + 1 < 2 ^ 32 }
    requires map { IsPropertyMap character_groups chp.now }
    ensures items { IfOk result (λ made. made ≡ text ++ record (item_of chp.now unit) { fld = Some byte } ∷ []) }
    ensures len { IfOk result (λ made. length made ≡ length text + 1) }
{
    let mark = field_mark(alloc, chp, unit, byte)?;
    let made = text.add(mark)?;
    Ok(made)
}

/// A text with units more, of these properties.
fn with_units(alloc: Global, text: Columns, chp: &PropMap, units: &[u16]) -> Result<Columns, Memory>
    requires few { length text + length units.now < 2 ^ 32 }
    requires map { IsPropertyMap character_groups chp.now }
    ensures items { IfOk result (λ made. made ≡ text ++ units_of chp.now units.now) }
    ensures len { IfOk result (λ made. length made ≡ length text + length units.now) }
{
    let own = chp.copy(alloc)?;
    let made = text.add_units(units, own)?;
    Ok(made)
}

/// A field of this type, with its code and its result.
pub(crate) fn field_items(
    alloc: Global,
    base: &PropMap,
    kind: u8,
    code: &[u16],
    shown: &[u16],
) -> Result<Columns, Memory>
    requires base { IsPropertyMap character_groups base.now }
    requires few { length code.now + length shown.now ≤ most_units }
    ensures { IfOk result (λ made. made ≡ field_of base.now kind code.now shown.now) }
{
    let special = special(alloc, base)?;
    let made = field_over(alloc, base, &special, kind, code, shown);
    drop(special);
    made
}

/// A field, where the properties of its three special units are there.
fn field_over(
    alloc: Global,
    base: &PropMap,
    special: &PropMap,
    kind: u8,
    code: &[u16],
    shown: &[u16],
) -> Result<Columns, Memory>
    requires base { IsPropertyMap character_groups base.now }
    requires special { special.now ≡ special_of base.now }
    requires formed { IsPropertyMap character_groups special.now }
    requires few { length code.now + length shown.now ≤ most_units }
    ensures { IfOk result (λ made. made ≡ field_of base.now kind code.now shown.now) }
{
    let begun = with_mark(alloc, Columns::new(alloc), special, FIELD_BEGIN, kind)?;
    let coded = with_units(alloc, begun, base, code)?;
    let parted = with_mark(alloc, coded, special, FIELD_SEPARATOR, SEPARATOR_BYTE)?;
    let both = with_units(alloc, parted, base, shown)?;
    let made = with_mark(alloc, both, special, FIELD_END, FLD_END_FLAGS)?;
    Ok(made)
}

/// The reference to a note that is numbered by itself, as a text of one item.
pub(crate) fn note_reference(alloc: Global, base: &PropMap) -> Result<Columns, Memory>
    requires { IsPropertyMap character_groups base.now }
    ensures { IfOk result (λ made. made ≡ reference_of base.now ∷ []) }
{
    let special = special(alloc, base)?;
    let mut item = unit_item(alloc, &special, NOTE_REF)?;
    item.note = Some(NoteKind::Auto);
    let made = Columns::new(alloc).add(item)?;
    Ok(made)
}

/// The text of a note.
pub(crate) fn note_items(alloc: Global, units: &[u16]) -> Result<Columns, Memory>
    requires { length units.now ≤ most_units }
    ensures { IfOk result (λ made. made ≡ note_of units.now) }
{
    let none = PropMap::new(alloc);
    let made = note_over(alloc, &none, units);
    drop(none);
    made
}

/// The text of a note, where the properties of its units, which are none, are there.
fn note_over(alloc: Global, none: &PropMap, units: &[u16]) -> Result<Columns, Memory>
    requires none { none.now ≡ empty }
    requires few { length units.now ≤ most_units }
    ensures { IfOk result (λ made. made ≡ note_of units.now) }
{
    let begun = note_begin(alloc, none)?;
    let shown = with_units(alloc, begun, none, units)?;
    let made = shown.add(plain_end(alloc))?;
    Ok(made)
}

/// The unit that shows the number of a note, as a text of one item.
fn note_begin(alloc: Global, base: &PropMap) -> Result<Columns, Memory>
    requires { IsPropertyMap character_groups base.now }
    ensures { IfOk result (λ made. made ≡ item_of (special_of base.now) 0x02 ∷ []) }
{
    let special = special(alloc, base)?;
    let item = unit_item(alloc, &special, NOTE_REF)?;
    let made = Columns::new(alloc).add(item)?;
    Ok(made)
}
