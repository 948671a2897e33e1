// [MS-DOC] STD: the style that one spells. `base` is cbSTDBaseInFile.
ghost use Rattle.std.specs.Prelude.{◌≡◌, ◌+◌, ◌*◌, ◌<◌, ◌≤◌, IfOk};
ghost use Rattle.std.specs.List.{All};
ghost use Rattle.doc_bits.specs.Number.{AreBytes};
ghost use Rattle.sprm_table.specs.Sprm.{IsAcceptedList};
ghost use Rattle.prop_map.specs.Formed.{IsPropertyMap, character_groups};
ghost use Rattle.style_sheet.specs.Formed.{IsFormedBase, IsFormedKind, IsFormedStyle};
ghost use Rattle.style_sheet.specs.StyleDefinition.{istd_base, IsStd, HasAcceptedLists, IsMapOf, AreUpxes, IsStyleName};
ghost use Rattle.style_sheet.specs.StyleDefinition.{stk, upx, paragraph_list, HasParagraphLists};
ghost use Rattle.style_sheet.specs.StyleDefinition.{SpellsKind, SpellsStyle};

use crate::counted::{counted_bytes, next_place};
use crate::definition::{first_upx, kind_number, upx_count};
use crate::{Kind, Style, UpxList};
use doc_bits::{Bytes, Memory, Units, get16};
use prop_map::{Acted, CHARACTER_GROUPS, PARAGRAPH_GROUPS, PropMap, act};
use std::alloc::Global;

/// The style that an STD spells.
pub(crate) fn read_style(alloc: Global, std: &[u8], base: usize) -> Result<Style, Memory>
    requires std { IsStd std.now base }
    requires base { (8 < base) × (base < 20) }
    requires lists { HasAcceptedLists std.now base }
    ensures spelt { IfOk result (SpellsStyle std.now base) }
    ensures formed { IfOk result IsFormedStyle }
{
    let first = get16(std, 0);
    Ok(Style {
        sti: first % 4096,
        flags: (first / 4096) as u8,
        base: base_of(get16(std, 2) / 16),
        next: get16(std, 4) / 16,
        grfstd: get16(std, 8),
        name: read_name(alloc, std, base)?,
        kind: read_kind(alloc, std, base)?,
    })
}

/// The base that a number of 12 bits names; all bits set are none.
fn base_of(number: u16) -> Option<u16>
    requires { number < 4096 }
    ensures base { result ≡ istd_base number }
    ensures formed { IsFormedBase result }
{
    if number == 0xFFF { None } else { Some(number) }
}

/// The units of the name.
fn read_name(alloc: Global, std: &[u8], base: usize) -> Result<Units, Memory>
    requires std { IsStd std.now base }
    requires base { (8 < base) × (base < 20) }
    ensures { IfOk result (IsStyleName std.now base) }
{
    let mut name = Units::new(alloc);
    for i in 0..get16(std, base) as usize {
        name.push_all(&[get16(std, base + 2 + 2 * i)])?;
    }
    Ok(name)
}

/// The kind and its properties, by the number of the kind.
fn read_kind(alloc: Global, std: &[u8], base: usize) -> Result<Kind, Memory>
    requires std { IsStd std.now base }
    requires base { (8 < base) × (base < 20) }
    requires lists { HasAcceptedLists std.now base }
    ensures spelt { IfOk result (SpellsKind std.now base) }
    ensures formed { IfOk result IsFormedKind }
{
    match kind_number(std) {
        1 => read_paragraphs(alloc, std, base),
        2 => read_characters(alloc, std, base),
        _ => read_others(alloc, std, base),
    }
}

/// The kind of a style of paragraphs.
fn read_paragraphs(alloc: Global, std: &[u8], base: usize) -> Result<Kind, Memory>
    requires std { IsStd std.now base }
    requires base { (8 < base) × (base < 20) }
    requires kind { stk std.now ≡ 1 }
    requires lists { HasParagraphLists std.now base }
    ensures spelt { IfOk result (SpellsKind std.now base) }
    ensures formed { IfOk result IsFormedKind }
{
    let pap = properties(alloc, paragraph_list(std, base), PARAGRAPH_GROUPS)?;
    let chp = properties(alloc, second_list(std, base), CHARACTER_GROUPS)?;
    Ok(Kind::Para { pap, chp })
}

/// The list of paragraph properties of a style of paragraphs, after the style number.
fn paragraph_list(std: &[u8], base: usize) -> &[u8]
    requires std { IsStd std.now base }
    requires base { (8 < base) × (base < 20) }
    requires kind { stk std.now ≡ 1 }
    ensures { result.now ≡ paragraph_list std.now base }
{
    &counted_bytes(std, first_upx(std, base))[2..]
}

/// The list of character properties of a style of paragraphs.
fn second_list(std: &[u8], base: usize) -> &[u8]
    requires std { IsStd std.now base }
    requires base { (8 < base) × (base < 20) }
    requires kind { stk std.now ≡ 1 }
    ensures { result.now ≡ upx std.now base 1 }
{
    counted_bytes(std, next_place(std, first_upx(std, base)))
}

/// The kind of a style of characters.
fn read_characters(alloc: Global, std: &[u8], base: usize) -> Result<Kind, Memory>
    requires std { IsStd std.now base }
    requires base { (8 < base) × (base < 20) }
    requires kind { stk std.now ≡ 2 }
    requires list { IsAcceptedList (upx std.now base 0) character_groups }
    ensures spelt { IfOk result (SpellsKind std.now base) }
    ensures formed { IfOk result IsFormedKind }
{
    let at = first_upx(std, base);
    let chp = properties(alloc, counted_bytes(std, at), CHARACTER_GROUPS)?;
    Ok(Kind::Char { chp })
}

/// The kind of a style of tables or of numbering.
fn read_others(alloc: Global, std: &[u8], base: usize) -> Result<Kind, Memory>
    requires std { IsStd std.now base }
    requires base { (8 < base) × (base < 20) }
    requires kind { 3 ≤ stk std.now }
    ensures spelt { IfOk result (SpellsKind std.now base) }
    ensures formed { IfOk result IsFormedKind }
{
    let stk = kind_number(std) as u8;
    let upxes = read_upxes(alloc, std, base)?;
    Ok(Kind::Other { stk, upxes })
}

/// The properties that a list makes of none.
fn properties(alloc: Global, list: &[u8], groups: u8) -> Result<PropMap, Memory>
    requires { IsAcceptedList list.now groups }
    ensures map { IfOk result (IsMapOf list.now groups) }
    ensures formed { IfOk result (IsPropertyMap groups) }
{
    let none = PropMap::new(alloc);
    let Acted { map, istd: _ } = act(alloc, list, groups, &none)?;
    Ok(map)
}

/// The upxes as they are.
fn read_upxes(alloc: Global, std: &[u8], base: usize) -> Result<UpxList, Memory>
    requires std { IsStd std.now base }
    requires base { (8 < base) × (base < 20) }
    ensures spelt { IfOk result (AreUpxes std.now base) }
    ensures bytes { IfOk result (λ upxes. All AreBytes upxes) }
{
    let mut upxes = UpxList::new(alloc);
    let mut at = first_upx(std, base);
    for _upx in 0..upx_count(std) {
        upxes.add(Bytes::from_slice(alloc, counted_bytes(std, at))?)?;
        at = next_place(std, at);
    }
    Ok(upxes)
}
