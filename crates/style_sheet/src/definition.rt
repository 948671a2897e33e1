// [MS-DOC] STD: whether bytes are one, and the style that they spell. `base` is cbSTDBaseInFile.
ghost use Rattle.std.specs.Prelude.{◌≡◌, ◌↔◌, ◌⊎◌, ◌+◌, ◌<◌};
ghost use Rattle.std.specs.Prelude.{◌≤◌, ◌^◌, length, IsTrue, None};
ghost use Rattle.doc_bits.specs.Rules.{LeastOrNone, From};
ghost use Rattle.sprm_table.specs.Sprm.{HasSprmFaultAt, IsAcceptedList};
ghost use Rattle.style_sheet.specs.StyleDefinition.{stk, cupx, upxes_start, upx_place, HasName, HasKind, HasUpxes};
ghost use Rattle.style_sheet.specs.StyleDefinition.{IsStd, HasParagraphLists, HasAcceptedLists};
ghost use Rattle.style_sheet.specs.Stsh.{IsParagraphFault, IsCharacterFault, HasUpxFault};

use crate::counted::{counted_bytes, counted_end, even_up, next_place};
use doc_bits::{get16, lesser};
use prop_map::{CHARACTER_GROUPS, PARAGRAPH_GROUPS};
use sprm_table::list_fault;

/// Whether the bytes are an STD.
pub(crate) fn is_std(std: &[u8], base: usize) -> bool
    requires { (8 < base) × (base < 20) }
    ensures { IsTrue result ↔ IsStd std.now base }
{
    if !has_name(std, base) || !has_kind(std) || !has_upxes(std, base) {
        return false;
    }
    kind_number(std) != 1 || get16(std, first_upx(std, base)) >= 2
}

/// Whether the name and the zero unit behind it are within the STD.
fn has_name(std: &[u8], base: usize) -> bool
    requires { base < 20 }
    ensures { IsTrue result ↔ HasName std.now base }
{
    if std.len() < base + 2 {
        return false;
    }
    let start = upxes_start(std, base);
    start <= std.len() && get16(std, start - 2) == 0
}

/// Where the upxes begin: after the name and the zero unit.
fn upxes_start(std: &[u8], base: usize) -> usize
    requires { (base + 2 ≤ length std.now) × (base < 20) }
    ensures start { result ≡ upxes_start std.now base }
    ensures bound { result < 2 ^ 18 }
{
    base + 4 + 2 * get16(std, base) as usize
}

/// The number of the kind.
pub fn kind_number(std: &[u8]) -> u16
    requires { 4 ≤ length std.now }
    ensures { result ≡ stk std.now }
{
    get16(std, 2) % 16
}

/// The number of the upxes.
pub(crate) fn upx_count(std: &[u8]) -> u16
    requires { 6 ≤ length std.now }
    ensures { result ≡ cupx std.now }
{
    get16(std, 4) % 16
}

/// Whether the kind is one, and has its number of upxes.
fn has_kind(std: &[u8]) -> bool
    requires { 6 ≤ length std.now }
    ensures { IsTrue result ↔ HasKind std.now }
{
    match kind_number(std) {
        1 => upx_count(std) == 2,
        2 => upx_count(std) == 1,
        3 | 4 => true,
        _ => false,
    }
}

/// Whether the upxes are within the STD, and nothing is behind them.
fn has_upxes(std: &[u8], base: usize) -> bool
    requires { (base + 2 ≤ length std.now) × (base < 20) × (6 ≤ length std.now) }
    ensures { IsTrue result ↔ HasUpxes std.now base }
{
    let mut at = even_up(upxes_start(std, base));
    for _upx in 0..upx_count(std) {
        match counted_end(std, at) {
            None => return false,
            Some(end) => at = even_up(end),
        }
    }
    std.len() <= at
}

/// Where the first upx is.
pub fn first_upx(std: &[u8], base: usize) -> usize
    requires { (base + 2 ≤ length std.now) × (base < 20) }
    ensures place { result ≡ upx_place std.now base 0 }
    ensures bound { result < 2 ^ 19 }
{
    even_up(upxes_start(std, base))
}

/// The first fault in the lists of properties of an STD, as an offset in it.
pub(crate) fn std_fault(std: &[u8], base: usize) -> Option<u32>
    requires std { IsStd std.now base }
    requires base { (8 < base) × (base < 20) }
    requires short { length std.now < 65536 }
    ensures first { LeastOrNone (HasUpxFault std.now base) result }
    ensures accepted { result ≡ None → HasAcceptedLists std.now base }
{
    match kind_number(std) {
        1 => paragraph_fault(std, base),
        2 => {
            let at = first_upx(std, base);
            fault_in(counted_bytes(std, at), CHARACTER_GROUPS, at as u32 + 2)
        }
        _ => None,
    }
}

/// The first fault in the two lists of a style of paragraphs.
fn paragraph_fault(std: &[u8], base: usize) -> Option<u32>
    requires std { IsStd std.now base }
    requires base { (8 < base) × (base < 20) }
    requires short { length std.now < 65536 }
    requires kind { stk std.now ≡ 1 }
    ensures first { LeastOrNone (λ offset. IsParagraphFault std.now base offset ⊎ IsCharacterFault std.now
        (upx_place std.now base 1) offset) result }
    ensures accepted { result ≡ None → HasParagraphLists std.now base }
{
    let at = first_upx(std, base);
    let next = next_place(std, at);
    let paragraphs = fault_in(
        &counted_bytes(std, at)[2..],
        PARAGRAPH_GROUPS,
        at as u32 + 4,
    );
    let characters = fault_in(counted_bytes(std, next), CHARACTER_GROUPS, next as u32 + 2);
    lesser(paragraphs, characters)
}

/// The first fault of a list that begins at an offset.
fn fault_in(list: &[u8], groups: u8, offset: u32) -> Option<u32>
    requires { offset + length list.now < 2 ^ 32 }
    ensures first { LeastOrNone (From offset (HasSprmFaultAt list.now groups)) result }
    ensures accepted { result ≡ None → IsAcceptedList list.now groups }
{
    match list_fault(list, groups) {
        None => None,
        Some(fault) => Some(offset + fault.at() as u32),
    }
}
