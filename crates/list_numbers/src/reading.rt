// [MS-DOC] PlfLst, LSTF, LVL and PlfLfo, read once.
ghost use Rattle.std.specs.Prelude.{◌≡◌, ◌<◌, ◌≤◌, ℕ, ◌+◌, ◌*◌, ◌^◌, ◌%◌, ◌==◌, if◌then◌else◌};
ghost use Rattle.std.specs.Prelude.{length, slice_index, IfOk, OnOk};
ghost use Rattle.doc_bits.specs.Number.{u16_at, u32_at};
ghost use Rattle.doc_parts.specs.Levels.{level_end, level_start, levels_of_list};
ghost use Rattle.doc_model.specs.Carried.{AreListsWithLevels};
ghost use Rattle.list_numbers.specs.Lists.{list_formats_of, list_format_at, level_at, levels_from, counted_units};
ghost use Rattle.list_numbers.specs.Lists.{use_count};
ghost use Rattle.list_numbers.specs.Lists.{list_uses, level_characters, level_text_place, HaveWholeLevels};
ghost use Rattle.doc_parts.specs.Tabulated.{tabulate};

use crate::level::Level;
use crate::level_font::font_in;
use crate::levels::Levels;
use crate::list_format::ListFormat;
use crate::list_formats::ListFormats;
use crate::number_kind::NumberKind;
use doc_bits::{Memory, Units, get16, get32};
use doc_parts::{CB_GRPPRL_CHPX, CB_GRPPRL_PAPX, LSTF_FLAGS, LSTF_LEN, LVLF_LEN};
use std::alloc::Global;

/// The place in an LVLF of the kind of its number.
const NFC: usize = 4;

/// The levels of a list that is not simple.
const LEVELS: usize = 9;

const LFO_LEN: usize = 16;

/// The lists, each with its levels.
#[tactic(auto, unfolding(crate::specs::Lists::list_formats_of))]
pub(crate) fn lists_of(alloc: Global, lst: &[u8], levels: &[u8]) -> Result<ListFormats, Memory>
    requires { AreListsWithLevels lst.now levels.now }
    ensures lists { IfOk result (λ lists. lists ≡ list_formats_of lst.now levels.now) }
    ensures few { IfOk result (λ lists. length lists < 2 ^ 16) }
{
    let mut lists = ListFormats::new(alloc);
    let mut at = 0;
    for k in 0..list_count(lst) {
        let simple = is_simple(lst, k);
        let count = levels_of_list(simple);
        lists.add(ListFormat {
            number: list_number(lst, k),
            simple,
            levels: read_levels(alloc, levels, &mut at, count)?,
        })?;
    }
    Ok(lists)
}

/// The number of lists.
#[tactic(auto, using(crate::proofs::ListLemmas::no_count))]
fn list_count(lst: &[u8]) -> usize
    requires { 0 < length lst.now → 2 + 28 * u16_at lst.now 0 ≤ length lst.now }
    ensures count { result ≡ u16_at lst.now 0 }
    ensures few { result < 2 ^ 16 }
{
    if lst.is_empty() {
        return 0;
    }
    get16(lst, 0) as usize
}

/// The number of a list.
fn list_number(lst: &[u8], k: usize) -> u32
    requires { 2 + 28 * (k + 1) ≤ length lst.now }
    ensures { result ≡ u32_at lst.now (2 + 28 * k) }
{
    get32(lst, 2 + LSTF_LEN * k)
}

/// Whether a list is simple.
fn is_simple(lst: &[u8], k: usize) -> bool
    requires { 2 + 28 * (k + 1) ≤ length lst.now }
    ensures { result ≡ (slice_index lst.now (2 + 28 * k + 26) % 2 == 1) }
{
    lst[2 + LSTF_LEN * k + LSTF_FLAGS] % 2 == 1
}

/// The number of levels of a list.
fn levels_of_list(simple: bool) -> usize
    ensures { result ≡ (if simple then 1 else 9) }
{
    if simple { 1 } else { LEVELS }
}

/// Reads so many levels from a place on, and moves it behind them.
fn read_levels(alloc: Global, bytes: &[u8], at: &mut usize, count: usize) -> Result<Levels, Memory>
    requires { HaveWholeLevels bytes.now at.old count }
    ensures levels { IfOk result (λ levels. levels ≡ levels_from bytes.now at.old count) }
    ensures at { OnOk result (at.new ≡ level_start bytes.now at.old count) }
{
    let mut levels = Levels::new(alloc);
    for _j in 0..count {
        levels.add(read_level(alloc, bytes, *at)?)?;
        *at = level_end(bytes, *at);
    }
    Ok(levels)
}

/// Reads a level.
fn read_level(alloc: Global, bytes: &[u8], at: usize) -> Result<Level, Memory>
    requires { level_end bytes.now at ≤ length bytes.now }
    ensures { IfOk result (λ level. level ≡ level_at bytes.now at) }
{
    Ok(Level {
        start: get32(bytes, at).cast_signed(),
        kind: NumberKind::of(bytes[at + NFC]),
        text: read_units(alloc, bytes, text_place(bytes, at))?,
        font: font_in(characters(bytes, at)),
    })
}

/// The properties of characters of a level.
fn characters(bytes: &[u8], at: usize) -> &[u8]
    requires { level_end bytes.now at ≤ length bytes.now }
    ensures { result.now ≡ level_characters bytes.now at }
{
    let paragraph = bytes[at + CB_GRPPRL_PAPX] as usize;
    &bytes[at + LVLF_LEN + paragraph..text_place(bytes, at)]
}

/// Where the text of a level is.
fn text_place(bytes: &[u8], at: usize) -> usize
    requires { level_end bytes.now at ≤ length bytes.now }
    ensures { result ≡ level_text_place bytes.now at }
{
    let paragraph = bytes[at + CB_GRPPRL_PAPX] as usize;
    let character = bytes[at + CB_GRPPRL_CHPX] as usize;
    at + LVLF_LEN + paragraph + character
}

/// Where a level ends.
fn level_end(bytes: &[u8], at: usize) -> usize
    requires { level_end bytes.now at ≤ length bytes.now }
    ensures { result ≡ level_end bytes.now at }
{
    let text = text_place(bytes, at);
    text + 2 + 2 * get16(bytes, text) as usize
}

/// Reads units behind their count.
#[tactic(auto, using(crate::proofs::TabulatedLemmas::tabulate_steps))]
fn read_units(alloc: Global, bytes: &[u8], at: usize) -> Result<Units, Memory>
    requires { at + 2 + 2 * u16_at bytes.now at ≤ length bytes.now }
    ensures { IfOk result (λ units. units ≡ counted_units bytes.now at) }
{
    let mut units = Units::new(alloc);
    for i in 0..get16(bytes, at) as usize {
        units.push_all(&[get16(bytes, at + 2 + 2 * i)])?;
    }
    Ok(units)
}

/// The numbers of the lists that are used, by use.
#[tactic(auto, using(crate::proofs::TabulatedLemmas::tabulate_steps), unfolding(crate::specs::Lists::list_uses))]
pub(crate) fn uses_of(alloc: Global, lfo: &[u8]) -> Result<Vec<u32>, Memory>
    ensures { IfOk result (λ uses. uses.items ≡ list_uses lfo.now) }
{
    let mut uses = Vec::new(alloc);
    for i in 0..use_count(lfo) {
        uses.push(get32(lfo, 4 + LFO_LEN * i))?;
    }
    Ok(uses)
}

/// The number of uses that are there.
fn use_count(lfo: &[u8]) -> usize
    ensures { result ≡ use_count lfo.now }
{
    if lfo.len() < 4 {
        return 0;
    }
    let told = get32(lfo, 0) as usize;
    let there = (lfo.len() - 4) / LFO_LEN;
    if told < there { told } else { there }
}
