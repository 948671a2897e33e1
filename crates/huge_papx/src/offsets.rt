// Which ends of cells and rows name a place of Data where their properties are.
ghost use Rattle.std.specs.Prelude.{◌≡◌, ◌≢◌, ◌↔◌, ◌+◌, ◌^◌, ◌<◌, ◌≤◌, ◌++◌, ℕ, List, None, length, replicate, drop};
ghost use Rattle.std.specs.Prelude.{slice_index, IsTrue, IfOk, OnOk, MatchOption};
ghost use Rattle.text_codes.specs.Paragraph.{cell_mark};
ghost use Rattle.fkp_pages.specs.declared.kind.PageKind.TheVariants as kinds;
ghost use Rattle.fkp_pages.specs.Bin.{IsBinTable};
ghost use Rattle.fkp_pages.specs.Properties.{HasListAt};
ghost use Rattle.huge_papx.specs.Offsets.{NamesOffset, IsNamedAt, AreOffsets};
ghost use Rattle.huge_papx.specs.Offsets.{NamesNothing, IsInPage, AnswersList};

use crate::lists::{Sought, last_value};
use deleted_text::{is_bin_table, page_in};
use direct_props::Places;
use doc_bits::{Memory, get32};
use fkp_pages::{ISTD_LEN, RunAnswer, bin_at, papx_at};
use std::alloc::Global;
use text_codes::CELL_MARK;

/// Of each of these places, which place of Data its paragraph names, where it is the end of a cell or of a row. Where
/// the bin table is none nothing is said.
pub fn huge_offsets(
    alloc: Global,
    wd: &[u8],
    bin: &[u8],
    places: &Places<'_>,
    units: &[u16],
) -> Result<Vec<Option<u32>>, Memory>
    ensures { IfOk result (λ offsets.
        IsBinTable bin.now → AreOffsets wd.now bin.now places.now units.now offsets.items) }
{
    if !is_bin_table(bin) {
        return Ok(Vec::new(alloc));
    }
    offsets_of(alloc, wd, bin, places, units)
}

/// The same of a bin table.
fn offsets_of(
    alloc: Global,
    wd: &[u8],
    bin: &[u8],
    places: &Places<'_>,
    units: &[u16],
) -> Result<Vec<Option<u32>>, Memory>
    requires { IsBinTable bin.now }
    ensures { IfOk result (λ offsets. AreOffsets wd.now bin.now places.now units.now offsets.items) }
{
    let mut offsets = Vec::with_capacity(alloc, places.len())?;
    let mut left = places.skip(0);
    while left.len() > 0 {
        let bare = bare_len(units, offsets.len(), left.len() - 1);
        let rest = left.skip(bare);
        add_nothing(&mut offsets, bare)?;
        let unit = unit_at(units, offsets.len());
        offsets.push(offset_of(wd, bin, rest.first(), unit))?;
        left = rest.skip(1);
    }
    Ok(offsets)
}

/// How many units from a place on, at most so many, end no cell and no row, up to the first that does.
fn bare_len(units: &[u16], from: usize, most: usize) -> usize
    requires { from + most < 2 ^ 32 }
    ensures within { result ≤ most }
    ensures bare { (k : ℕ) → k < result → slice_index units.now (from + k) ≢ cell_mark }
{
    for k in 0..most {
        if ends_cell(unit_at(units, from + k)) {
            return k;
        }
    }
    most
}

/// Appends so many places of Data that are not named.
fn add_nothing(offsets: &mut Vec<Option<u32>>, count: usize) -> Result<(), Memory>
    requires { length offsets.old.items + count < 2 ^ 32 }
    ensures { OnOk result (offsets.new.items ≡ offsets.old.items ++ replicate count None) }
{
    offsets.resize(offsets.len() + count, None)?;
    Ok(())
}

/// The unit of a number, or 0.
fn unit_at(units: &[u16], k: usize) -> u16
    ensures { result ≡ slice_index units.now k }
{
    if k < units.len() { units[k] } else { 0 }
}

/// The place of Data that the paragraph of a place names, where its unit ends a cell or a row.
fn offset_of(wd: &[u8], bin: &[u8], fc: u32, unit: u16) -> Option<u32>
    requires { IsBinTable bin.now }
    ensures { MatchOption result
        ((offset : ℕ) → ¬ IsNamedAt wd.now bin.now fc unit offset)
        (IsNamedAt wd.now bin.now fc unit) }
{
    if !ends_cell(unit) {
        return None;
    }
    let Some(list) = list_at(wd, bin, fc) else {
        return None;
    };
    offset_in(list)
}

/// Whether a unit ends a cell or a row.
fn ends_cell(unit: u16) -> bool
    ensures { IsTrue result ↔ unit ≡ cell_mark }
{
    unit == CELL_MARK
}

/// The list of the paragraph of a place, where it has properties.
fn list_at<'a>(wd: &'a [u8], bin: &[u8], fc: u32) -> Option<&'a [u8]>
    requires { IsBinTable bin.now }
    ensures { MatchOption result
        (NamesNothing wd.now bin.now fc)
        (λ list. HasListAt kinds.Papx bin.now wd.now fc list.now) }
{
    let Some(number) = bin_at(bin, fc) else {
        return None;
    };
    let Some(page) = page_in(wd, number) else {
        return None;
    };
    list_of(page, papx_at(page, fc))
}

/// The list that a page answers, where it has one.
fn list_of(page: &[u8], answer: RunAnswer) -> Option<&[u8]>
    requires { IsInPage page.now answer }
    ensures { MatchOption result
        ((list : List ℕ) → ¬ AnswersList page.now answer list)
        (λ list. AnswersList page.now answer list.now) }
{
    match answer {
        RunAnswer::Found { from, to } => Some(&page[from..to]),
        RunAnswer::Empty => None,
        RunAnswer::NoRun => None,
        RunAnswer::BadCount => None,
        RunAnswer::Leaves { .. } => None,
    }
}

/// The place of Data that a list of a paragraph names.
fn offset_in(list: &[u8]) -> Option<u32>
    ensures { MatchOption result
        ((offset : ℕ) → ¬ NamesOffset list.now offset)
        (NamesOffset list.now) }
{
    let Some(value) = last_value(behind_style(list), Sought::HugePapx) else {
        return None;
    };
    if value.len() < 4 {
        return None;
    }
    Some(get32(value, 0))
}

/// What of a list is behind the number of the style.
fn behind_style(list: &[u8]) -> &[u8]
    ensures { result.now ≡ drop 2 list.now }
{
    &list[ISTD_LEN.min(list.len())..]
}
