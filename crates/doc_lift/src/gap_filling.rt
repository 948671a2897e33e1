// The streams of a text with its gaps filled: a page of one run without properties behind `WordDocument`, and behind the
// table stream bin tables that name it at each place that no run holds.
ghost use Rattle.std.specs.Prelude.{◌≡◌, ◌↔◌, ◌+◌, ◌<◌, ◌≤◌, ◌^◌, ◌++◌, List, ℕ, IsTrue, IfOk, MatchOption, length};
ghost use Rattle.std.specs.Prelude.{drop};
ghost use Rattle.fib_form.specs.Fib.{form_size};
ghost use Rattle.fib_form.specs.FibFields.{ArePairs, fib_fields};
ghost use Rattle.fib_form.specs.FibBytes.{written_fib};
ghost use Rattle.fib_form.specs.declared.form.Form.TheVariants.{Early};
ghost use Rattle.fib_versions.specs.Early.{early_fields, early_pairs};
ghost use Rattle.fkp_gaps.specs.Filled.{with_empty_run};
ghost use Rattle.file_rules.specs.FileRules.{FileText};
ghost use Rattle.doc_meaning.specs.Filled.{IsGapRule, IsPartWithin, AreLevelsWithin, ArePartsWithin, CanFill};
ghost use Rattle.doc_meaning.specs.Filled.{filled_pairs};
ghost use Rattle.doc_lift.specs.FilledTexts.{AreFilledStreams, IsFrontWith};
ghost use Rattle.doc_lift.specs.Filling.{AreReadStreams, HasFilled};

use crate::clx_skipping::end_before;
use crate::skipping::{PLCF_BTE_CHPX, PLCF_BTE_PAPX, are_units, copy_stream, early_fib, with_fib};
use doc_bits::Memory;
use fib_form::{Fib, PAIR_COUNT, Pairs};
use fib_versions::AnyFib;
use file_rules::{LoadedText, ReadFault, load_front};
use fkp_gaps::{are_pages_within, filled_bin, next_page_of, push_empty_run};
use fkp_pages::PageKind;
use std::alloc::Global;

/// The rules on places that no range of a bin table holds, or no run of a page, or whose list has no bytes.
pub const RULE_CHPX_BIN: u8 = 39;

pub const RULE_CHPX_RUN: u8 = 41;

pub const RULE_PAPX_BIN: u8 = 44;

pub const RULE_PAPX_RUN: u8 = 46;

pub const RULE_PAPX_LIST: u8 = 47;

/// The pair of PlfLst.
const PLF_LST: usize = 73;

/// The bytes of the longest table stream.
const MAX_TABLE: usize = 7_143_936;

/// `WordDocument` and the table stream with the gaps filled, and the pairs of their FIB.
#[derive(Drop)]
pub(crate) struct FilledStreams {
    pub(crate) wd: Vec<u8>,
    pub(crate) table: Vec<u8>,
    pub(crate) pairs: Pairs,
}

/// Whether a rule is one that a gap breaks.
pub(crate) fn is_gap_rule(rule: u8) -> bool
    ensures { IsTrue result ↔ IsGapRule rule }
{
    rule == RULE_CHPX_BIN
        || rule == RULE_CHPX_RUN
        || rule == RULE_PAPX_BIN
        || rule == RULE_PAPX_RUN
        || rule == RULE_PAPX_LIST
}

/// Fills the gaps in copies of the streams of a text, where that can be.
pub(crate) fn filled_streams(
    alloc: Global,
    fib: &AnyFib<'_>,
    wd: &[u8],
    table: &[u8],
) -> Result<Option<FilledStreams>, Memory>
    requires { AreReadStreams fib.now wd.now table.now }
    ensures { IfOk result (λ found. MatchOption found
        ((new_wd : List ℕ) → (new_table : List ℕ) → ¬ AreFilledStreams fib.now wd.now table.now new_wd new_table)
        (HasFilled fib.now wd.now table.now)) }
{
    if !can_fill(fib, wd, table) {
        return Ok(None);
    }
    let number = next_page_of(wd) as u32;
    let characters = fib.part(table, PLCF_BTE_CHPX);
    let paragraphs = fib.part(table, PLCF_BTE_PAPX);
    let chars = filled_bin(alloc, PageKind::Chpx, wd, characters, number)?;
    let pars = filled_bin(alloc, PageKind::Papx, wd, paragraphs, number)?;
    let all = joined_table(alloc, table, chars.as_slice(), pars.as_slice())?;
    if MAX_TABLE < all.len() {
        return Ok(None);
    }
    let pairs = pairs_behind(fib, table, chars.as_slice(), pars.as_slice());
    let front = filled_wd(alloc, fib, wd, &pairs)?;
    Ok(Some(FilledStreams {
        wd: front,
        table: all,
        pairs,
    }))
}

/// The table stream with two bin tables behind it.
fn joined_table(alloc: Global, table: &[u8], chars: &[u8], pars: &[u8]) -> Result<Vec<u8>, Memory>
    ensures { IfOk result (λ all. all.items ≡ table.now ++ (chars.now ++ pars.now)) }
{
    let mut all = copy_stream(alloc, table)?;
    all.extend_from_slice(chars)?;
    all.extend_from_slice(pars)?;
    Ok(all)
}

/// The pairs of the FIB that names them.
fn pairs_behind(fib: &AnyFib<'_>, table: &[u8], chars: &[u8], pars: &[u8]) -> Pairs
    requires { length table.now + (length chars.now + length pars.now) ≤ 7143936 }
    ensures pairs { result ≡ filled_pairs (early_pairs fib.now) (length table.now)
        (record { characters = chars.now; paragraphs = pars.now }) }
    ensures are { ArePairs result }
{
    let at = table.len() as u32;
    let len = chars.len() as u32;
    let mut pairs = fib.early_pairs();
    pairs.put(PLCF_BTE_CHPX as usize, at, len);
    pairs.put(PLCF_BTE_PAPX as usize, at + len, pars.len() as u32);
    pairs
}

/// `WordDocument` with the FIB of these pairs in front and the page behind it.
fn filled_wd(alloc: Global, fib: &AnyFib<'_>, wd: &[u8], pairs: &Pairs) -> Result<Vec<u8>, Memory>
    requires own { length fib.now < 2 ^ 32 }
    requires long { form_size Early ≤ length wd.now }
    requires short { length wd.now ≤ 7143936 }
    requires pairs { ArePairs pairs.now }
    ensures bytes { IfOk result (λ front. front.items
        ≡ written_fib (early_fields fib.now pairs.now) ++ drop (form_size Early) (with_empty_run wd.now)) }
    ensures fields { IfOk result (λ front. fib_fields front.items ≡ early_fields fib.now pairs.now) }
{
    let mut behind = copy_stream(alloc, wd)?;
    push_empty_run(&mut behind)?;
    let early = fib.early(pairs);
    let front = with_fib(alloc, &behind, &early)?;
    Ok(front)
}

/// Whether the gaps of streams can be filled: each page that a bin table names is in the stream, and what is behind
/// the table stream becomes a part of no part.
fn can_fill(fib: &AnyFib<'_>, wd: &[u8], table: &[u8]) -> bool
    requires { AreReadStreams fib.now wd.now table.now }
    ensures { IsTrue result ↔ CanFill fib.now wd.now table.now }
{
    if !are_pages_within(fib.part(table, PLCF_BTE_CHPX), wd) {
        return false;
    }
    if !are_pages_within(fib.part(table, PLCF_BTE_PAPX), wd) {
        return false;
    }
    let early = early_fib(fib);
    are_parts_within(&early, table)
}

/// Whether each part and the levels of lists end within the table stream.
fn are_parts_within(early: &Fib, table: &[u8]) -> bool
    requires { length table.now < 2 ^ 32 }
    ensures { IsTrue result ↔ ArePartsWithin early.now.pairs table.now }
{
    if !are_levels_within(table, early.pair(PLF_LST)) {
        return false;
    }
    for n in 0..PAIR_COUNT {
        if !is_part_within(table.len(), early.pair(n)) {
            return false;
        }
    }
    true
}

/// Whether a part has no bytes, or ends within a table stream of this length.
fn is_part_within(table_len: usize, pair: (u32, u32)) -> bool
    ensures { IsTrue result ↔ IsPartWithin table_len pair }
{
    pair.1 == 0 || pair.0 as usize + pair.1 as usize <= table_len
}

/// Whether PlfLst has no bytes, or its levels end within the table stream.
fn are_levels_within(table: &[u8], pair: (u32, u32)) -> bool
    requires { length table.now < 2 ^ 32 }
    ensures { IsTrue result ↔ AreLevelsWithin table.now pair }
{
    if pair.1 == 0 {
        return true;
    }
    end_before(table, pair, table.len())
}

/// Loads the front of filled streams, where the units of all CPs are those of the file.
pub(crate) fn load_filled<'a>(
    alloc: Global,
    fib: &AnyFib<'_>,
    filled: &'a FilledStreams,
    units: &[u16],
) -> Result<Option<LoadedText<'a>>, Memory>
    requires own { length fib.now < 2 ^ 32 }
    requires pairs { ArePairs filled.now.pairs }
    requires fields { fib_fields filled.now.wd.items ≡ early_fields fib.now filled.now.pairs }
    requires long { length filled.now.wd.items < 2 ^ 32 }
    requires short { length filled.now.table.items ≤ 7143936 }
    ensures { IfOk result (λ found. MatchOption found
        ((text : FileText) → ¬ IsFrontWith fib.now filled.now.wd.items filled.now.table.items units.now text)
        (IsFrontWith fib.now filled.now.wd.items filled.now.table.items units.now)) }
{
    match load_front(
        alloc,
        &filled.wd,
        fib.early(&filled.pairs),
        &filled.table,
        fib.text_len(),
    ) {
        Ok(front) => {
            if are_units(&front.units, units) {
                Ok(Some(front.text))
            } else {
                Ok(None)
            }
        }
        Err(ReadFault::Refused { .. }) => Ok(None),
        Err(ReadFault::Memory) => Err(Memory),
    }
}
