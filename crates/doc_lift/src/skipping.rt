// The streams of a file in which the codes that are not read are skipped, each at its own place: in the pages that the
// bin tables name, and in a style sheet that is first in the table stream.
ghost use Rattle.std.specs.Prelude.{◌≡◌, ◌↔◌, ◌+◌, ◌<◌, ◌≤◌, ◌^◌, IsTrue, IfOk, length, slice_range, drop};
ghost use Rattle.std.specs.Prelude.{◌++◌};
ghost use Rattle.doc_bits.specs.Rules.{Hold};
ghost use Rattle.fib_form.specs.Fib.{form_size, kept_pairs};
ghost use Rattle.fib_form.specs.FibFields.{fib_fields};
ghost use Rattle.fib_form.specs.FibBytes.{written_fib};
ghost use Rattle.fib_versions.specs.Early.{early_fields, early_pairs};
ghost use Rattle.fib_versions.specs.VersionRules.{version_rules};
ghost use Rattle.doc_parts.specs.Table.{plc_part};
ghost use Rattle.page_copies.specs.Pages.{SkipsPages};
ghost use Rattle.doc_meaning.specs.Skipped.{StandsFrom, StandsBehind, IsSheetFirst, SkipsTable, KeepsSepx};
ghost use Rattle.doc_meaning.specs.Skipped.{KeepsSepxs, bin_tables_of, fc_sepx, sheet_from, sheet_to};
ghost use Rattle.doc_lift.specs.LiftedRules.{SkipsStreams};

use doc_bits::{Memory, get16, get32};
use doc_parts::{FC_SEPX, SED_LEN};
use fib_form::{Fib, PAIR_COUNT};
use fib_versions::AnyFib;
use page_copies::skip_pages;
use part_skips::skip_sheet_in;
use std::alloc::Global;

/// The pairs of the style sheet, and of the bin tables of the characters and of the paragraphs.
const STSHF: usize = 1;

pub const PLCF_BTE_CHPX: u16 = 12;

pub const PLCF_BTE_PAPX: u16 = 13;

/// Where the pages begin that do not lie over the FIB.
const PAGES: usize = 1024;

/// `WordDocument` with a FIB of the early form in front, and the table stream, in which the codes that are not read are
/// skipped.
#[derive(Drop)]
pub(crate) struct SkippedStreams {
    pub(crate) wd: Vec<u8>,
    pub(crate) table: Vec<u8>,
}

/// The FIB of the early form that represents a FIB.
pub(crate) fn early_fib(fib: &AnyFib<'_>) -> Fib
    requires { length fib.now < 2 ^ 32 }
    ensures { result ≡ early_fields fib.now (early_pairs fib.now) }
{
    let pairs = fib.early_pairs();
    fib.early(&pairs)
}

/// Skips the codes that are not read in copies of the streams of a file.
pub(crate) fn skipped_streams(
    alloc: Global,
    fib: &AnyFib<'_>,
    wd: &[u8],
    table: &[u8],
) -> Result<SkippedStreams, Memory>
    requires same { fib.now ≡ wd.now }
    requires version { Hold (version_rules wd.now) }
    requires small { length wd.now < 2 ^ 32 }
    requires table_small { length table.now < 2 ^ 32 }
    ensures { IfOk result (λ streams. SkipsStreams wd.now table.now streams.wd.items streams.table.items) }
{
    let early = early_fib(fib);
    let pages = skipped_pages(alloc, fib, wd, table)?;
    let front = with_fib(alloc, &pages, &early)?;
    let sheet = skipped_table(alloc, &early, table)?;
    Ok(SkippedStreams {
        wd: front,
        table: sheet,
    })
}

/// A copy of a stream.
pub(crate) fn copy_stream(alloc: Global, bytes: &[u8]) -> Result<Vec<u8>, Memory>
    ensures { IfOk result (λ copy. copy.items ≡ bytes.now) }
{
    let mut copy = Vec::with_capacity(alloc, bytes.len())?;
    copy.extend_from_slice(bytes)?;
    Ok(copy)
}

/// A copy of a stream with this FIB in front.
pub(crate) fn with_fib(alloc: Global, wd: &[u8], fib: &Fib) -> Result<Vec<u8>, Memory>
    requires { form_size fib.now.form ≤ length wd.now }
    ensures bytes { IfOk result
        (λ copy. copy.items ≡ written_fib fib.now ++ drop (form_size fib.now.form) wd.now) }
    ensures fields { IfOk result (λ copy. fib_fields copy.items ≡ fib.now) }
{
    let mut copy = Vec::with_capacity(alloc, wd.len())?;
    copy.extend_from_slice(wd)?;
    fib.write(&mut copy);
    Ok(copy)
}

/// A copy of `WordDocument` with skipped pages.
fn skipped_pages(
    alloc: Global,
    fib: &AnyFib<'_>,
    wd: &[u8],
    table: &[u8],
) -> Result<Vec<u8>, Memory>
    requires same { fib.now ≡ wd.now }
    ensures { IfOk result (λ pages. SkipsPages (bin_tables_of wd.now table.now) wd.now pages.items) }
{
    let mut pages = copy_stream(alloc, wd)?;
    let characters = fib.part(table, PLCF_BTE_CHPX);
    let paragraphs = fib.part(table, PLCF_BTE_PAPX);
    skip_pages(alloc, &mut pages, characters, paragraphs)?;
    Ok(pages)
}

/// Whether a part has no bytes, or begins at this place or behind it.
fn stands_from(place: usize, pair: (u32, u32)) -> bool
    ensures { IsTrue result ↔ StandsFrom place pair }
{
    pair.1 == 0 || place <= pair.0 as usize
}

/// Whether the part of pair `n`, if it is not the style sheet, has no bytes, or begins at this place or behind it.
fn stands_behind(early: &Fib, place: usize, n: usize) -> bool
    requires { n < kept_pairs }
    ensures { IsTrue result ↔ StandsBehind early.now.pairs place n }
{
    if n == STSHF {
        return true;
    }
    stands_from(place, early.pair(n))
}

/// Whether the style sheet is in the table stream, and each other part is behind it.
fn is_sheet_first(early: &Fib, table_len: usize) -> bool
    ensures { IsTrue result ↔ IsSheetFirst early.now.pairs table_len }
{
    let to = sheet_end(early);
    if table_len < to {
        return false;
    }
    for n in 0..PAIR_COUNT {
        if !stands_behind(early, to, n) {
            return false;
        }
    }
    true
}

/// Where the style sheet begins in the table stream.
fn sheet_start(early: &Fib) -> usize
    ensures { result ≡ sheet_from early.now.pairs }
{
    early.pair(STSHF).0 as usize
}

/// Where it ends.
fn sheet_end(early: &Fib) -> usize
    ensures { result ≡ sheet_to early.now.pairs }
{
    let (from, len) = early.pair(STSHF);
    from as usize + len as usize
}

/// Skips the style sheet of the table stream, where that is first.
fn skip_first(early: &Fib, table: &mut [u8])
    requires { length table.old < 2 ^ 32 }
    ensures { SkipsTable early.now.pairs table.old table.new }
{
    if !is_sheet_first(early, table.len()) {
        return;
    }
    skip_sheet_in(table, sheet_start(early), sheet_end(early));
}

/// A copy of the table stream with a skipped style sheet, where that is first.
fn skipped_table(alloc: Global, early: &Fib, table: &[u8]) -> Result<Vec<u8>, Memory>
    requires { length table.now < 2 ^ 32 }
    ensures { IfOk result (λ copy. SkipsTable early.now.pairs table.now copy.items) }
{
    let mut copy = copy_stream(alloc, table)?;
    skip_first(early, &mut copy);
    Ok(copy)
}

/// Whether bytes are these.
fn are_same(bytes: &[u8], others: &[u8]) -> bool
    ensures { IsTrue result ↔ bytes.now ≡ others.now }
{
    bytes == others
}

/// Whether units are these.
pub(crate) fn are_units(units: &[u16], others: &[u16]) -> bool
    ensures { IsTrue result ↔ units.now ≡ others.now }
{
    units == others
}

/// Whether the count of bytes and the list of a Sepx behind the FIB are the same in both streams.
fn keeps_sepx(old: &[u8], new: &[u8], fc: u32) -> bool
    requires len { length new.now ≡ length old.now }
    ensures { IsTrue result ↔ KeepsSepx old.now new.now fc }
{
    let at = fc as usize;
    if at < PAGES {
        return true;
    }
    if old.len() < at + 2 {
        return true;
    }
    let count = get16(old, at);
    if get16(new, at) != count {
        return false;
    }
    are_same(sepx_bytes(new, at, count), sepx_bytes(old, at, count))
}

/// The bytes of a Sepx with so many of them, as far as they are in the stream.
fn sepx_bytes(wd: &[u8], at: usize, count: u16) -> &[u8]
    requires { at + 2 ≤ length wd.now }
    ensures { result.now ≡ slice_range wd.now (at + 2) (at + 2 + count) }
{
    let from = at + 2;
    let to = wd.len().min(from + count as usize);
    &wd[from..to]
}

/// fcSepx of a section.
fn fc_sepx_of(sections: &[u8], k: usize) -> u32
    requires { k < (plc_part 12 sections.now).count }
    ensures { result ≡ fc_sepx sections.now k }
{
    let from = 4 * (sed_count(sections) + 1) + SED_LEN * k;
    get32(&sections[from..from + SED_LEN], FC_SEPX)
}

/// The number of sections.
fn sed_count(sections: &[u8]) -> usize
    ensures { result ≡ (plc_part 12 sections.now).count }
{
    sections.len().saturating_sub(4) / (4 + SED_LEN)
}

/// Whether the Sepxs of all sections are the same in both streams.
pub(crate) fn keeps_sepxs(sections: &[u8], old: &[u8], new: &[u8]) -> bool
    requires len { length new.now ≡ length old.now }
    ensures { IsTrue result ↔ KeepsSepxs sections.now old.now new.now }
{
    for k in 0..sed_count(sections) {
        if !keeps_sepx(old, new, fc_sepx_of(sections, k)) {
            return false;
        }
    }
    true
}
