// [MS-DOC] ChpxFkp, PapxFkp: the bytes of a page.
ghost use Rattle.std.specs.Prelude.{◌≡◌, ◌<◌, ◌≤◌, ◌+◌, ◌-◌, ◌++◌, ◌∷◌};
ghost use Rattle.std.specs.Prelude.{◌/◌, ◌↔◌, List, ℕ, length, take, drop, All};
ghost use Rattle.std.specs.Prelude.{IsTrue, OnOk, if◌then◌else◌};
ghost use Rattle.fkp_pages.specs.Fkp.{run_entry_size, most_runs};
ghost use Rattle.fkp_pages.specs.Runs.{IsWritableRun};
ghost use Rattle.fkp_pages.specs.Written.{run_bytes_written};
ghost use Rattle.fkp_pages.specs.PageBytes.{zeros, lowered, entries_end, FitsPage, half_offset, page_fcs, page_bytes};

use crate::kind::PageKind;
use crate::lists::Run;
use crate::written::{write_run, written_len};
use doc_bits::{Bytes, Memory};
use std::alloc::Global;

/// Where the limit of a page begins: its last byte is the number of its runs.
pub(crate) const FIRST_LIMIT: usize = 511;

/// The limit after a run, where it was `limit` before.
pub(crate) fn limit_after_run(limit: usize, run: &Run, kind: PageKind) -> usize
    requires { IsWritableRun kind run.now }
    ensures { result ≡ lowered limit (run_bytes_written kind run.now) }
{
    offset_below(limit, written_len(run, kind))
}

/// Whether so many runs, with this limit after them, fit into a page.
pub(crate) fn has_room(kind: PageKind, count: usize, limit: usize) -> bool
    ensures { IsTrue result ↔ ((count ≤ most_runs kind) × (entries_end kind count ≤ limit)) }
{
    count <= kind.most_runs() && entries_end(kind, count) <= limit
}

/// Appends the page of these runs.
pub(crate) fn push_page(
    alloc: Global,
    bytes: &mut Bytes,
    runs: &[Run],
    kind: PageKind,
) -> Result<(), Memory>
    requires some { 0 < length runs.now }
    requires writable { All (IsWritableRun kind) runs.now }
    requires fits { FitsPage kind runs.now }
    ensures { OnOk result (bytes.new ≡ bytes.old ++ page_bytes kind runs.now) }
{
    push_fcs(bytes, runs)?;
    let mut lists = [0u8; FIRST_LIMIT];
    let mut limit = FIRST_LIMIT;
    for run in runs {
        let properties = write_run(alloc, run, kind)?;
        let list = properties.as_slice();
        let offset = offset_below(limit, list.len());
        write_at(&mut lists, offset, list);
        push_entry(bytes, list.is_empty(), offset, kind)?;
        limit = offset;
    }
    bytes.push_all(&lists[entries_end(kind, runs.len())..])?;
    bytes.push_all(&[runs.len() as u8])
}

/// The greatest even offset that leaves room for so many bytes below the limit.
fn offset_below(limit: usize, len: usize) -> usize
    ensures { (bytes : List ℕ) → length bytes ≡ len → result ≡ lowered limit bytes }
{
    if len == 0 {
        return limit;
    }
    limit.saturating_sub(len) / 2 * 2
}

/// Where the fcs and the entries of so many runs end.
fn entries_end(kind: PageKind, count: usize) -> usize
    requires { count ≤ most_runs kind }
    ensures { result ≡ entries_end kind count }
{
    4 * (count + 1) + kind.entry_size() * count
}

/// Appends where each run begins, and where the last one ends.
fn push_fcs(bytes: &mut Bytes, runs: &[Run]) -> Result<(), Memory>
    requires { 0 < length runs.now }
    ensures { OnOk result (bytes.new ≡ bytes.old ++ page_fcs runs.now) }
{
    for run in runs {
        bytes.push32(run.from)?;
    }
    bytes.push32(runs[runs.len() - 1].to)
}

/// Appends the entry of a run: half the offset of what is written for it, and zeros.
fn push_entry(bytes: &mut Bytes, is_bare: bool, offset: usize, kind: PageKind) -> Result<(), Memory>
    requires { offset ≤ 511 }
    ensures { OnOk result
        (bytes.new ≡ bytes.old ++ ((if is_bare then 0 else offset / 2) ∷ zeros (run_entry_size kind - 1))) }
{
    let half = if is_bare { 0 } else { (offset / 2) as u8 };
    bytes.push_all(&[half])?;
    let zeros = [0u8; 12];
    bytes.push_all(&zeros[..kind.entry_size() - 1])
}

/// Writes bytes at a place. All others stay.
fn write_at(area: &mut [u8], at: usize, bytes: &[u8])
    requires { at + length bytes.now ≤ length area.old }
    ensures { area.new ≡ take at area.old ++ (bytes.now ++ drop (at + length bytes.now) area.old) }
{
    area[at..at + bytes.len()].copy_from_slice(bytes);
}
