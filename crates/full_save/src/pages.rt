// Text and pages behind what a stream has: both full and fast saves write them.
ghost use Rattle.std.specs.Prelude.{◌≡◌, ◌+◌, ◌^◌, ◌≤◌, ◌++◌, length, OnOk, OnErr, IfOk};
ghost use Rattle.std.specs.Io.{StartsWith};
ghost use Rattle.fkp_pages.specs.declared.kind.PageKind.{PageKind};
ghost use Rattle.fkp_pages.specs.Runs.{AreRuns};
ghost use Rattle.fkp_pages.specs.Packed.{pages_of};
ghost use Rattle.fkp_pages.specs.InARow.{numbered_bins};
ghost use Rattle.full_save.specs.WordDocument.{units_bytes};

use doc_bits::{Bytes, Memory};
use fkp_pages::{Bins, ChpRuns, Pages, PapRuns, write_chpx_pages, write_papx_pages};
use std::alloc::Global;

/// Appends units of 16 bits. After want of memory some of them may be behind what was there.
pub fn append_units(out: &mut Bytes, units: &[u16]) -> Result<(), Memory>
    ensures ok { OnOk result (out.new ≡ out.old ++ units_bytes units.now) }
    ensures front { OnErr result (StartsWith out.new out.old) }
{
    for unit in units {
        out.push16(*unit)?;
    }
    Ok(())
}

/// Appends the pages of runs of characters, the first of which has this number, and their ranges to those of a bin
/// table. Answers the number behind the last page. After want of memory the ranges are as they were, and pages may
/// be behind what was there.
pub fn append_chpx_pages(
    alloc: Global,
    out: &mut Bytes,
    bins: &mut Bins,
    runs: &ChpRuns,
    number: u32,
) -> Result<u32, Memory>
    requires runs { AreRuns PageKind.Chpx runs.now }
    requires room { number + length runs.now ≤ 2 ^ 22 }
    ensures bytes { OnOk result (out.new ≡ out.old ++ (pages_of PageKind.Chpx runs.now).bytes) }
    ensures bins { OnOk result
        (bins.new ≡ bins.old ++ numbered_bins number (pages_of PageKind.Chpx runs.now).starts) }
    ensures next { IfOk result (λ next. next ≡ number + length (pages_of PageKind.Chpx runs.now).starts) }
    ensures front { OnErr result (StartsWith out.new out.old) }
    ensures err { OnErr result (bins.new ≡ bins.old) }
{
    let pages = write_chpx_pages(alloc, runs)?;
    let next = append_pages(out, bins, &pages, number)?;
    Ok(next)
}

/// Appends the pages of runs of paragraphs, as `append_chpx_pages` does.
pub fn append_papx_pages(
    alloc: Global,
    out: &mut Bytes,
    bins: &mut Bins,
    runs: &PapRuns,
    number: u32,
) -> Result<u32, Memory>
    requires runs { AreRuns PageKind.Papx runs.now }
    requires room { number + length runs.now ≤ 2 ^ 22 }
    ensures bytes { OnOk result (out.new ≡ out.old ++ (pages_of PageKind.Papx runs.now).bytes) }
    ensures bins { OnOk result
        (bins.new ≡ bins.old ++ numbered_bins number (pages_of PageKind.Papx runs.now).starts) }
    ensures next { IfOk result (λ next. next ≡ number + length (pages_of PageKind.Papx runs.now).starts) }
    ensures front { OnErr result (StartsWith out.new out.old) }
    ensures err { OnErr result (bins.new ≡ bins.old) }
{
    let pages = write_papx_pages(alloc, runs)?;
    let next = append_pages(out, bins, &pages, number)?;
    Ok(next)
}

/// Appends pages and their ranges. Answers the number behind the last page.
fn append_pages(out: &mut Bytes, bins: &mut Bins, pages: &Pages, number: u32) -> Result<u32, Memory>
    requires { number + length pages.now.starts ≤ 2 ^ 22 }
    ensures bytes { OnOk result (out.new ≡ out.old ++ pages.now.bytes) }
    ensures bins { OnOk result (bins.new ≡ bins.old ++ numbered_bins number pages.now.starts) }
    ensures next { IfOk result (λ next. next ≡ number + length pages.now.starts) }
    ensures front { OnErr result (StartsWith out.new out.old) }
    ensures err { OnErr result (bins.new ≡ bins.old) }
{
    out.push_all(pages.bytes.as_slice())?;
    pages.add_to(bins, number)?;
    Ok(number + pages.starts.len() as u32)
}
