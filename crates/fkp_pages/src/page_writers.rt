// Pages of characters and of paragraphs.
ghost use Rattle.std.specs.Prelude.{◌≡◌, IfOk};
ghost use Rattle.std.specs.List.{All};
ghost use Rattle.fkp_pages.specs.Runs.{AreRuns, HasRunNumbers};
ghost use Rattle.fkp_pages.specs.Packed.{pages_of};
ghost use Rattle.fkp_pages.specs.Pages.{ArePagesOf};

use crate::kind::PageKind;
use crate::lists::{ChpRuns, PapRuns};
use crate::packing::{Pages, write_pages};
use doc_bits::Memory;
use std::alloc::Global;

/// The pages of runs of characters. No runs give no page.
pub fn write_chpx_pages(alloc: Global, runs: &ChpRuns) -> Result<Pages, Memory>
    requires { AreRuns PageKind.Chpx runs.now }
    ensures pages { IfOk result (λ pages. ArePagesOf PageKind.Chpx runs.now pages) }
    ensures is { IfOk result (λ pages. pages ≡ pages_of PageKind.Chpx runs.now) }
    ensures numbers { All HasRunNumbers runs.now }
{
    write_pages(alloc, &runs.items, PageKind::Chpx)
}

/// The pages of runs of paragraphs. No runs give no page.
pub fn write_papx_pages(alloc: Global, runs: &PapRuns) -> Result<Pages, Memory>
    requires { AreRuns PageKind.Papx runs.now }
    ensures pages { IfOk result (λ pages. ArePagesOf PageKind.Papx runs.now pages) }
    ensures is { IfOk result (λ pages. pages ≡ pages_of PageKind.Papx runs.now) }
    ensures numbers { All HasRunNumbers runs.now }
{
    write_pages(alloc, &runs.items, PageKind::Papx)
}
