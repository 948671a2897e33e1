// How many pages runs take. No page is made.
ghost use Rattle.std.specs.Prelude.{◌≡◌, length};
ghost use Rattle.std.specs.List.{All};
ghost use Rattle.fkp_pages.specs.Runs.{AreRuns, IsWritableRun};
ghost use Rattle.fkp_pages.specs.Packed.{pages_of};

use crate::kind::PageKind;
use crate::lists::{ChpRuns, PapRuns, Run};
use crate::packing::page_len;

/// How many pages runs of characters take.
pub fn chpx_page_count(runs: &ChpRuns) -> usize
    requires { AreRuns PageKind.Chpx runs.now }
    ensures { result ≡ length (pages_of PageKind.Chpx runs.now).starts }
{
    count_pages(&runs.items, PageKind::Chpx)
}

/// How many pages runs of paragraphs take.
pub fn papx_page_count(runs: &PapRuns) -> usize
    requires { AreRuns PageKind.Papx runs.now }
    ensures { result ≡ length (pages_of PageKind.Papx runs.now).starts }
{
    count_pages(&runs.items, PageKind::Papx)
}

/// How many pages these runs take.
fn count_pages(runs: &[Run], kind: PageKind) -> usize
    requires { All (IsWritableRun kind) runs.now }
    ensures { result ≡ length (pages_of kind runs.now).starts }
{
    let mut count = 0;
    let mut done = 0;
    while done < runs.len() {
        done += page_len(&runs[done..], kind);
        count += 1;
    }
    count
}
