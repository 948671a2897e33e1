// The lists of a page, skipped in place.
ghost use Rattle.std.specs.Prelude.{◌≡◌, ◌<◌, length};
ghost use Rattle.fkp_pages.specs.Fkp.{HasRunCount, page_run_count};
ghost use Rattle.page_copies.specs.Places.{HasListsApart};
ghost use Rattle.page_copies.specs.Copies.{IsCopyOf, SkipsRun};

use crate::places::{list_place, run_count};
use fkp_pages::PageKind;
use prl_skips::skip_list;

/// Skips the codes in the list of a run.
fn skip_run(kind: PageKind, page: &mut [u8], run: usize)
    requires page { length page.old ≡ 512 }
    requires counted { HasRunCount kind page.old }
    requires run { run < page_run_count page.old }
    ensures { SkipsRun kind run page.old page.new }
{
    if let Some(place) = list_place(kind, page, run) {
        skip_list(&mut page[place.from + kind.least_list()..place.to]);
    }
}

/// Skips the codes in the lists of a page.
pub fn skip_page(kind: PageKind, page: &mut [u8])
    requires page { length page.old ≡ 512 }
    requires counted { HasRunCount kind page.old }
    requires apart { HasListsApart kind page.old }
    ensures { IsCopyOf kind page.old page.new }
{
    for run in 0..run_count(page) {
        skip_run(kind, page, run);
    }
}
