// The lists of pages: that of a range, and that of a run without properties.
ghost use Rattle.std.specs.Prelude.{◌≡◌, ◌≤◌, drop, length, MatchOption};
ghost use Rattle.sprm_table.specs.Sprm.{IsAcceptedList};
ghost use Rattle.fkp_pages.specs.declared.kind.RunAnswer.TheVariants.{Found};
ghost use Rattle.fkp_pages.specs.Fkp.{least_list};
ghost use Rattle.fkp_pages.specs.Runs.{run_groups};
ghost use Rattle.fkp_pages.specs.Properties.{IsListAnswered, bare_list};
ghost use Rattle.direct_props.specs.Stretches.{HasValidList};

use crate::rules::style_len;
use fkp_pages::{PAGE_LEN, PageKind, groups_of_runs};
use sprm_table::list_fault;

/// The style number 0 and no sprms.
const BARE_PARAGRAPH: [u8; 2] = [0, 0];

/// No sprms.
const BARE_CHARACTER: [u8; 0] = [];

/// The list in a range of a page, where it has room there and its sprms have no fault.
pub(crate) fn list_in(kind: PageKind, page: &[u8], from: usize, to: usize) -> Option<&[u8]>
    requires { length page.now ≡ 512 }
    ensures { MatchOption result
        (¬ (HasValidList kind page.now (Found from to)))
        (λ list. HasValidList kind page.now (Found from to)
        × ((IsListAnswered kind page.now (Found from to) list.now × (least_list kind ≤ length list.now))
        × IsAcceptedList (drop (least_list kind) list.now) (run_groups kind))) }
{
    if PAGE_LEN <= to || to < from || to - from < style_len(kind) {
        return None;
    }
    let list = &page[from..to];
    match list_fault(&list[style_len(kind)..], groups_of_runs(kind)) {
        None => Some(list),
        Some(_) => None,
    }
}

/// The list of a run without properties.
pub(crate) fn bare(kind: PageKind) -> &'static [u8]
    ensures list { result.now ≡ bare_list kind }
    ensures long { least_list kind ≤ length (bare_list kind) }
    ensures accepted { IsAcceptedList (drop (least_list kind) (bare_list kind)) (run_groups kind) }
{
    match kind {
        PageKind::Chpx => &BARE_CHARACTER,
        PageKind::Papx => &BARE_PARAGRAPH,
    }
}
