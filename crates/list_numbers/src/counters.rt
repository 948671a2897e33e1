// Nine counters a list, one for each level.
ghost use Rattle.std.specs.Prelude.{◌≡◌, ◌+◌, ◌*◌, ◌^◌, ◌<◌, ◌≤◌, [], length, replicate, IfOk};
ghost use Rattle.list_numbers.specs.Counters.{counter, CountsParagraph, HaveCounted};

use crate::list_place::ListPlace;
use doc_bits::Memory;
use std::alloc::Global;

/// The counters of a list.
const LEVELS: usize = 9;

/// The counters of so many lists, before the first paragraph.
#[tactic(auto, using(crate::proofs::CounterLemmas::zeros_have_counted))]
pub(crate) fn new_counters(alloc: Global, lists: usize) -> Result<Vec<u32>, Memory>
    requires { lists < 2 ^ 16 }
    ensures { IfOk result (λ counts. HaveCounted [] lists counts.items) }
{
    zeros(alloc, LEVELS * lists)
}

/// So many zeros.
fn zeros(alloc: Global, count: usize) -> Result<Vec<u32>, Memory>
    ensures { IfOk result (λ zeros. zeros.items ≡ replicate count 0) }
{
    let mut zeros = Vec::new(alloc);
    for _i in 0..count {
        zeros.push(0)?;
    }
    Ok(zeros)
}

/// Counts a paragraph at a place.
pub(crate) fn count_place(counts: &mut [u32], place: ListPlace)
    requires list { 9 * place.list + 9 ≤ length counts.old }
    requires level { place.level < 9 }
    requires few { counter counts.old place.list place.level + 1 < 2 ^ 32 }
    ensures { CountsParagraph place counts.old counts.new }
{
    let first = LEVELS * place.list;
    let at = first + place.level;
    counts[at] += 1;
    for above in at + 1..first + LEVELS {
        counts[above] = 0;
    }
}
