// A walk over CPs that ascend.
ghost use Rattle.std.specs.Prelude.{◌≡◌, ◌+◌, ◌<◌, ◌≤◌, ℕ, length, slice_index, MatchOption};
ghost use Rattle.doc_read.specs.Passing.{AreUp, AreCpsPassed, IsNotAmong};

/// The number of a CP in the list, where it is there. The CPs before number `next` are passed.
pub(crate) fn step(cps: &[u32], next: &mut usize, cp: u32) -> Option<usize>
    requires up { AreUp cps.now }
    requires passed { AreCpsPassed cps.now next.old cp }
    ensures passed { AreCpsPassed cps.now next.new (cp + 1) }
    ensures found { MatchOption result (IsNotAmong cps.now cp)
        (λ k. (k < length cps.now) × (slice_index cps.now k ≡ cp)) }
{
    let at = *next;
    if cps.len() <= at {
        return None;
    }
    if cps[at] != cp {
        return None;
    }
    *next = at + 1;
    Some(at)
}

/// The next CP of the list, or the greatest number where all are passed.
pub(crate) fn next_cp(cps: &[u32], next: usize) -> u32
    requires up { AreUp cps.now }
    ensures passed { (cp at : ℕ) → AreCpsPassed cps.now next cp → cp ≤ at → at ≤ result
        → AreCpsPassed cps.now next at }
{
    if cps.len() <= next {
        return u32::MAX;
    }
    cps[next]
}
