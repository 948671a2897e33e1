// The number of a paragraph, by the counters of its list.
ghost use Rattle.std.specs.Prelude.{◌≡◌, ◌+◌, ◌*◌, ◌^◌, ◌<◌, ◌≤◌, ◌++◌, ◌∷◌, [], ℕ, List, Option};
ghost use Rattle.std.specs.Prelude.{length, slice_get, slice_index, IfOk};
ghost use Rattle.std.specs.Option.{ForSome};
ghost use Rattle.list_numbers.specs.declared.list_place.ListPlace.{ListPlace};
ghost use Rattle.list_numbers.specs.Numbers.{units_in, number_at_place};
ghost use Rattle.list_numbers.specs.Counters.{counter, HaveCounted};

use crate::counters::count_place;
use crate::level_text::number_units;
use crate::list_formats::ListFormats;
use crate::list_place::ListPlace;
use doc_bits::{Memory, Units};
use std::alloc::Global;

/// The counters of a list.
const LEVELS: usize = 9;

/// Counts a paragraph, and gives its number, where it has a place.
pub(crate) fn next_number(
    alloc: Global,
    lists: &ListFormats,
    counts: &mut [u32],
    place: Option<ListPlace>,
) -> Result<Option<Units>, Memory>
    requires place { ForSome place (λ at. (at.list < length lists.now) × (at.level < 9)) }
    requires size { length counts.old ≡ 9 * length lists.now }
    requires few { (i : ℕ) → slice_index counts.old i + 1 < 2 ^ 32 }
    ensures counted { (places : List (Option ListPlace)) → HaveCounted places (length lists.now) counts.old
        → HaveCounted (places ++ place ∷ []) (length lists.now) counts.new }
    ensures number { IfOk result (λ number. (places : List (Option ListPlace))
        → HaveCounted places (length lists.now) counts.old
        → number ≡ number_at_place lists.now (places ++ place ∷ []) place) }
{
    let Some(place) = place else {
        return Ok(None);
    };
    count_place(counts, place);
    let units = number_here(alloc, lists, counts, place)?;
    Ok(Some(units))
}

/// The units of the number of a paragraph that was counted.
pub(crate) fn number_here(
    alloc: Global,
    lists: &ListFormats,
    counts: &[u32],
    place: ListPlace,
) -> Result<Units, Memory>
    requires list { place.list < length lists.now }
    requires counts { 9 * place.list + 9 ≤ length counts.now }
    ensures { IfOk result (λ units. units
        ≡ units_in (slice_get lists.now place.list) place.level (counter counts.now place.list)) }
{
    let list = lists.get(place.list);
    let first = LEVELS * place.list;
    let units = number_units(
        alloc,
        &list.levels,
        place.level,
        &counts[first..first + LEVELS],
    )?;
    Ok(units)
}
