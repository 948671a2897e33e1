// The numbers of paragraphs, by their places.
ghost use Rattle.std.specs.Prelude.{◌≡◌, ◌+◌, ◌^◌, ◌<◌, ℕ, length, slice_get, Some, IfOk};
ghost use Rattle.list_numbers.specs.declared.list_place.ListPlace.{ListPlace};
ghost use Rattle.list_numbers.specs.Numbers.{numbers_at, AreFit};

use crate::counters::new_counters;
use crate::list_formats::ListFormats;
use crate::list_place::ListPlace;
use crate::numbering::next_number;
use crate::numbers_list::Numbers;
use doc_bits::Memory;
use std::alloc::Global;

/// The numbers of paragraphs at these places.
pub(crate) fn numbers_at(
    alloc: Global,
    lists: &ListFormats,
    places: &[Option<ListPlace>],
) -> Result<Numbers, Memory>
    requires few { length places.now + 1 < 2 ^ 32 }
    requires lists { length lists.now < 2 ^ 16 }
    requires fit { AreFit lists.now places.now }
    ensures { IfOk result (λ numbers. numbers ≡ numbers_at lists.now places.now) }
{
    let mut counts = new_counters(alloc, lists.len())?;
    let mut numbers = Numbers::new(alloc);
    for i in 0..places.len() {
        let number = next_number(alloc, lists, &mut counts, places[i])?;
        numbers.add(number)?;
    }
    Ok(numbers)
}
