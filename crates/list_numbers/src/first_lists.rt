// The first list of each number: a tree, so that each use costs the logarithm of the number of lists.
ghost use Rattle.std.specs.Prelude.{◌≡◌, ◌<◌, ℕ, IfOk, Some, IfSome, length};
ghost use Rattle.std.specs.Ordering.{nat_cmp};
ghost use Rattle.std.specs.BTreeMap.{get};
ghost use Rattle.list_numbers.specs.Places.{first_list, list_place, level_in, used_list, AreFirstLists};

use crate::list_format::ListFormat;
use crate::list_formats::ListFormats;
use crate::list_place::ListPlace;
use crate::mark_values::MarkValues;
use doc_bits::Memory;
use std::alloc::Global;
use std::collections::BTreeMap;

/// The highest level of a list.
const LAST_LEVEL: u8 = 8;

/// The index of the first list of each number. The lists are gone through from the last, so that the first one stays.
pub(crate) fn first_lists(
    alloc: Global,
    lists: &ListFormats,
) -> Result<BTreeMap<u32, usize>, Memory>
    ensures { IfOk result (AreFirstLists lists.now) }
{
    let mut firsts = BTreeMap::new(alloc);
    let mut k = lists.len();
    while k > 0 {
        k -= 1;
        firsts.insert(lists.get(k).number, k)?;
    }
    Ok(firsts)
}

/// The place that values name.
pub(crate) fn place_of(
    firsts: &BTreeMap<u32, usize>,
    lists: &ListFormats,
    uses: &[u32],
    values: MarkValues,
) -> Option<ListPlace>
    requires { AreFirstLists lists.now firsts.now }
    ensures { result ≡ list_place lists.now uses.now values }
{
    let number = used_list(uses, values.ilfo)?;
    let list = *firsts.get(&number)?;
    let level = level_in(lists.get(list), values.ilvl)?;
    Some(ListPlace { list, level })
}

/// The number of the list that a use names. Uses are counted from 1.
fn used_list(uses: &[u32], ilfo: Option<u16>) -> Option<u32>
    ensures { result ≡ used_list uses.now ilfo }
{
    let ilfo = ilfo? as usize;
    if ilfo == 0 || uses.len() < ilfo {
        return None;
    }
    Some(uses[ilfo - 1])
}

/// The level that is named in a list. A simple list has one level.
fn level_in(list: &ListFormat, ilvl: Option<u8>) -> Option<usize>
    ensures level { result ≡ level_in list.now ilvl }
    ensures low { IfSome result (λ level. level < 9) }
{
    if list.simple {
        return Some(0);
    }
    let Some(level) = ilvl else {
        return Some(0);
    };
    if level <= LAST_LEVEL {
        Some(level as usize)
    } else {
        None
    }
}
