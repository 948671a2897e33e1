// The values that a list sets, in order of their codes: where a code is is guessed, or found by halving.
ghost use Rattle.std.specs.Prelude.{◌≡◌, IfOk, IfSome, OnOk};
ghost use Rattle.std.specs.Ordering.{nat_cmp};
ghost use Rattle.std.specs.FinMap as map;
ghost use Rattle.prop_map.specs.Values.{set_value_entries, AreCodesInOrder, IsLesserCount};

use crate::block::{Block, push_entry};
use doc_bits::{Bytes, Memory};
use sprm_table::Code;
use std::alloc::Global;

/// So many codes are kept so: one that is put before all others moves them.
const MAX_VALUES: usize = 1024;

/// A code and the value that a list sets there.
#[derive(Clone, Copy)]
pub(crate) struct SetValue<'a> {
    pub(crate) code: Code,
    pub(crate) value: &'a [u8],
}

/// Puts a value at its code, in place of what was there, and tells where the next one is looked for first. Nothing
/// where it would be one more than the most.
pub(crate) fn put_value<'a>(
    values: &mut Vec<SetValue<'a>>,
    guess: usize,
    set: SetValue<'a>,
) -> Result<Option<usize>, Memory>
    requires { AreCodesInOrder values.old.items }
    ensures order { OnOk result (AreCodesInOrder values.new.items) }
    ensures put { IfOk result (λ put. IfSome put (λ _. set_value_entries values.new.items
        ≡ map.put nat_cmp set.entry.code.0 set.entry.value.now (set_value_entries values.old.items))) }
{
    let at = place_of(values, guess, set.code);
    if at < values.len() && values[at].code.0 == set.code.0 {
        values[at] = set;
        return Ok(Some(at + 1));
    }
    if MAX_VALUES <= values.len() {
        return Ok(None);
    }
    values.insert(at, set)?;
    Ok(Some(at + 1))
}

/// How many of the values have lesser codes: as many as are before the guess, where the code is there.
fn place_of(values: &[SetValue<'_>], guess: usize, code: Code) -> usize
    requires { AreCodesInOrder values.now }
    ensures { IsLesserCount values.now code.0 result }
{
    if guess < values.len() && values[guess].code.0 == code.0 {
        return guess;
    }
    lesser_count(values, code)
}

/// How many of the values have lesser codes.
fn lesser_count(values: &[SetValue<'_>], code: Code) -> usize
    requires { AreCodesInOrder values.now }
    ensures { IsLesserCount values.now code.0 result }
{
    let mut low = 0;
    let mut high = values.len();
    while low < high {
        let middle = low + (high - low) / 2;
        if values[middle].code.0 < code.0 {
            low = middle + 1;
        } else {
            high = middle;
        }
    }
    low
}

/// The block of the values.
pub(crate) fn block_of(alloc: Global, values: &[SetValue<'_>]) -> Result<Block, Memory>
    requires { AreCodesInOrder values.now }
    ensures { IfOk result (λ made. made ≡ map.from_sorted (set_value_entries values.now)) }
{
    let mut bytes = Bytes::new(alloc);
    for set in values {
        push_entry(&mut bytes, set.code, set.value)?;
    }
    Ok(Block::of_bytes(bytes))
}
