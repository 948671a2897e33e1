// The entries that a walk keeps: of each code the last, in the order in which they are.
ghost use Rattle.std.specs.Prelude.{◌≡◌, ◌++◌, ◌∷◌, [], ℕ, IfSome, IfOk, OnOk};
ghost use Rattle.std.specs.List.{All, flat_map};
ghost use Rattle.std.specs.FinMap.{empty};
ghost use Rattle.sprm_table.specs.Codes.{class_of, is_clear};
ghost use Rattle.sprm_table.specs.Sprm.{spelling};
ghost use Rattle.prop_map.specs.Formed.{IsPropertyMap};
ghost use Rattle.prop_map.specs.Acting.{ArePropertiesAfter};
ghost use Rattle.overlapping_grpprls.specs.Keeping.{kept_from, IsForgotten, IsKeeping, IsKeptEntry, HasCode};

use crate::ranges::Lists;
use crate::walk::{WalkEntry, entry_at};
use doc_bits::{Bytes, Memory};
use prop_map::{PropMap, act};
use sprm_table::{Class, Code, class};
use std::alloc::Global;

/// So many codes are kept.
const MAX_CODES: usize = 1024;

/// Walks on over the entries that end at a place or before it, and keeps the places and the last entries: where the
/// walk is then.
pub(crate) fn advance_recording(
    lists: &Lists<'_>,
    at: usize,
    to: usize,
    places: &mut Vec<usize>,
    kept: &mut Vec<WalkEntry>,
) -> Result<usize, Memory>
    requires { IsKeeping lists.now.stream.now lists.now.groups at places.old.items kept.old.items }
    ensures { IfOk result
        (λ at. IsKeeping lists.now.stream.now lists.now.groups at places.new.items kept.new.items) }
{
    let mut here = at;
    while let Some(entry) = entry_at(lists, here) {
        if to < entry.to || MAX_CODES <= kept.len() {
            return Ok(here);
        }
        if clears(entry.code) {
            return Ok(here);
        }
        forget(kept, entry.code);
        kept.push(entry)?;
        places.push(entry.to)?;
        here = entry.to;
    }
    Ok(here)
}

/// Whether the code removes what was set before it.
fn clears(code: Code) -> bool
    ensures { result ≡ is_clear (class_of code.0) }
{
    match class(code) {
        Class::Clear => true,
        Class::Plain | Class::Toggle | Class::Style | Class::Refused => false,
    }
}

/// Lets go of an entry of a code.
#[tactic(auto, using(crate::proofs::KeepingLemmas::forgotten_none))]
fn forget(kept: &mut Vec<WalkEntry>, code: Code)
    ensures { IsForgotten kept.old.items code.0 kept.new.items }
{
    let Some(number) = number_of(kept, code) else {
        return;
    };
    kept.remove(number);
}

/// The number of an entry of a code: the last ones are looked at first.
fn number_of(kept: &[WalkEntry], code: Code) -> Option<usize>
    ensures { IfSome result (HasCode kept.now code.0) }
{
    let mut left = kept.len();
    while 0 < left {
        left -= 1;
        if kept[left].code.0 == code.0 {
            return Some(left);
        }
    }
    None
}

/// What the kept entries from a place on make of no properties.
pub(crate) fn map_from(
    alloc: Global,
    lists: &Lists<'_>,
    kept: &[WalkEntry],
    from: usize,
) -> Result<PropMap, Memory>
    requires { (at : ℕ) × All (IsKeptEntry lists.now.stream.now lists.now.groups at) kept.now }
    ensures acted { IfOk result
        (ArePropertiesAfter (kept_from lists.now.stream.now from kept.now) lists.now.groups empty) }
    ensures formed { IfOk result (IsPropertyMap lists.now.groups) }
{
    let list = bytes_from(alloc, lists, kept, from)?;
    let nothing = PropMap::new(alloc);
    let acted = act(alloc, list.as_slice(), lists.groups, &nothing)?;
    Ok(acted.map)
}

/// The bytes of the kept entries from a place on.
fn bytes_from(
    alloc: Global,
    lists: &Lists<'_>,
    kept: &[WalkEntry],
    from: usize,
) -> Result<Bytes, Memory>
    requires { (at : ℕ) × All (IsKeptEntry lists.now.stream.now lists.now.groups at) kept.now }
    ensures { IfOk result (λ bytes. bytes ≡ flat_map spelling (kept_from lists.now.stream.now from kept.now)) }
{
    let mut bytes = Bytes::new(alloc);
    for entry in kept {
        push_entry(&mut bytes, lists, *entry, from)?;
    }
    Ok(bytes)
}

/// Appends the bytes of an entry that is at a place or behind it.
fn push_entry(
    bytes: &mut Bytes,
    lists: &Lists<'_>,
    entry: WalkEntry,
    from: usize,
) -> Result<(), Memory>
    requires { (at : ℕ) × IsKeptEntry lists.now.stream.now lists.now.groups at entry }
    ensures { OnOk result
        (bytes.new ≡ bytes.old ++ flat_map spelling (kept_from lists.now.stream.now from (entry ∷ []))) }
{
    if entry.at < from {
        return Ok(());
    }
    bytes.push_all(&lists.stream[entry.at..entry.to])?;
    Ok(())
}
