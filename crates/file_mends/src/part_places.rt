// Where the pairs of the part are in a file whose own rule it breaks.
ghost use Rattle.std.specs.Prelude.{◌≡◌, ◌<◌, IfOk, MatchOption, Some, length, slice_get};
ghost use Rattle.cfb_streams.specs.Contents.{Stream};
ghost use Rattle.file_mends.specs.Places.{ArePairsAt, IsPartPlace, IsPlaceAmong, IsPartPlaceIn};

use crate::parts::{pair_count, pair_offset, part_of_rule};
use cfb_sectors::{CfbFault, SECTOR_LEN};
use cfb_streams::{Container, equal_names, word_document};
use doc_bits::Memory;
use std::alloc::Global;

/// The pairs of a part in a file: the number of the first one, the offset of its first byte in the file, and the bytes
/// that they have.
#[derive(Clone, Copy)]
pub(crate) struct PartPlace {
    pub(crate) pair: usize,
    pub(crate) at: usize,
    pub(crate) len: usize,
}

/// Where the pairs of the part are in a file whose own rule is broken at an offset of the table stream.
pub(crate) fn part_place(
    alloc: Global,
    file: &[u8],
    rule: u8,
    offset: u32,
) -> Result<Option<PartPlace>, Memory>
    ensures { IfOk result (λ found. MatchOption found
        ((place : PartPlace) → ¬ IsPartPlace file.now rule offset place)
        (IsPartPlace file.now rule offset)) }
{
    match Container::load_outer(alloc, file) {
        Ok(outer) => {
            let found = place_among(outer.container(), file.len(), rule, offset);
            drop(outer);
            Ok(found)
        }
        Err(CfbFault::Rule { .. }) => Ok(None),
        Err(CfbFault::Memory) => Err(Memory),
    }
}

/// The part of one of the streams of a file of so many bytes that breaks a rule at an offset.
fn place_among(container: &Container, file_len: usize, rule: u8, offset: u32) -> Option<PartPlace>
    ensures { MatchOption result
        ((place : PartPlace) → ¬ IsPlaceAmong container.now file_len rule offset place)
        (IsPlaceAmong container.now file_len rule offset) }
{
    for i in 0..container.count() {
        if let Some(place) = place_in(container, i, file_len, rule, offset) {
            return Some(place);
        }
    }
    None
}

/// The part of a stream, where it is `WordDocument`, that breaks a rule at an offset.
fn place_in(
    container: &Container,
    i: usize,
    file_len: usize,
    rule: u8,
    offset: u32,
) -> Option<PartPlace>
    requires { i < length container.now.streams }
    ensures { MatchOption result
        ((stream : Stream) (place : PartPlace) → slice_get container.now.streams i ≡ Some stream
        → ¬ IsPartPlaceIn stream file_len rule offset place)
        (IsPlaceAmong container.now file_len rule offset) }
{
    if !equal_names(container.name(i), word_document()) {
        return None;
    }
    let Some(sectors) = container.chain(i) else {
        return None;
    };
    let Some(pair) = part_of_rule(container.bytes(i), rule, offset) else {
        return None;
    };
    pairs_at(sectors, pair, file_len)
}

/// Where the pairs of a part are in a file of so many bytes, by the sectors of `WordDocument`.
fn pairs_at(sectors: &[u32], pair: usize, file_len: usize) -> Option<PartPlace>
    requires { pair < 93 }
    ensures { MatchOption result
        ((place : PartPlace) → place.pair ≡ pair → ¬ ArePairsAt sectors.now file_len place)
        (λ place. (place.pair ≡ pair) × ArePairsAt sectors.now file_len place) }
{
    let in_stream = pair_offset(pair);
    let sector = *sectors.get(in_stream / SECTOR_LEN)? as usize;
    let at = (sector + 1) * SECTOR_LEN + in_stream % SECTOR_LEN;
    let len = 8 * pair_count(pair);
    if file_len < at + len {
        return None;
    }
    Some(PartPlace { pair, at, len })
}
