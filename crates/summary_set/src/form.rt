// The check of a stream: the first condition that fails, or the set as it is decoded.
ghost use Rattle.std.specs.Prelude.{◌≡◌, ◌≤◌, ◌<◌, ◌+◌, ◌*◌, ◌^◌, ◌&&◌, [], ◌∷◌, ◌++◌, ℕ, true, false, not, length};
ghost use Rattle.std.specs.Prelude.{IsTrue, ◌↔◌, map};
ghost use Rattle.std.specs.Prelude.{IfOk, OnOk, MatchResult, IsPermutation, IsSorted};
ghost use Rattle.std.specs.Ordering.{nat_cmp};
ghost use Rattle.std.specs.BTreeSet.{contains, Updates};
ghost use Rattle.doc_bits.specs.Rules.{Hold};
ghost use Rattle.summary_set.specs.PropertySet.{set_head_of, pair_at, pairs_in_stream, first_set_begin};
ghost use Rattle.summary_set.specs.Form.{IsPropertySet, IsSetFault, IsFaultOf, head_rules, pair_rules};
ghost use Rattle.summary_set.specs.Form.{BeginsWithin, IsSized, HasHead};
ghost use Rattle.summary_set.specs.Values.{IsDecodedSet};

use crate::SetFault;
use crate::set::{PropertyPair, PropertySet, SetHead};
use doc_bits::{Memory, get16, get32};
use std::alloc::Global;
use std::collections::BTreeSet;

/// [MS-OLEPS] PropertySetStream: ByteOrder, NumPropertySets and Offset0.
const BYTE_ORDER: usize = 0;

const SET_COUNT: usize = 24;

const OFFSET0: usize = 44;

/// A stream of one set has at least so many bytes.
const MIN_LEN: usize = 56;

pub const LITTLE_ENDIAN: u16 = 0xFFFE;

const HEAD_LEN: u32 = 48;

/// The size and the count of a set, or a pair.
const NUMBERS_LEN: u32 = 8;

/// Decodes the set of a stream.
pub(crate) fn check(alloc: Global, stream: &[u8]) -> Result<PropertySet, SetFault>
    requires short { length stream.now ≤ 7143936 }
    ensures { MatchResult result
        (λ set. IsPropertySet stream.now × IsDecodedSet stream.now set)
        (IsSetFault stream.now) }
{
    let head = read_head(stream)?;
    let pairs = read_pairs(alloc, stream, head)?;
    let offsets = ascending_offsets(alloc, &pairs)?;
    Ok(PropertySet {
        begin: head.begin,
        size: head.size,
        pairs,
        offsets,
    })
}

fn wrong_at(at: u32) -> SetFault
    ensures { result ≡ SetFault.Form at }
{
    SetFault::Form { at }
}

/// The numbers of the set's head, where all conditions before the pairs hold.
fn read_head(stream: &[u8]) -> Result<SetHead, SetFault>
    requires short { length stream.now ≤ 7143936 }
    ensures { MatchResult result
        (λ head. HasHead stream.now × (head ≡ set_head_of stream.now))
        (IsFaultOf (head_rules stream.now)) }
{
    if stream.len() < MIN_LEN {
        return Err(wrong_at(stream.len() as u32));
    }
    if get16(stream, BYTE_ORDER) != LITTLE_ENDIAN {
        return Err(wrong_at(BYTE_ORDER as u32));
    }
    if get32(stream, SET_COUNT) != 1 {
        return Err(wrong_at(SET_COUNT as u32));
    }
    let begin = get32(stream, OFFSET0);
    if !begins_within(stream, begin) {
        return Err(wrong_at(OFFSET0 as u32));
    }
    let head = SetHead {
        begin,
        size: get32(stream, begin as usize),
        count: get32(stream, begin as usize + 4),
    };
    if !is_sized(stream, head) {
        return Err(wrong_at(begin));
    }
    Ok(head)
}

/// Whether the set begins behind the head of the stream, and its size and count are there.
fn begins_within(stream: &[u8], begin: u32) -> bool
    requires offset { begin ≡ first_set_begin stream.now }
    requires long { 56 ≤ length stream.now }
    ensures { IsTrue result ↔ BeginsWithin stream.now }
{
    HEAD_LEN <= begin && begin as u64 + NUMBERS_LEN as u64 <= stream.len() as u64
}

/// Whether the set has its pairs, and the stream has the set.
fn is_sized(stream: &[u8], head: SetHead) -> bool
    requires head { head ≡ set_head_of stream.now }
    requires short { length stream.now ≤ 7143936 }
    ensures { IsTrue result ↔ IsSized stream.now }
{
    let pairs_end = NUMBERS_LEN as u64 * (head.count as u64 + 1);
    pairs_end <= head.size as u64 && head.begin as u64 + head.size as u64 <= stream.len() as u64
}

/// The pairs of the set, where none is wrong.
fn read_pairs(alloc: Global, stream: &[u8], head: SetHead) -> Result<Vec<PropertyPair>, SetFault>
    requires head { head ≡ set_head_of stream.now }
    requires short { length stream.now ≤ 7143936 }
    requires whole { HasHead stream.now }
    ensures { MatchResult result
        (λ pairs. Hold (pair_rules stream.now) × (pairs.items ≡ pairs_in_stream stream.now))
        (IsFaultOf (pair_rules stream.now)) }
{
    let mut pairs = Vec::new(alloc);
    let mut seen = SeenPairs::new(alloc);
    for i in 0..head.count {
        let pair = read_pair(stream, head, i);
        if !is_within(pair, head) {
            return Err(wrong_at(pair_place(head, i)));
        }
        if !seen.add(pair)? {
            return Err(wrong_at(pair_place(head, i)));
        }
        keep(&mut pairs, pair)?;
    }
    Ok(pairs)
}

fn keep(pairs: &mut Vec<PropertyPair>, pair: PropertyPair) -> Result<(), Memory>
    ensures { OnOk result (pairs.new.items ≡ pairs.old.items ++ pair ∷ []) }
{
    pairs.push(pair)?;
    Ok(())
}

/// Where a pair is in the stream.
fn pair_place(head: SetHead, i: u32) -> u32
    requires { head.begin + 16 + 8 * i < 2 ^ 32 }
    ensures { result ≡ head.begin + 8 + 8 * i }
{
    head.begin + NUMBERS_LEN + NUMBERS_LEN * i
}

/// A pair of the set.
fn read_pair(stream: &[u8], head: SetHead, i: u32) -> PropertyPair
    requires head { head ≡ set_head_of stream.now }
    requires short { length stream.now ≤ 7143936 }
    requires within { head.begin + 16 + 8 * i ≤ length stream.now }
    ensures { result ≡ pair_at stream.now i }
{
    let place = pair_place(head, i) as usize;
    PropertyPair {
        id: get32(stream, place),
        offset: get32(stream, place + 4),
    }
}

/// Whether four bytes of the set are at the offset, behind all pairs.
fn is_within(pair: PropertyPair, head: SetHead) -> bool
    requires { 8 + 8 * head.count ≤ head.size }
    ensures { IsTrue result ↔ (8 + 8 * head.count ≤ pair.offset) × (pair.offset + 4 ≤ head.size) }
{
    let pairs_end = NUMBERS_LEN + NUMBERS_LEN * head.count;
    pairs_end <= pair.offset && pair.offset as u64 + 4 <= head.size as u64
}

/// The ids and the offsets of the pairs so far. They are kept in order, so that no earlier pair is searched for.
#[derive(Drop)]
struct SeenPairs {
    ids: BTreeSet<u32>,
    offsets: BTreeSet<u32>,
}

impl SeenPairs {
    fn new(alloc: Global) -> SeenPairs
        ensures ids { (q : ℕ) → contains nat_cmp result.ids q ≡ false }
        ensures offsets { (q : ℕ) → contains nat_cmp result.offsets q ≡ false }
    {
        SeenPairs {
            ids: BTreeSet::new(alloc),
            offsets: BTreeSet::new(alloc),
        }
    }

    /// Adds a pair, and answers whether its id and its offset are both new.
    fn add(&mut self, pair: PropertyPair) -> Result<bool, Memory>
        ensures new { IfOk result (λ new. new ≡ (not (contains nat_cmp self.old.ids pair.id) && not
            (contains nat_cmp self.old.offsets pair.offset))) }
        ensures ids { OnOk result (Updates nat_cmp self.old.ids self.new.ids pair.id true) }
        ensures offsets { OnOk result (Updates nat_cmp self.old.offsets self.new.offsets pair.offset true) }
    {
        let new_id = self.ids.insert(pair.id)?;
        let new_offset = self.offsets.insert(pair.offset)?;
        Ok(new_id && new_offset)
    }
}

/// The offsets of the pairs in ascending order.
fn ascending_offsets(alloc: Global, pairs: &[PropertyPair]) -> Result<Vec<u32>, Memory>
    ensures same { IfOk result (λ offsets. IsPermutation (map (λ pair. pair.offset) pairs.now) offsets.items) }
    ensures ascending { IfOk result (λ offsets. IsSorted nat_cmp offsets.items) }
{
    let mut offsets = Vec::new(alloc);
    for pair in pairs {
        offsets.push(pair.offset)?;
    }
    offsets.sort_unstable();
    Ok(offsets)
}
