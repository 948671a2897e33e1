// The values that the pairs of a set name.
ghost use Rattle.std.specs.Prelude.{◌≡◌, ◌≤◌, ◌+◌, ◌==◌, nat_le, IfOk, find};
ghost use Rattle.summary_set.specs.PropertySet.{offsets_of, first_set_size};
ghost use Rattle.summary_set.specs.Form.{IsPropertySet};
ghost use Rattle.summary_set.specs.Values.{IsDecodedSet, value_end, pair_value_bytes, property_of};

use crate::set::{PropertyPair, PropertySet};
use doc_bits::{Bytes, Memory};
use std::alloc::Global;

/// A property: its id, and the bytes of its value.
#[derive(Drop)]
pub struct Property {
    pub id: u32,
    pub value: Bytes,
}

impl PropertySet {
    /// The first pair with an id.
    pub(crate) fn pair_with(&self, id: u32) -> Option<PropertyPair>
        ensures { result ≡ find (λ pair. pair.id == id) self.now.pairs.items }
    {
        for i in 0..self.pairs.len() {
            let pair = self.pairs[i];
            if pair.id == id {
                return Some(pair);
            }
        }
        None
    }

    /// Where the value at an offset ends in the set.
    fn end_of_value(&self, stream: &[u8], offset: u32) -> u32
        requires set { IsDecodedSet stream.now self.now }
        requires formed { IsPropertySet stream.now }
        ensures { result ≡ value_end (offsets_of stream.now) (first_set_size stream.now) offset }
    {
        let next = self.offsets.as_slice().partition_point(
            |other: &u32| -> bool
                ensures { result ≡ nat_le other.now offset }
            { *other <= offset },
        );
        if next < self.offsets.len() {
            self.offsets[next]
        } else {
            self.size
        }
    }

    /// The value that a pair names.
    pub(crate) fn value<'a>(&self, stream: &'a [u8], pair: PropertyPair) -> &'a [u8]
        requires set { IsDecodedSet stream.now self.now }
        requires formed { IsPropertySet stream.now }
        requires pair { pair.offset + 4 ≤ first_set_size stream.now }
        ensures { result.now ≡ pair_value_bytes stream.now pair }
    {
        let begin = self.begin as usize;
        let end = self.end_of_value(stream, pair.offset);
        &stream[begin + pair.offset as usize..begin + end as usize]
    }

    /// The property that a pair names.
    pub(crate) fn property(
        &self,
        alloc: Global,
        stream: &[u8],
        pair: PropertyPair,
    ) -> Result<Property, Memory>
        requires set { IsDecodedSet stream.now self.now }
        requires formed { IsPropertySet stream.now }
        requires pair { pair.offset + 4 ≤ first_set_size stream.now }
        ensures { IfOk result (λ property. property ≡ property_of stream.now pair) }
    {
        let value = Bytes::from_slice(alloc, self.value(stream, pair))?;
        Ok(Property { id: pair.id, value })
    }
}
