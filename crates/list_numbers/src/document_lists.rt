// The lists of a document, decoded.
ghost use Rattle.std.specs.Prelude.{◌≡◌, ◌^◌, ◌<◌, IfOk, length, map};
ghost use Rattle.list_numbers.specs.Lists.{list_formats_of, list_uses};
ghost use Rattle.list_numbers.specs.Places.{list_place, AreFirstLists};

use crate::first_lists::{first_lists, place_of};
use crate::list_formats::ListFormats;
use crate::list_place::ListPlace;
use crate::mark_values::MarkValues;
use crate::reading::{lists_of, uses_of};
use doc_bits::Memory;
use plain_doc::Carried;
use std::alloc::Global;
use std::collections::BTreeMap;

/// The lists of a document and their uses, with the first list of each number.
#[derive(Drop)]
pub(crate) struct DocumentLists {
    pub(crate) lists: ListFormats,
    /// The number of the list that each use names.
    pub(crate) uses: Vec<u32>,
    firsts: BTreeMap<u32, usize>,
    ghost few: { length lists < 2 ^ 16 },
    ghost found: { AreFirstLists lists firsts },
}

impl DocumentLists {
    /// The lists that a document carries.
    pub(crate) fn of(alloc: Global, carried: &Carried) -> Result<DocumentLists, Memory>
        ensures lists { IfOk result (λ found. found.lists ≡ list_formats_of carried.now.lst carried.now.levels) }
        ensures uses { IfOk result (λ found. found.uses.items ≡ list_uses carried.now.lfo) }
    {
        let lists = lists_of(alloc, carried.lst.as_slice(), carried.levels.as_slice())?;
        let uses = uses_of(alloc, carried.lfo.as_slice())?;
        let firsts = first_lists(alloc, &lists)?;
        Ok(DocumentLists {
            lists,
            uses,
            firsts,
        })
    }

    /// The places that values name.
    pub(crate) fn places_of(
        &self,
        alloc: Global,
        values: &[MarkValues],
    ) -> Result<Vec<Option<ListPlace>>, Memory>
        ensures { IfOk result
            (λ places. places.items ≡ map (list_place self.now.lists self.now.uses.items) values.now) }
    {
        let mut places = Vec::new(alloc);
        for own in values {
            places.push(place_of(&self.firsts, &self.lists, &self.uses, *own))?;
        }
        Ok(places)
    }
}
