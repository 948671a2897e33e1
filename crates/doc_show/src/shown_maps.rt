// The texts of maps that were shown, kept for the next time.
ghost use Rattle.std.specs.Prelude.{◌≡◌, ◌++◌, IfOk, IfSome, IsTrue, OnOk};
ghost use Rattle.doc_show.specs.Settings.{properties_text};

use crate::settings::push_properties;
use doc_bits::{Memory, Text};
use prop_map::PropMap;
use std::alloc::Global;
use std::marker::Model;

/// A map of fewer entries is shown anew each time.
const MIN_ENTRIES: usize = 8;

/// So many bits has the number of a slot.
const SLOT_BITS: u32 = 8;

/// A map, and its text.
#[derive(Drop)]
struct ShownMap {
    properties: PropMap,
    text: Text,
}

impl Model for ShownMap {
    ghost use Rattle.std.specs.Prelude.{◌≡◌};
    ghost use Rattle.prop_map.specs.Settings.{Properties, properties_code};
    ghost use Rattle.doc_show.specs.Settings.{properties_text};

    ghost Value = { Properties };

    ghost coded = { properties_code };

    ghost view = { λ s. s.properties };

    ghost invariant = { λ s. s.text ≡ properties_text s.properties };
}

impl ShownMap {
    /// The text of a map.
    fn of(alloc: Global, map: &PropMap) -> Result<ShownMap, Memory>
        ensures { IfOk result (λ shown. shown ≡ map.now) }
    {
        let mut text = Text::new(alloc);
        push_properties(&mut text, map)?;
        Ok(ShownMap {
            properties: map.copy(alloc)?,
            text,
        })
    }

    /// Whether it is the text of a map.
    fn shows(&self, map: &PropMap) -> bool
        ensures { IsTrue result → self.now ≡ map.now }
    {
        self.properties.equal(map)
    }

    /// Appends the text.
    fn push(&self, text: &mut Text) -> Result<(), Memory>
        ensures { OnOk result (text.new ≡ text.old ++ properties_text self.now) }
    {
        text.push_all(self.text.as_str())
    }
}

/// Shows maps, and keeps the text of some of the last ones, since neighbours often have the same.
#[derive(Drop)]
pub(crate) struct ShownMaps {
    pub(crate) alloc: Global,
    slots: Vec<Option<ShownMap>>,
}

impl ShownMaps {
    /// It keeps no text. It takes no memory.
    pub(crate) fn new(alloc: Global) -> ShownMaps {
        ShownMaps {
            alloc,
            slots: Vec::new(alloc),
        }
    }

    /// Appends the text of a map.
    pub(crate) fn push(&mut self, text: &mut Text, map: &PropMap) -> Result<(), Memory>
        ensures { OnOk result (text.new ≡ text.old ++ properties_text map.now) }
    {
        let Some(slot) = slot_of(map) else {
            return push_properties(text, map);
        };
        if let Some(shown) = self.map_in_slot(slot, map) {
            return shown.push(text);
        }
        let shown = ShownMap::of(self.alloc, map)?;
        shown.push(text)?;
        self.keep(slot, shown)
    }

    /// The text of a map, where it is in the slot.
    fn map_in_slot(&self, slot: usize, map: &PropMap) -> Option<&ShownMap>
        ensures { IfSome result (λ shown. shown.now ≡ map.now) }
    {
        match self.slots.get(slot) {
            None => None,
            Some(None) => None,
            Some(Some(shown)) => { if shown.shows(map) { Some(shown) } else { None } }
        }
    }

    /// Keeps the text of a map in a slot.
    fn keep(&mut self, slot: usize, shown: ShownMap) -> Result<(), Memory> {
        for _more in self.slots.len()..=slot {
            self.slots.push(None)?;
        }
        if slot < self.slots.len() {
            self.slots[slot] = Some(shown);
        }
        Ok(())
    }
}

/// The slot of a map that is worth one: by its first entries.
fn slot_of(map: &PropMap) -> Option<usize> {
    let mut left = map.entries();
    let mut sum = 0u32;
    for _turn in 0..MIN_ENTRIES {
        let Some((code, value)) = left.next() else {
            return None;
        };
        sum = sum.wrapping_mul(31).wrapping_add(code.0 as u32);
        if let Some(byte) = value.first() {
            sum = sum.wrapping_mul(31).wrapping_add(*byte as u32);
        }
    }
    Some((sum.wrapping_mul(0x9E37_79B1) >> (32 - SLOT_BITS)) as usize)
}
