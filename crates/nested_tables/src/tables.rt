// Where the paragraphs of a text are in tables inside of cells.
ghost use Rattle.std.specs.Prelude.{◌≡◌, ◌++◌, [], ◌∷◌, IfOk, OnOk};
ghost use Rattle.std.specs.List.{list_any};
ghost use Rattle.nested_tables.specs.Tables.{reaches_depth, no_nested_tables, nested_place_at, places_at, places_from};
ghost use Rattle.nested_tables.specs.Tables.{nested_places_of};
ghost use Rattle.nested_tables.specs.Tables.{tables_of};

use crate::depths::{Depth, Depths};
use crate::walk::{NestedPlace, Walk, depth_at, whole_at};
use doc_bits::Memory;
use std::alloc::Global;
use std::marker::Model;

/// Where a paragraph is in tables of the depths 2 and 3.
#[derive(Clone, Copy)]
pub struct NestedPlaces {
    pub second: Option<NestedPlace>,
    pub third: Option<NestedPlace>,
}

/// Where paragraphs are in the tables of a depth, by their numbers; nothing where they are in none.
#[derive(Drop)]
pub struct Places {
    items: Vec<Option<NestedPlace>>,
}

impl Model for Places {
    ghost use Rattle.std.specs.Prelude.{List, Option};
    ghost use Rattle.nested_tables.specs.declared.walk.NestedPlace.{NestedPlace};

    ghost Value = { List (Option NestedPlace) };

    ghost view = { λ p. p.items.items };
}

impl Places {
    /// Of no paragraph.
    fn new(alloc: Global) -> Places
        ensures { result ≡ [] }
    {
        Places {
            items: Vec::new(alloc),
        }
    }

    fn push(&mut self, place: Option<NestedPlace>) -> Result<(), Memory>
        ensures { OnOk result (self.new ≡ self.old ++ place ∷ []) }
    {
        self.items.push(place)?;
        Ok(())
    }

    /// That of the paragraph with this number.
    fn get(&self, number: usize) -> Option<NestedPlace>
        ensures { result ≡ nested_place_at self.now number }
    {
        match self.items.get(number) {
            None => None,
            Some(place) => *place,
        }
    }
}

/// Where the paragraphs of a text are in tables inside of cells: those of depth 2, and those of depth 3.
#[derive(Drop)]
pub struct NestedTables {
    pub second: Places,
    pub third: Places,
}

impl NestedTables {
    /// Of no paragraph.
    pub fn new(alloc: Global) -> NestedTables
        ensures { result ≡ no_nested_tables }
    {
        NestedTables {
            second: Places::new(alloc),
            third: Places::new(alloc),
        }
    }

    /// Those of a text whose paragraphs are so deep. It is linear in them.
    pub fn of(alloc: Global, depths: &Depths) -> Result<NestedTables, Memory>
        ensures { IfOk result (λ tables. tables ≡ tables_of depths.now) }
    {
        Ok(NestedTables {
            second: places_of(alloc, depths.as_slice(), 2)?,
            third: places_of(alloc, depths.as_slice(), 3)?,
        })
    }

    /// Where the paragraph with this number is.
    pub fn get(&self, number: usize) -> NestedPlaces
        ensures { result ≡ places_at self.now number }
    {
        NestedPlaces {
            second: self.second.get(number),
            third: self.third.get(number),
        }
    }
}

/// Where paragraphs are in the tables of a depth.
fn places_of(alloc: Global, paragraphs: &[Depth], depth: u32) -> Result<Places, Memory>
    ensures { IfOk result (λ places. places ≡ nested_places_of depth paragraphs.now) }
{
    if !is_some_within(paragraphs, depth) {
        return Ok(Places::new(alloc));
    }
    places_from(alloc, paragraphs, depth)
}

/// Whether a paragraph is at least so deep.
fn is_some_within(paragraphs: &[Depth], depth: u32) -> bool
    ensures { result ≡ list_any (reaches_depth depth) paragraphs.now }
{
    for one in paragraphs {
        if one.is_within(depth) {
            return true;
        }
    }
    false
}

/// Where paragraphs are, of which one is so deep.
fn places_from(alloc: Global, paragraphs: &[Depth], depth: u32) -> Result<Places, Memory>
    ensures { IfOk result (λ places. places ≡ places_from depth [] paragraphs.now) }
{
    let mut places = Places::new(alloc);
    let mut walk = Walk::new();
    let mut known = None;
    for number in 0..paragraphs.len() {
        let one = depth_at(paragraphs, number);
        let whole = whole_at(paragraphs, depth, number, one, known);
        let found = walk.place(depth, one, whole);
        places.push(found)?;
        walk = walk.behind(depth, one);
        known = whole;
    }
    Ok(places)
}
