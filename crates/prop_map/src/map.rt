// The map itself. Copies share one block of entries.
ghost use Rattle.std.specs.Prelude.{◌≡◌, ◌↔◌, ℕ, length, map as each, IsTrue};
ghost use Rattle.std.specs.Prelude.{IfOk, OnOk, OnErr, MatchOption, Some, None};
ghost use Rattle.std.specs.FinMap as map;
ghost use Rattle.prop_map.specs.Formed.{IsPropertyMap, StaysFormed};
ghost use Rattle.prop_map.specs.Overlay.{without};
ghost use Rattle.prop_map.specs.Printing.{printed_list};

use crate::block::{Block, Entries, same_code};
use crate::draft::Draft;
use crate::may_hold;
use doc_bits::Memory;
use sprm_table::Code;
use std::alloc::Global;
use std::marker::Model;
use std::rc::Rc;

/// A finite map from sprm codes to the bytes of their values. A copy shares its entries.
#[derive(Drop)]
pub struct PropMap {
    alloc: Global,
    shared: Option<Rc<Block>>,
}

impl Model for PropMap {
    ghost use Rattle.prop_map.specs.Settings.{Properties, properties_code, shared_or_empty};

    ghost Value = { Properties };

    ghost coded = { properties_code };

    ghost view = { λ p. shared_or_empty p.shared };
}

impl PropMap {
    /// The empty map. It takes no memory.
    pub fn new(alloc: Global) -> PropMap
        ensures { result ≡ map.empty }
    {
        PropMap {
            alloc,
            shared: None,
        }
    }

    /// The map of a block. It takes no memory where no entry is there.
    pub(crate) fn from_block(alloc: Global, block: Block) -> Result<PropMap, Memory>
        ensures { IfOk result (λ made. made ≡ block) }
    {
        if block.entries().is_empty() {
            return Ok(PropMap::new(alloc));
        }
        Ok(PropMap {
            alloc,
            shared: Some(Rc::new(alloc, block)?),
        })
    }

    /// The value at a code.
    pub fn get(&self, code: Code) -> Option<&[u8]>
        ensures { MatchOption result (map.get self.now code.0 ≡ None) (λ v. map.get self.now code.0 ≡ Some v.now) }
    {
        let mut left = self.entries();
        while let Some((other, value)) = left.next() {
            if same_code(code, other) {
                return Some(value);
            }
        }
        None
    }

    /// Puts a value at a code, in place of what was there.
    pub fn set(&mut self, code: Code, value: &[u8]) -> Result<(), Memory>
        ensures ok { OnOk result (self.new ≡ map.insert self.old code.0 value.now) }
        ensures err { OnErr result (self.new ≡ self.old) }
    {
        let alloc = self.alloc;
        let block = Block::with_entry(alloc, self.entries(), code, value)?;
        self.shared = Some(Rc::new(alloc, block)?);
        Ok(())
    }

    /// A copy of the map, which shares its entries.
    pub fn copy(&self, alloc: Global) -> Result<PropMap, Memory>
        ensures { IfOk result (λ copy. copy ≡ self.now) }
    {
        match &self.shared {
            None => Ok(PropMap {
                alloc,
                shared: None,
            }),
            Some(sorted) => Ok(PropMap {
                alloc,
                shared: Some(sorted.clone()?),
            }),
        }
    }

    /// Whether both have the same codes and values.
    pub fn equal(&self, other: &PropMap) -> bool
        ensures { IsTrue result ↔ self.now ≡ other.now }
    {
        self.entries().bytes() == other.entries().bytes()
    }

    /// Whether no code has a value.
    pub fn is_empty(&self) -> bool
        ensures { IsTrue result ↔ self.now ≡ map.empty }
    {
        self.entries().is_empty()
    }

    /// Whether the map may be at a place with these groups.
    pub fn is_held(&self, groups: u8) -> bool
        ensures { IsTrue result ↔ IsPropertyMap groups self.now }
    {
        let mut left = self.entries();
        while let Some((code, value)) = left.next() {
            if !may_hold(groups, code, value) {
                return false;
            }
        }
        true
    }

    /// The codes and values, ascending by code. Nothing is copied.
    pub fn entries(&self) -> Entries<'_>
        ensures { result ≡ map.entries self.now }
    {
        match &self.shared {
            None => Entries::none(),
            Some(block) => block.entries(),
        }
    }

    /// How many bytes the map has as a list of sprms.
    pub(crate) fn list_len(&self) -> u64
        ensures { result ≡ length (printed_list self.now) }
    {
        match &self.shared {
            None => 0,
            Some(block) => block.list_len(),
        }
    }

    /// The map without what is at these codes.
    pub fn without(&self, alloc: Global, codes: &[Code]) -> Result<PropMap, Memory>
        ensures map { IfOk result (λ made. made ≡ without (each (λ c. c.0) codes.now) self.now) }
        ensures formed { IfOk result (λ made. (groups : ℕ) → StaysFormed groups self.now made) }
    {
        let mut draft = Draft::new(alloc);
        draft.put_all(alloc, self)?;
        draft.remove(codes);
        let made = draft.into_map(alloc)?;
        Ok(made)
    }
}
