// The items of one text. After want of memory a list is what it was.
ghost use Rattle.std.specs.Prelude.{◌≡◌, ◌+◌, ◌-◌, ◌^◌, ◌<◌, ◌≤◌, []};
ghost use Rattle.std.specs.Prelude.{◌∷◌, ◌++◌, length, take, slice_get, slice_set};
ghost use Rattle.std.specs.Prelude.{slice_range, All, Some, IsTrue, ◌↔◌, IfOk, OnOk, OnErr};
ghost use Rattle.std.specs.List.{splice};
ghost use Rattle.doc_model.specs.Document.{HasPropertyMaps, IsFormedText};

use crate::Item;
use crate::ranges::are_formed;
use doc_bits::{Memory, splice_list};
use std::alloc::Global;
use std::marker::Model;
use std::mem;

/// The items of one text. The position of an item is its CP from the start of the text.
#[derive(Drop)]
pub struct Items {
    pub(crate) items: Vec<Item>,
}

impl Model for Items {
    ghost use Rattle.std.specs.Prelude.{List};
    ghost use Rattle.std.specs.Coded.{coded_list};
    ghost use Rattle.doc_model.specs.declared.item.Item.{Item};
    ghost use Rattle.doc_model.specs.contracts.item.Item as item;
    ghost use Rattle.doc_model.specs.Document.{IsFormedText};

    ghost Value = { List Item };

    ghost coded = { coded_list item.the_row.coded };

    ghost view = { λ t. t.items.items };

    ghost invariant = { λ t. IsFormedText t.items.items };
}

impl Items {
    pub fn new(alloc: Global) -> Items
        ensures { result ≡ [] }
    {
        Items {
            items: Vec::new(alloc),
        }
    }

    /// The text with these items. None is moved.
    pub fn from_vec(items: Vec<Item>) -> Items
        requires few { length items.items < 2 ^ 32 }
        requires maps { All HasPropertyMaps items.items }
        ensures { result ≡ items.items }
    {
        are_formed(&items);
        Items { items }
    }

    /// The number of items. Every text is well formed.
    pub fn len(&self) -> usize
        ensures len { result ≡ length self.now }
        ensures formed { IsFormedText self.now }
    {
        self.items.len()
    }

    pub fn get(&self, i: usize) -> &Item
        requires { i < length self.now }
        ensures { slice_get self.now i ≡ Some result.now }
    {
        &self.items[i]
    }

    /// Puts an item last.
    pub fn add(&mut self, item: Item) -> Result<(), Memory>
        requires few { length self.old + 1 < 2 ^ 32 }
        requires maps { HasPropertyMaps item }
        ensures ok { OnOk result (self.new ≡ self.old ++ item ∷ []) }
        ensures err { OnErr result (self.new ≡ self.old) }
    {
        self.items.push(item)?;
        Ok(())
    }

    /// Drops the items from `len` on. It takes no memory.
    pub fn truncate(&mut self, len: usize)
        requires { len ≤ length self.old }
        ensures { self.new ≡ take len self.old }
    {
        self.items.truncate(len);
    }

    /// All items, in their order.
    pub fn as_slice(&self) -> &[Item]
        ensures items { result.now ≡ self.now }
        ensures formed { IsFormedText self.now }
    {
        &self.items
    }

    /// The items from `from` to before `to`. Their maps are shared.
    pub fn copy(&self, alloc: Global, from: usize, to: usize) -> Result<Items, Memory>
        requires ordered { from ≤ to }
        requires within { to ≤ length self.now }
        ensures { IfOk result (λ copy. copy ≡ slice_range self.now from to) }
    {
        let range = &self.items[from..to];
        let mut items = Vec::with_capacity(alloc, range.len())?;
        for item in range {
            push_copy(alloc, &mut items, item)?;
        }
        Ok(Items { items })
    }

    /// Puts `fresh` in place of the items from `from` to before `to`. Each item is moved once.
    pub fn splice(&mut self, from: usize, to: usize, fresh: Items) -> Result<(), Memory>
        requires ordered { from ≤ to }
        requires within { to ≤ length self.old }
        requires few { length self.old + length fresh < 2 ^ 32 + (to - from) }
        ensures ok { OnOk result (self.new ≡ splice self.old from to fresh) }
        ensures err { OnErr result (self.new ≡ self.old) }
    {
        splice_list(&mut self.items, from, to, fresh.items)?;
        Ok(())
    }

    /// Puts an item in place of another, and hands back the old one. It takes no memory.
    pub fn replace(&mut self, i: usize, item: Item) -> Item
        requires within { i < length self.old }
        requires maps { HasPropertyMaps item }
        ensures old { slice_get self.old i ≡ Some result }
        ensures new { self.new ≡ slice_set self.old i item }
    {
        mem::replace(&mut self.items[i], item)
    }

    /// Whether both have the same items.
    pub fn equal(&self, other: &Items) -> bool
        ensures { IsTrue result ↔ self.now ≡ other.now }
    {
        if self.items.len() != other.items.len() {
            return false;
        }
        for i in 0..self.items.len() {
            if !self.items[i].equal(&other.items[i]) {
                return false;
            }
        }
        true
    }
}

/// Puts the same item last. Its maps are shared.
fn push_copy(alloc: Global, items: &mut Vec<Item>, item: &Item) -> Result<(), Memory>
    ensures { OnOk result (items.new.items ≡ items.old.items ++ item.now ∷ []) }
{
    let copy = item.copy(alloc)?;
    items.push(copy)?;
    Ok(())
}
