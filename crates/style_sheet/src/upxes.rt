// [MS-DOC] LPUpx: what a style that is not read further is made of.
ghost use Rattle.std.specs.Prelude.{◌≡◌, ◌↔◌, ◌<◌, [], ◌∷◌, ◌++◌};
ghost use Rattle.std.specs.Prelude.{length, slice_get, Some, IfOk, OnOk, OnErr, IsTrue};

use doc_bits::{Bytes, Memory};
use std::alloc::Global;
use std::marker::Model;

/// The property lists of a style of a kind that is kept unread, in their order.
#[derive(Drop)]
pub struct UpxList {
    items: Vec<Bytes>,
}

impl Model for UpxList {
    ghost use Rattle.std.specs.Prelude.{ℕ, List};

    ghost Value = { List (List ℕ) };

    ghost view = { λ u. u.items.items };
}

impl UpxList {
    pub fn new(alloc: Global) -> UpxList
        ensures { result ≡ [] }
    {
        UpxList {
            items: Vec::new(alloc),
        }
    }

    pub fn len(&self) -> usize
        ensures { result ≡ length self.now }
    {
        self.items.len()
    }

    pub fn get(&self, i: usize) -> &Bytes
        requires { i < length self.now }
        ensures { slice_get self.now i ≡ Some result.now }
    {
        &self.items[i]
    }

    pub fn add(&mut self, upx: Bytes) -> Result<(), Memory>
        ensures ok { OnOk result (self.new ≡ self.old ++ upx ∷ []) }
        ensures err { OnErr result (self.new ≡ self.old) }
    {
        self.items.push(upx)?;
        Ok(())
    }

    /// A copy of the lists.
    pub fn copy(&self, alloc: Global) -> Result<UpxList, Memory>
        ensures { IfOk result (λ copy. copy ≡ self.now) }
    {
        let mut items = Vec::with_capacity(alloc, self.items.len())?;
        for upx in &self.items {
            push_same(alloc, &mut items, upx)?;
        }
        Ok(UpxList { items })
    }

    /// The lists themselves.
    pub(crate) fn as_slice(&self) -> &[Bytes]
        ensures { result.now ≡ self.now }
    {
        &self.items
    }

    /// Whether both have the same lists in the same order.
    pub(crate) fn equal(&self, other: &UpxList) -> bool
        ensures { IsTrue result ↔ self.now ≡ other.now }
    {
        same_lists(&self.items, &other.items)
    }
}

/// Puts the same list at the end.
fn push_same(alloc: Global, items: &mut Vec<Bytes>, upx: &Bytes) -> Result<(), Memory>
    ensures { OnOk result (items.new.items ≡ items.old.items ++ upx.now ∷ []) }
{
    let same = Bytes::from_slice(alloc, upx.as_slice())?;
    items.push(same)?;
    Ok(())
}

/// Whether both have the same lists in the same order.
fn same_lists(ours: &[Bytes], theirs: &[Bytes]) -> bool
    ensures { IsTrue result ↔ ours.now ≡ theirs.now }
{
    if ours.len() != theirs.len() {
        return false;
    }
    for (i, upx) in ours.iter().enumerate() {
        if upx.as_slice() != theirs[i].as_slice() {
            return false;
        }
    }
    true
}
