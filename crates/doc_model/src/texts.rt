// The notes or the header texts of a document. After want of memory a list is what it was.
ghost use Rattle.std.specs.Prelude.{◌≡◌, ◌+◌, ◌-◌, ◌^◌, ◌<◌, ◌≤◌};
ghost use Rattle.std.specs.Prelude.{[], ◌∷◌, ◌++◌, length, slice_get, slice_set};
ghost use Rattle.std.specs.Prelude.{slice_range, Some, IsTrue, ◌↔◌, IfOk, OnOk, OnErr};
ghost use Rattle.std.specs.List.{splice};
ghost use Rattle.doc_model.specs.Document.{AreFormedTexts};

use crate::Items;
use doc_bits::{Memory, splice_list};
use std::alloc::Global;
use std::marker::Model;
use std::mem;

/// A list of texts: the notes, or the header texts.
#[derive(Drop)]
pub struct Texts {
    pub(crate) texts: Vec<Items>,
}

impl Model for Texts {
    ghost use Rattle.std.specs.Prelude.{List};
    ghost use Rattle.std.specs.Coded.{coded_list};
    ghost use Rattle.doc_model.specs.declared.item.Item.{Item};
    ghost use Rattle.doc_model.specs.contracts.item.Item as item;
    ghost use Rattle.doc_model.specs.Document.{AreFormedTexts};

    ghost Value = { List (List Item) };

    ghost coded = { coded_list (coded_list item.the_row.coded) };

    ghost view = { λ t. t.texts.items };

    ghost invariant = { λ t. AreFormedTexts t.texts.items };
}

impl Texts {
    pub fn new(alloc: Global) -> Texts
        ensures { result ≡ [] }
    {
        Texts {
            texts: Vec::new(alloc),
        }
    }

    /// The number of texts. All of them are well formed.
    pub fn len(&self) -> usize
        ensures len { result ≡ length self.now }
        ensures formed { AreFormedTexts self.now }
    {
        self.texts.len()
    }

    pub fn get(&self, i: usize) -> &Items
        requires { i < length self.now }
        ensures { slice_get self.now i ≡ Some result.now }
    {
        &self.texts[i]
    }

    /// Puts a text last.
    pub fn add(&mut self, text: Items) -> Result<(), Memory>
        requires { length self.old + 1 < 2 ^ 32 }
        ensures ok { OnOk result (self.new ≡ self.old ++ text ∷ []) }
        ensures err { OnErr result (self.new ≡ self.old) }
    {
        let _ = &text.items;
        self.texts.push(text)?;
        Ok(())
    }

    /// The texts from `from` to before `to`. Their maps are shared.
    pub fn copy(&self, alloc: Global, from: usize, to: usize) -> Result<Texts, Memory>
        requires ordered { from ≤ to }
        requires within { to ≤ length self.now }
        ensures { IfOk result (λ copy. copy ≡ slice_range self.now from to) }
    {
        let range = &self.texts[from..to];
        let mut texts = Vec::with_capacity(alloc, range.len())?;
        for text in range {
            push_copy(alloc, &mut texts, text)?;
        }
        Ok(Texts { texts })
    }

    /// Puts `fresh` in place of the texts from `from` to before `to`. Each text is moved once.
    pub fn splice(&mut self, from: usize, to: usize, fresh: Texts) -> Result<(), Memory>
        requires ordered { from ≤ to }
        requires within { to ≤ length self.old }
        requires few { length self.old + length fresh < 2 ^ 32 + (to - from) }
        ensures ok { OnOk result (self.new ≡ splice self.old from to fresh) }
        ensures err { OnErr result (self.new ≡ self.old) }
    {
        splice_list(&mut self.texts, from, to, fresh.texts)?;
        Ok(())
    }

    /// Puts a text in place of another, and hands back the old one. It takes no memory.
    pub fn replace(&mut self, i: usize, text: Items) -> Items
        requires within { i < length self.old }
        ensures old { slice_get self.old i ≡ Some result }
        ensures new { self.new ≡ slice_set self.old i text }
    {
        let _ = &text.items;
        mem::replace(&mut self.texts[i], text)
    }

    /// Whether both have the same texts.
    pub fn equal(&self, other: &Texts) -> bool
        ensures { IsTrue result ↔ self.now ≡ other.now }
    {
        if self.texts.len() != other.texts.len() {
            return false;
        }
        for i in 0..self.texts.len() {
            if !self.texts[i].equal(&other.texts[i]) {
                return false;
            }
        }
        true
    }
}

/// Puts the same text last. Its maps are shared.
fn push_copy(alloc: Global, texts: &mut Vec<Items>, text: &Items) -> Result<(), Memory>
    ensures { OnOk result (texts.new.items ≡ texts.old.items ++ text.now ∷ []) }
{
    let copy = text.copy(alloc, 0, text.len())?;
    texts.push(copy)?;
    Ok(())
}
