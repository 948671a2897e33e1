// The bases of styles: the rule on them, and the chain that leads to a style.
ghost use Rattle.std.specs.Prelude.{◌≡◌, ◌↔◌, ◌<◌, ℕ, List, IsTrue, false, IfOk, None};
ghost use Rattle.doc_bits.specs.Rules.{LeastOrNone};
ghost use Rattle.style_sheet.specs.Chain.{style_kind_at, base_at, IsBaseChain, HasSoundBase, HasSoundBases};
ghost use Rattle.style_sheet.specs.Chain.{BreaksBases};

use crate::{Chain, Kind, StyleSheet};
use doc_bits::Memory;
use std::alloc::Global;

impl StyleSheet {
    /// 1 where a style of paragraphs is there, 2 where one of characters is, else 0.
    pub fn kind_number(&self, istd: u16) -> u8
        ensures { result ≡ style_kind_at self.now istd }
    {
        match self.get(istd) {
            None => 0,
            Some(style) => match style.kind {
                Kind::Para { .. } => 1,
                Kind::Char { .. } => 2,
                Kind::Other { .. } => 0,
            },
        }
    }

    /// Whether a style of kind Para or Char is there.
    pub fn has_properties(&self, istd: u16) -> bool
        ensures { IsTrue result ↔ 0 < style_kind_at self.now istd }
    {
        self.kind_number(istd) != 0
    }

    /// Whether a style of kind Para is there.
    pub fn is_para(&self, istd: u16) -> bool
        ensures { IsTrue result ↔ style_kind_at self.now istd ≡ 1 }
    {
        self.kind_number(istd) == 1
    }

    /// The base of the style there, where there is a style that has one.
    pub fn base(&self, istd: u16) -> Option<u16>
        ensures { result ≡ base_at self.now istd }
    {
        match self.get(istd) {
            None => None,
            Some(style) => style.base,
        }
    }

    /// Whether a style has a chain of bases: whether it is of kind Para or Char, and so are the
    /// bases that follow each other from it on, and they end without a repeat.
    pub fn has_chain(&self, istd: u16) -> bool
        ensures { IsTrue result ↔ (chain : List ℕ) × IsBaseChain self.now istd chain }
    {
        let kind = self.kind_number(istd);
        if kind == 0 {
            return false;
        }
        let mut at = istd;
        // A chain is no longer than there are slots.
        for _turn in 0..self.slots() {
            match self.base(at) {
                None => return true,
                Some(base) => {
                    if self.kind_number(base) != kind {
                        return false;
                    }
                    at = base;
                }
            }
        }
        false
    }

    /// Whether a style meets the rule of bases (65). A slot that is empty or not there meets it,
    /// but for slot 0.
    pub fn has_sound_base(&self, istd: u16) -> bool
        ensures sound { IsTrue result ↔ HasSoundBase self.now istd }
        ensures breaks { result ≡ false ↔ BreaksBases self.now istd }
    {
        (istd != 0 || self.kind_number(0) == 1)
            && (self.kind_number(istd) == 0 || self.has_chain(istd))
    }

    /// The first style that breaks the rule of bases (65). No memory is taken: each style's bases
    /// are followed anew.
    pub fn broken_base(&self) -> Option<u16>
        ensures first { LeastOrNone (BreaksBases self.now) result }
        ensures sound { result ≡ None ↔ HasSoundBases self.now }
    {
        for istd in 0..self.slots() as u16 {
            if !self.has_sound_base(istd) {
                return Some(istd);
            }
        }
        None
    }

    /// The style numbers from the root of a style's bases to the style.
    pub fn chain(&self, alloc: Global, istd: u16) -> Result<Chain, Memory>
        requires sound { HasSoundBases self.now }
        requires properties { 0 < style_kind_at self.now istd }
        ensures { IfOk result (IsBaseChain self.now istd) }
    {
        let mut items = Vec::new(alloc);
        items.push(istd)?;
        let mut at = istd;
        while let Some(base) = self.base(at) {
            items.push(base)?;
            at = base;
        }
        items.reverse();
        Ok(Chain::from_vec(items))
    }
}
