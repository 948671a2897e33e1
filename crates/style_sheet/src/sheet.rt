// The sheet. Copies share one list of slots, and lists of slots share their styles.
ghost use Rattle.std.specs.Prelude.{◌≡◌, ◌↔◌, ◌<◌, [], ◌∷◌};
ghost use Rattle.std.specs.Prelude.{◌++◌, length, IsTrue, IfSome, IfOk, OnOk, OnErr};
ghost use Rattle.std.specs.Prelude.{MatchOption, Some, None};
ghost use Rattle.style_sheet.specs.Sheet.{Sheet, style_at};
ghost use Rattle.style_sheet.specs.Formed.{IsFormedSheet, IsFormedStyle, IsFormedSlot};
ghost use Rattle.style_sheet.specs.Changes.{with_style};

use crate::Style;
use crate::slots::{Slots, slot};
use doc_bits::Memory;
use std::alloc::Global;
use std::marker::Model;
use std::rc::Rc;

/// A style sheet: the seven numbers that follow cbSTDBaseInFile in the Stshif, and 1 to 4,094 slots
/// for styles. A copy shares the slots.
#[derive(Drop)]
pub struct StyleSheet {
    pub(crate) alloc: Global,
    shared: Rc<Slots>,
}

impl Model for StyleSheet {
    ghost use Rattle.style_sheet.specs.Sheet.{Sheet, sheet_code};
    ghost use Rattle.style_sheet.specs.Slots.{sheet_of};
    ghost use Rattle.style_sheet.specs.Formed.{IsFormedSheet};

    ghost Value = { Sheet };

    ghost coded = { sheet_code };

    ghost view = { λ s. sheet_of s.shared.value };

    ghost invariant = { λ s. IsFormedSheet (sheet_of s.shared.value) };
}

impl StyleSheet {
    /// A sheet of one slot. `head` has flags, stiMax, istdMaxFixed, nVer and the three fonts.
    pub fn new(alloc: Global, head: [u16; 7], first: Option<Style>) -> Result<StyleSheet, Memory>
        requires { IsFormedSlot first }
        ensures { IfOk result (λ made. made ≡ record { head = head; styles = first ∷ [] }) }
    {
        let slots = Slots::new(alloc, &head, first)?;
        Ok(StyleSheet {
            alloc,
            shared: Rc::new(alloc, slots)?,
        })
    }

    /// The seven numbers of the header, in the order of the file.
    pub fn head(&self) -> [u16; 7]
        ensures { result ≡ self.now.head }
    {
        self.shared.head
    }

    /// How many slots there are, empty ones among them.
    pub fn slots(&self) -> usize
        ensures count { result ≡ length self.now.styles }
        ensures formed { IsFormedSheet self.now }
    {
        self.shared.styles.len()
    }

    /// The style in a slot, where the slot is there and not empty.
    pub fn get(&self, istd: u16) -> Option<&Style>
        ensures style { MatchOption result (style_at self.now istd ≡ None)
            (λ style. style_at self.now istd ≡ Some style.now) }
        ensures formed { IfSome result (λ style. IsFormedStyle style.now) }
    {
        self.shared.get(istd)
    }

    /// A copy of the sheet, which shares its slots.
    pub fn copy(&self, alloc: Global) -> Result<StyleSheet, Memory>
        ensures { IfOk result (λ copy. copy ≡ self.now) }
    {
        Ok(StyleSheet {
            alloc,
            shared: self.shared.clone()?,
        })
    }

    /// Puts a slot at the end.
    pub fn add(&mut self, style: Option<Style>) -> Result<(), Memory>
        requires room { length self.old.styles < 4094 }
        requires formed { IsFormedSlot style }
        ensures ok { OnOk result
            (self.new ≡ record { head = self.old.head; styles = self.old.styles ++ style ∷ [] }) }
        ensures err { OnErr result (self.new ≡ self.old) }
    {
        let alloc = self.alloc;
        let slot = slot(alloc, style)?;
        // A list of slots that no copy shares is changed in place.
        if let Some(slots) = Rc::get_mut(&mut self.shared) {
            return slots.add(slot);
        }
        let slots = self.shared.with_added(alloc, slot)?;
        self.shared = Rc::new(alloc, slots)?;
        Ok(())
    }

    /// Puts a style into a slot that is there.
    pub(crate) fn put(&mut self, istd: u16, style: Style) -> Result<(), Memory>
        requires there { istd < length self.old.styles }
        requires formed { IsFormedStyle style }
        ensures ok { OnOk result (self.new ≡ with_style self.old istd style) }
        ensures err { OnErr result (self.new ≡ self.old) }
    {
        let alloc = self.alloc;
        let style = Rc::new(alloc, style)?;
        if let Some(slots) = Rc::get_mut(&mut self.shared) {
            slots.set(istd, style);
            return Ok(());
        }
        let slots = self.shared.with_set(alloc, istd, style)?;
        self.shared = Rc::new(alloc, slots)?;
        Ok(())
    }

    /// Whether both have the same header numbers and the same styles in the same slots.
    pub fn equal(&self, other: &StyleSheet) -> bool
        ensures { IsTrue result ↔ self.now ≡ other.now }
    {
        self.shared.equal(&other.shared)
    }
}
