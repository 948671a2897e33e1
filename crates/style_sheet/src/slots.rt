// The slots of a sheet. Styles are shared, so that a copy of the list copies no style.
ghost use Rattle.std.specs.Prelude.{◌≡◌, ◌↔◌, [], ◌∷◌, ◌++◌, length};
ghost use Rattle.std.specs.Prelude.{slice_set, IsTrue, IfOk, OnOk, OnErr, MatchOption};
ghost use Rattle.std.specs.Prelude.{Some, None, ◌<◌};
ghost use Rattle.std.specs.List.{All};
ghost use Rattle.style_sheet.specs.Sheet.{style_at};
ghost use Rattle.style_sheet.specs.Slots.{slot_of, styles_of, sheet_of};

use crate::Style;
use doc_bits::Memory;
use std::alloc::Global;
use std::rc::Rc;

/// The seven numbers of the header, and the slots.
#[derive(Drop)]
pub(crate) struct Slots {
    pub(crate) head: [u16; 7],
    pub(crate) styles: Vec<Option<Rc<Style>>>,
}

impl Slots {
    /// One slot, and the numbers.
    pub(crate) fn new(alloc: Global, head: &[u16; 7], first: Option<Style>) -> Result<Slots, Memory>
        ensures made { IfOk result (λ made. sheet_of made ≡ record { head = head.now; styles = first ∷ [] }) }
        ensures words { IfOk result (λ made. All (λ number. number < 65536) (sheet_of made).head) }
    {
        let slot = slot(alloc, first)?;
        let mut slots = Slots {
            head: *head,
            styles: Vec::new(alloc),
        };
        slots.add(slot)?;
        Ok(slots)
    }

    /// The style in a slot, where the slot is there and not empty.
    pub(crate) fn get(&self, istd: u16) -> Option<&Style>
        ensures { MatchOption result
            (style_at (sheet_of self.now) istd ≡ None)
            (λ style. style_at (sheet_of self.now) istd ≡ Some style.now) }
    {
        match self.styles.get(istd as usize) {
            Some(Some(style)) => Some(style),
            Some(None) => None,
            None => None,
        }
    }

    /// Puts a slot at the end.
    pub(crate) fn add(&mut self, slot: Option<Rc<Style>>) -> Result<(), Memory>
        ensures ok { OnOk result (sheet_of self.new
            ≡ record { head = self.old.head; styles = (sheet_of self.old).styles ++ slot_of slot ∷ [] }) }
        ensures err { OnErr result (sheet_of self.new ≡ sheet_of self.old) }
    {
        self.styles.push(slot)?;
        Ok(())
    }

    /// Puts a style into a slot that is there.
    pub(crate) fn set(&mut self, istd: u16, style: Rc<Style>)
        requires { istd < length (sheet_of self.old).styles }
        ensures { sheet_of self.new ≡
            record { head = self.old.head; styles = slice_set (sheet_of self.old).styles istd (Some style.value) } }
    {
        self.styles[istd as usize] = Some(style);
    }

    /// A copy of the slots, which shares their styles.
    pub(crate) fn copy(&self, alloc: Global) -> Result<Slots, Memory>
        ensures { IfOk result (λ copy. sheet_of copy ≡ sheet_of self.now) }
    {
        let mut styles = Vec::with_capacity(alloc, self.styles.len())?;
        for slot in &self.styles {
            push_same(&mut styles, slot)?;
        }
        Ok(Slots {
            head: self.head,
            styles,
        })
    }

    /// A copy of the slots with one more at the end.
    pub(crate) fn with_added(&self, alloc: Global, slot: Option<Rc<Style>>) -> Result<Slots, Memory>
        ensures { IfOk result (λ made. sheet_of made
            ≡ record { head = self.now.head; styles = (sheet_of self.now).styles ++ slot_of slot ∷ [] }) }
    {
        let mut slots = self.copy(alloc)?;
        slots.add(slot)?;
        Ok(slots)
    }

    /// A copy of the slots with a style in one that is there.
    pub(crate) fn with_set(
        &self,
        alloc: Global,
        istd: u16,
        style: Rc<Style>,
    ) -> Result<Slots, Memory>
        requires { istd < length (sheet_of self.now).styles }
        ensures { IfOk result (λ made. sheet_of made ≡
            record { head = self.now.head; styles = slice_set (sheet_of self.now).styles istd (Some style.value) }) }
    {
        let mut slots = self.copy(alloc)?;
        slots.set(istd, style);
        Ok(slots)
    }

    /// Whether both have the same numbers and styles.
    pub(crate) fn equal(&self, other: &Slots) -> bool
        ensures { IsTrue result ↔ sheet_of self.now ≡ sheet_of other.now }
    {
        self.head == other.head && same_slots(&self.styles, &other.styles)
    }
}

/// The slot of a style, or an empty one.
pub(crate) fn slot(alloc: Global, style: Option<Style>) -> Result<Option<Rc<Style>>, Memory>
    ensures { IfOk result (λ slot. slot_of slot ≡ style) }
{
    match style {
        None => Ok(None),
        Some(style) => Ok(Some(Rc::new(alloc, style)?)),
    }
}

/// Puts the same slot at the end. Its style is not copied.
fn push_same(styles: &mut Vec<Option<Rc<Style>>>, slot: &Option<Rc<Style>>) -> Result<(), Memory>
    ensures { OnOk result (styles_of styles.new.items ≡ styles_of styles.old.items ++ slot_of slot.now ∷ []) }
{
    let same = match slot {
        None => None,
        Some(shared) => Some(shared.clone()?),
    };
    styles.push(same)?;
    Ok(())
}

/// Whether both lists have the same styles in the same slots.
fn same_slots(ours: &[Option<Rc<Style>>], theirs: &[Option<Rc<Style>>]) -> bool
    ensures { IsTrue result ↔ styles_of ours.now ≡ styles_of theirs.now }
{
    if ours.len() != theirs.len() {
        return false;
    }
    for (i, slot) in ours.iter().enumerate() {
        if !same_slot(slot, &theirs[i]) {
            return false;
        }
    }
    true
}

/// Whether both slots are empty or have the same style.
fn same_slot(slot: &Option<Rc<Style>>, other: &Option<Rc<Style>>) -> bool
    ensures { IsTrue result ↔ slot_of slot.now ≡ slot_of other.now }
{
    match (slot, other) {
        (None, None) => true,
        (Some(style), Some(theirs)) => style.equal(theirs),
        (None, Some(_)) => false,
        (Some(_), None) => false,
    }
}
