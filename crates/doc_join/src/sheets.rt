// The style sheet of a joined document.
ghost use Rattle.std.specs.Prelude.{◌≡◌, ℕ, ◌+◌, ◌<◌, ◌≤◌, ◌++◌, List, length, option_map, IfOk, OnOk, Option};
ghost use Rattle.prop_map.specs.Formed.{IsPropertyMap, character_groups};
ghost use Rattle.style_sheet.specs.declared.styles.Kind.TheVariants.{Para, Char, Other};
ghost use Rattle.style_sheet.specs.Formed.{IsFormedStyle, IsFormedKind, IsFormedSlot};
ghost use Rattle.style_sheet.specs.Sheet.{Sheet, style_at};
ghost use Rattle.style_sheet.specs.Changes.{with_kind};
ghost use Rattle.doc_join.specs.Numbers.{numbers_of_first, numbers_of_second};
ghost use Rattle.doc_join.specs.Settings.{renumbered_chp};
ghost use Rattle.doc_join.specs.Styles.{renumbered_kind, style_from_first, style_from_second};
ghost use Rattle.doc_join.specs.Styles.{slot_from_first, slot_from_second, slots_from_first, slots_from_second};
ghost use Rattle.doc_join.specs.Styles.{joined_sheet};

use crate::kept_maps::KeptMaps;
use doc_bits::{Memory, Units};
use prop_map::PropMap;
use std::alloc::Global;
use style_sheet::{Kind, Style, StyleSheet, copy_other_kind};

/// The slots of the first sheet, and then those of the second. The maps of each sheet are renumbered by its own.
pub(crate) fn join_sheets(
    alloc: Global,
    first: &StyleSheet,
    first_maps: &mut KeptMaps,
    second: &StyleSheet,
    second_maps: &mut KeptMaps,
) -> Result<StyleSheet, Memory>
    requires fits { length first.now.styles + length second.now.styles ≤ 4094 }
    requires first_maps { first_maps.old.numbers ≡ numbers_of_first first.now }
    requires second_maps { second_maps.old.numbers ≡ numbers_of_second first.now second.now }
    ensures made { IfOk result (λ made. made ≡ joined_sheet first.now second.now) }
    ensures first_maps { first_maps.new.numbers ≡ first_maps.old.numbers }
    ensures second_maps { second_maps.new.numbers ≡ second_maps.old.numbers }
{
    let mut sheet = copy_first(alloc, first, first_maps)?;
    add_second(&mut sheet, second, second_maps)?;
    Ok(sheet)
}

/// The first sheet, with the styles renumbered that its properties name.
fn copy_first(alloc: Global, first: &StyleSheet, maps: &mut KeptMaps) -> Result<StyleSheet, Memory>
    requires { maps.old.numbers ≡ numbers_of_first first.now }
    ensures made { IfOk result (λ made. made ≡ record {
      head = first.now.head;
      styles = slots_from_first maps.old.numbers first.now;
    }) }
    ensures numbers { maps.new.numbers ≡ maps.old.numbers }
{
    let slots = first.slots();
    let mut sheet = StyleSheet::new(alloc, first.head(), maps.slot_of_first(first.get(0))?)?;
    for istd in 1..slots as u16 {
        sheet.add(maps.slot_of_first(first.get(istd))?)?;
    }
    Ok(sheet)
}

/// Adds the slots of the second sheet.
fn add_second(
    sheet: &mut StyleSheet,
    second: &StyleSheet,
    maps: &mut KeptMaps,
) -> Result<(), Memory>
    requires fits { length sheet.old.styles + length second.now.styles ≤ 4094 }
    requires numbers { maps.old.numbers
        ≡ record { before = length sheet.old.styles; slots = length second.now.styles } }
    ensures made { OnOk result (sheet.new ≡ record {
      head = sheet.old.head;
      styles = sheet.old.styles ++ slots_from_second maps.old.numbers second.now (length second.now.styles);
    }) }
    ensures numbers { maps.new.numbers ≡ maps.old.numbers }
{
    let slots = second.slots();
    for istd in 0..slots as u16 {
        sheet.add(maps.slot_of_second(istd, second.get(istd))?)?;
    }
    Ok(())
}

impl KeptMaps {
    /// A slot of the first document.
    fn slot_of_first(&mut self, slot: Option<&Style>) -> Result<Option<Style>, Memory>
        requires { IsFormedSlot (option_map (λ style. style.now) slot) }
        ensures made { IfOk result
            (λ made. made ≡ slot_from_first self.old.numbers (option_map (λ style. style.now) slot.entry)) }
        ensures numbers { self.new.numbers ≡ self.old.numbers }
    {
        match slot {
            None => Ok(None),
            Some(style) => Ok(Some(self.style(style, style.base, style.next)?)),
        }
    }

    /// A slot of the second document, which had this number.
    fn slot_of_second(&mut self, istd: u16, slot: Option<&Style>) -> Result<Option<Style>, Memory>
        requires formed { IsFormedSlot (option_map (λ style. style.now) slot) }
        requires within { istd < self.old.numbers.slots }
        ensures made { IfOk result
            (λ made. made ≡ slot_from_second self.old.numbers istd (option_map (λ style. style.now) slot.entry)) }
        ensures numbers { self.new.numbers ≡ self.old.numbers }
    {
        match slot {
            None => Ok(None),
            Some(style) => {
                let base = self.numbers.base(style.base);
                let next = self.numbers.next(istd, style.next);
                Ok(Some(self.style(style, base, next)?))
            }
        }
    }

    /// A style with another base and next one, and with its properties renumbered.
    fn style(&mut self, style: &Style, base: Option<u16>, next: u16) -> Result<Style, Memory>
        requires formed { IsFormedStyle style.now }
        ensures made { IfOk result (λ made. made ≡ record style.now {
          base = base;
          next = next;
          kind = renumbered_kind self.old.numbers style.now.kind;
        }) }
        ensures numbers { self.new.numbers ≡ self.old.numbers }
    {
        let alloc = self.alloc;
        Ok(Style {
            sti: style.sti,
            flags: style.flags,
            base,
            next,
            grfstd: style.grfstd,
            name: Units::from_slice(alloc, style.name.as_slice())?,
            kind: self.kind(&style.kind)?,
        })
    }

    /// The properties of a style.
    fn kind(&mut self, kind: &Kind) -> Result<Kind, Memory>
        requires { IsFormedKind kind.now }
        ensures made { IfOk result (λ made. made ≡ renumbered_kind self.old.numbers kind.now) }
        ensures numbers { self.new.numbers ≡ self.old.numbers }
    {
        match kind {
            Kind::Para { pap, chp } => self.paragraph_kind(pap, chp),
            Kind::Char { chp } => self.character_kind(chp),
            Kind::Other { stk, upxes } => copy_other_kind(self.alloc, *stk, upxes),
        }
    }

    /// The properties of a style of paragraphs.
    fn paragraph_kind(&mut self, pap: &PropMap, chp: &PropMap) -> Result<Kind, Memory>
        requires { IsPropertyMap character_groups chp.now }
        ensures made { IfOk result (λ made. made ≡ Para pap.now (renumbered_chp self.old.numbers chp.now)) }
        ensures numbers { self.new.numbers ≡ self.old.numbers }
    {
        let pap = pap.copy(self.alloc)?;
        let chp = self.map(chp)?;
        Ok(Kind::Para { pap, chp })
    }

    /// The properties of a style of characters.
    fn character_kind(&mut self, chp: &PropMap) -> Result<Kind, Memory>
        requires { IsPropertyMap character_groups chp.now }
        ensures made { IfOk result (λ made. made ≡ Char (renumbered_chp self.old.numbers chp.now)) }
        ensures numbers { self.new.numbers ≡ self.old.numbers }
    {
        let chp = self.map(chp)?;
        Ok(Kind::Char { chp })
    }
}
