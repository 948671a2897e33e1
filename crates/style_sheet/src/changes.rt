// Properties that are put into a style of a sheet.
ghost use Rattle.std.specs.Prelude.{◌≡◌, ◌<◌, false, IfOk, OnOk, OnErr};
ghost use Rattle.prop_map.specs.Formed.{IsPropertyMap, character_groups, paragraph_groups};
ghost use Rattle.prop_map.specs.Modifiers.{IsOver};
ghost use Rattle.style_sheet.specs.declared.styles.Kind.TheVariants.{Para, Other};
ghost use Rattle.style_sheet.specs.Chain.{style_kind_at};
ghost use Rattle.style_sheet.specs.Changes.{with_kind, HasCharactersOver, HasParagraphsOver, SetsCharacters};
ghost use Rattle.style_sheet.specs.Changes.{SetsParagraphs, as_root, base_dropped};

use crate::{Kind, Style, StyleSheet, UpxList};
use doc_bits::{Memory, Units};
use prop_map::{Modifier, PropMap};
use std::alloc::Global;

impl StyleSheet {
    /// Puts character properties into a style: each code of `set` replaces the style's value.
    pub fn set_char(&mut self, istd: u16, set: &PropMap) -> Result<(), Memory>
        requires properties { 0 < style_kind_at self.old istd }
        requires formed { IsPropertyMap character_groups set.now }
        ensures ok { OnOk result (SetsCharacters istd set.now self.old self.new) }
        ensures err { OnErr result (self.new ≡ self.old) }
    {
        let alloc = self.alloc;
        let style = self.get(istd).unwrap();
        let name = Units::from_slice(alloc, style.name.as_slice())?;
        let kind = style.kind.with_characters(alloc, set)?;
        let style = style.with_kind(name, kind);
        self.put(istd, style)
    }

    /// Puts paragraph properties into a style of paragraphs: each code of `set` replaces the style's
    /// value.
    pub fn set_para(&mut self, istd: u16, set: &PropMap) -> Result<(), Memory>
        requires properties { style_kind_at self.old istd ≡ 1 }
        requires formed { IsPropertyMap paragraph_groups set.now }
        ensures ok { OnOk result (SetsParagraphs istd set.now self.old self.new) }
        ensures err { OnErr result (self.new ≡ self.old) }
    {
        let alloc = self.alloc;
        let style = self.get(istd).unwrap();
        let name = Units::from_slice(alloc, style.name.as_slice())?;
        let kind = style.kind.with_paragraphs(alloc, set)?;
        let style = style.with_kind(name, kind);
        self.put(istd, style)
    }

    /// Takes the base of a style of paragraphs or of characters away.
    pub fn drop_base(&mut self, istd: u16) -> Result<(), Memory>
        requires { 0 < style_kind_at self.old istd }
        ensures ok { OnOk result (self.new ≡ base_dropped self.old istd) }
        ensures err { OnErr result (self.new ≡ self.old) }
    {
        let alloc = self.alloc;
        let style = self.get(istd).unwrap();
        let name = Units::from_slice(alloc, style.name.as_slice())?;
        let kind = style.kind.copy(alloc)?;
        let style = style.as_root(name, kind);
        self.put(istd, style)
    }
}

impl Style {
    /// The style, whose name is this one, with another kind.
    fn with_kind(&self, name: Units, kind: Kind) -> Style
        requires { name ≡ self.now.name }
        ensures { result ≡ with_kind self.now kind }
    {
        Style {
            sti: self.sti,
            flags: self.flags,
            base: self.base,
            next: self.next,
            grfstd: self.grfstd,
            name,
            kind,
        }
    }

    /// The style, whose name and kind are these, without its base.
    fn as_root(&self, name: Units, kind: Kind) -> Style
        requires name { name ≡ self.now.name }
        requires kind { kind ≡ self.now.kind }
        ensures { result ≡ as_root self.now }
    {
        Style {
            sti: self.sti,
            flags: self.flags,
            base: None,
            next: self.next,
            grfstd: self.grfstd,
            name,
            kind,
        }
    }
}

impl Kind {
    /// A copy of the kind, which shares its maps.
    fn copy(&self, alloc: Global) -> Result<Kind, Memory>
        ensures { IfOk result (λ copy. copy ≡ self.now) }
    {
        match self {
            Kind::Para { pap, chp } => {
                let pap = pap.copy(alloc)?;
                let chp = chp.copy(alloc)?;
                Ok(Kind::Para { pap, chp })
            }
            Kind::Char { chp } => {
                let chp = chp.copy(alloc)?;
                Ok(Kind::Char { chp })
            }
            Kind::Other { stk, upxes } => {
                let other = copy_other_kind(alloc, *stk, upxes)?;
                Ok(other)
            }
        }
    }

    /// The kind with character properties put over its own.
    fn with_characters(&self, alloc: Global, set: &PropMap) -> Result<Kind, Memory>
        ensures { IfOk result (HasCharactersOver self.now set.now) }
    {
        match self {
            Kind::Para { pap, chp } => {
                let both = characters_over(alloc, pap, chp, set)?;
                Ok(both)
            }
            Kind::Char { chp } => {
                let chp = over(alloc, chp, set)?;
                Ok(Kind::Char { chp })
            }
            Kind::Other { stk, upxes } => {
                let other = copy_other_kind(alloc, *stk, upxes)?;
                Ok(other)
            }
        }
    }

    /// The kind with paragraph properties put over its own.
    fn with_paragraphs(&self, alloc: Global, set: &PropMap) -> Result<Kind, Memory>
        ensures { IfOk result (HasParagraphsOver self.now set.now) }
    {
        match self {
            Kind::Para { pap, chp } => {
                let both = paragraphs_over(alloc, pap, chp, set)?;
                Ok(both)
            }
            Kind::Char { chp } => {
                let chp = chp.copy(alloc)?;
                Ok(Kind::Char { chp })
            }
            Kind::Other { stk, upxes } => {
                let other = copy_other_kind(alloc, *stk, upxes)?;
                Ok(other)
            }
        }
    }
}

/// The kind of a style of paragraphs with character properties put over its own.
fn characters_over(
    alloc: Global,
    pap: &PropMap,
    chp: &PropMap,
    set: &PropMap,
) -> Result<Kind, Memory>
    ensures { IfOk result (HasCharactersOver (Para pap.now chp.now) set.now) }
{
    let pap = pap.copy(alloc)?;
    let chp = over(alloc, chp, set)?;
    Ok(Kind::Para { pap, chp })
}

/// The kind of a style of paragraphs with paragraph properties put over its own.
fn paragraphs_over(
    alloc: Global,
    pap: &PropMap,
    chp: &PropMap,
    set: &PropMap,
) -> Result<Kind, Memory>
    ensures { IfOk result (HasParagraphsOver (Para pap.now chp.now) set.now) }
{
    let pap = over(alloc, pap, set)?;
    let chp = chp.copy(alloc)?;
    Ok(Kind::Para { pap, chp })
}

/// A copy of the kind of a style of tables or of numbering.
pub fn copy_other_kind(alloc: Global, stk: u8, upxes: &UpxList) -> Result<Kind, Memory>
    ensures { IfOk result (λ made. made ≡ Other stk upxes.now) }
{
    let upxes = upxes.copy(alloc)?;
    Ok(Kind::Other { stk, upxes })
}

/// The entries of `set`, and those of `base` at other codes.
fn over(alloc: Global, base: &PropMap, set: &PropMap) -> Result<PropMap, Memory>
    ensures { IfOk result (IsOver false set.now base.now) }
{
    let change = property(alloc, set)?;
    let made = change.on_char(alloc, base)?;
    Ok(made)
}

/// The modifier that sets these codes, and does nothing else.
fn property(alloc: Global, set: &PropMap) -> Result<Modifier, Memory>
    ensures plain { IfOk result (λ change. change.clear ≡ false) }
    ensures set { IfOk result (λ change. change.chp ≡ set.now) }
{
    let chp = set.copy(alloc)?;
    let mut change = Modifier::none(alloc);
    change.chp = chp;
    Ok(change)
}
