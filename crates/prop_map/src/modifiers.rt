// The modifiers of pieces.
ghost use Rattle.std.specs.Prelude.{◌≡◌, ◌↔◌, List, [], ◌∷◌, ◌++◌, ◌<◌};
ghost use Rattle.std.specs.Prelude.{◌≤◌, Some, None, MatchOption, ⊤, IsTrue, IfOk};
ghost use Rattle.std.specs.Prelude.{OnOk, length};
ghost use Rattle.std.specs.List.{flat_map};
ghost use Rattle.doc_bits.specs.Number.{number_bytes};
ghost use Rattle.sprm_table.specs.Sprm.{Prl, spelling, SpellsSprmList, IsAcceptedList};
ghost use Rattle.prop_map.specs.Formed.{character_groups, paragraph_groups, prc_groups, StaysFormed};
ghost use Rattle.prop_map.specs.Modifiers.{no_modifier, mark_style, clears_characters, IsSpeltModifier, DoesAsSpelt};
ghost use Rattle.prop_map.specs.Modifiers.{IsCharacterAfter, IsMarkAfter, IsComposed, ActsInTurn, IsFormedModifier};
ghost use Rattle.prop_map.specs.Modifiers.{StaysFormedModifier, style_prls, clear_prls, printed_modifier};

use crate::overlay::over;
use crate::printing::push_prl;
use crate::{Acted, CHARACTER_GROUPS, PARAGRAPH_GROUPS, PropMap, act};
use doc_bits::{Bytes, Memory};
use sprm_table::{Class, Code, SPRM_C_PLAIN, SPRM_P_ISTD, SprmIter, class, held};
use std::alloc::Global;

/// What the list of a piece does: the style and the properties that it gives to marks, whether it
/// clears characters, and the properties that it gives to them.
#[derive(Drop)]
pub struct Modifier {
    pub istd: Option<u16>,
    pub clear: bool,
    pub chp: PropMap,
    pub pap: PropMap,
}

impl Modifier {
    /// The modifier that does nothing. It takes no memory.
    pub fn none(alloc: Global) -> Modifier
        ensures { result ≡ no_modifier }
    {
        Modifier {
            istd: None,
            clear: false,
            chp: PropMap::new(alloc),
            pap: PropMap::new(alloc),
        }
    }

    /// Whether it does nothing.
    pub fn is_none(&self) -> bool
        ensures { IsTrue result ↔ self.now ≡ no_modifier }
    {
        self.istd.is_none() && !self.clear && self.chp.is_empty() && self.pap.is_empty()
    }

    /// Whether both do the same.
    pub fn equal(&self, other: &Modifier) -> bool
        ensures { IsTrue result ↔ self.now ≡ other.now }
    {
        self.istd == other.istd
            && self.clear == other.clear
            && self.chp.equal(&other.chp)
            && self.pap.equal(&other.pap)
    }

    /// A copy of the modifier, which shares its entries.
    pub fn copy(&self, alloc: Global) -> Result<Modifier, Memory>
        ensures { IfOk result (λ copy. copy ≡ self.now) }
    {
        Ok(Modifier {
            istd: self.istd,
            clear: self.clear,
            chp: self.chp.copy(alloc)?,
            pap: self.pap.copy(alloc)?,
        })
    }

    /// The modifier of a list that a Prc holds.
    pub fn read(alloc: Global, list: &[u8]) -> Result<Modifier, Memory>
        requires { IsAcceptedList list.now prc_groups }
        ensures parts { IfOk result (IsSpeltModifier list.now) }
        ensures acts { IfOk result (DoesAsSpelt list.now) }
        ensures formed { IfOk result IsFormedModifier }
    {
        let none = PropMap::new(alloc);
        let characters = act(alloc, list, CHARACTER_GROUPS, &none)?;
        let marks = act(alloc, list, PARAGRAPH_GROUPS, &none)?;
        let Acted { map: chp, istd: _ } = characters;
        let Acted { map: pap, istd } = marks;
        Ok(Modifier {
            istd,
            clear: clears(list),
            chp,
            pap,
        })
    }

    /// The modifier that does what the first does and then the next.
    pub fn compose(alloc: Global, first: &Modifier, then: &Modifier) -> Result<Modifier, Memory>
        ensures parts { IfOk result (IsComposed first.now then.now) }
        ensures in_turn { IfOk result (ActsInTurn first.now then.now) }
        ensures formed { IfOk result (StaysFormedModifier first.now then.now) }
    {
        let istd = match then.istd {
            None => first.istd,
            Some(later) => Some(later),
        };
        Ok(Modifier {
            istd,
            clear: first.clear || then.clear,
            chp: over(alloc, &first.chp, then.clear, &then.chp)?,
            pap: over(alloc, &first.pap, false, &then.pap)?,
        })
    }

    /// The properties of a character after the modifier.
    pub fn on_char(&self, alloc: Global, chp: &PropMap) -> Result<PropMap, Memory>
        ensures map { IfOk result (IsCharacterAfter self.now chp.now) }
        ensures formed { IfOk result
            (λ made. IsFormedModifier self.now → StaysFormed character_groups chp.now made) }
    {
        let made = over(alloc, chp, self.clear, &self.chp)?;
        Ok(made)
    }

    /// The properties and the style number of a mark after the modifier. The style number is always there.
    pub fn on_mark(&self, alloc: Global, istd: u16, pap: &PropMap) -> Result<Acted, Memory>
        ensures map { IfOk result (λ acted. IsMarkAfter self.now pap.now acted.map) }
        ensures formed { IfOk result
            (λ acted. IsFormedModifier self.now → StaysFormed paragraph_groups pap.now acted.map) }
        ensures style { IfOk result (λ acted. acted.istd ≡ Some (mark_style self.now istd)) }
    {
        Ok(Acted {
            map: over(alloc, pap, false, &self.pap)?,
            istd: Some(self.istd.unwrap_or(istd)),
        })
    }

    /// The modifier as a list of sprms.
    pub fn print(&self, alloc: Global) -> Result<Bytes, Memory>
        requires { IsFormedModifier self.now }
        ensures bytes { IfOk result (λ bytes. bytes ≡ printed_modifier self.now) }
        ensures accepted { IfOk result (λ bytes. IsAcceptedList bytes prc_groups) }
        ensures back { IfOk result (λ bytes. IsSpeltModifier bytes self.now) }
    {
        let mut bytes = Bytes::new(alloc);
        push_style(&mut bytes, self.istd)?;
        self.pap.print_to(&mut bytes)?;
        push_clear(&mut bytes, self.clear)?;
        self.chp.print_to(&mut bytes)?;
        Ok(bytes)
    }

    /// How many bytes `print` answers.
    pub fn printed_len(&self) -> u64
        requires { IsFormedModifier self.now }
        ensures { result ≡ length (printed_modifier self.now) }
    {
        let style = style_len(self.istd);
        let clear = clear_len(self.clear);
        style + self.pap.printed_len() + clear + self.chp.printed_len()
    }
}

/// Appends the style as an entry, where there is one.
fn push_style(bytes: &mut Bytes, istd: Option<u16>) -> Result<(), Memory>
    ensures bytes { OnOk result (bytes.new ≡ bytes.old ++ flat_map spelling (style_prls istd)) }
    ensures word { OnOk result (MatchOption istd ⊤ (λ number. number < 65536)) }
{
    if let Some(istd) = istd {
        push_prl(bytes, SPRM_P_ISTD, &style_bytes(istd))?;
    }
    Ok(())
}

/// The bytes of a style number, the lowest first.
fn style_bytes(istd: u16) -> [u8; 2]
    ensures bytes { result ≡ number_bytes 2 istd }
    ensures word { istd < 65536 }
{
    istd.to_le_bytes()
}

/// Appends the clear as an entry, where it is set.
fn push_clear(bytes: &mut Bytes, clear: bool) -> Result<(), Memory>
    ensures { OnOk result (bytes.new ≡ bytes.old ++ flat_map spelling (clear_prls clear)) }
{
    if clear {
        push_prl(bytes, SPRM_C_PLAIN, &[0])?;
    }
    Ok(())
}

/// How many bytes `push_style` appends.
fn style_len(istd: Option<u16>) -> u64
    ensures len { result ≡ length (flat_map spelling (style_prls istd)) }
    ensures bound { result ≤ 4 }
{
    match istd {
        None => 0,
        Some(_) => 4,
    }
}

/// How many bytes `push_clear` appends.
fn clear_len(clear: bool) -> u64
    ensures len { result ≡ length (flat_map spelling (clear_prls clear)) }
    ensures bound { result ≤ 3 }
{
    if clear { 3 } else { 0 }
}

/// Whether a sprm clears characters.
fn clears_character(code: Code) -> bool
    ensures { result ≡ clears_characters ((code.0, []) ∷ []) }
{
    held(CHARACTER_GROUPS, code) && class(code) == Class::Clear
}

/// Whether a list clears characters.
fn clears(list: &[u8]) -> bool
    ensures { (prls : List Prl) → SpellsSprmList list.now prls → result ≡ clears_characters prls }
{
    let mut prls = SprmIter::new(list);
    while let Some((code, _, _)) = prls.next() {
        if clears_character(code) {
            return true;
        }
    }
    false
}
