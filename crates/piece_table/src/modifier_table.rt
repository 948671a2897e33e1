// The modifiers of the Prms of a Clx, each read once.
ghost use Rattle.std.specs.Prelude.{◌≡◌, ℕ, ◌^◌, ◌<◌, ◌≤◌, List, length};
ghost use Rattle.std.specs.Prelude.{slice_index, slice_index_or, IfOk, OnOk, Some, ◌++◌, ◌∷◌, []};
ghost use Rattle.sprm_table.specs.Prms.{IsPrmCode};
ghost use Rattle.prop_map.specs.Modifiers.{IsFormedModifier, IsModifierOf, no_modifier};
ghost use Rattle.piece_table.specs.Clx.{prm_of};
ghost use Rattle.piece_table.specs.ClxRules.{IsReadPrm};
ghost use Rattle.piece_table.specs.PrmLists.{IsPrmModifier};
ghost use Rattle.piece_table.specs.Numbering.{HasMet, Extends, AreReadable};

use crate::Prm;
use crate::parts::Prcs;
use doc_bits::Memory;
use prop_map::Modifier;
use sprm_table::{Code, prm_code};
use std::alloc::Global;

/// Modifiers by number, and the numbers of the Prms that were met. Number 0 is the modifier that does nothing, and the
/// number beside a Prm that was not met.
#[derive(Drop)]
pub struct ModifierTable {
    pub modifiers: Vec<Modifier>,
    numbers: Vec<usize>,
}

impl ModifierTable {
    pub fn new(alloc: Global) -> Result<ModifierTable, Memory>
        ensures { IfOk result
            (λ table. (prcs : List (List ℕ)) → HasMet prcs table.modifiers.items table.numbers.items) }
    {
        let mut modifiers = Vec::new(alloc);
        modifiers.push(Modifier::none(alloc))?;
        Ok(ModifierTable {
            modifiers,
            numbers: Vec::new(alloc),
        })
    }

    /// Puts the modifier of a Prm that was not met. The answer is its number.
    pub fn put(&mut self, prm: usize, modifier: Modifier) -> Result<usize, Memory>
        requires { prm < 2 ^ 32 }
        ensures number { IfOk result (λ number. number ≡ length self.old.modifiers.items) }
        ensures list { OnOk result (self.new.modifiers.items ≡ self.old.modifiers.items ++ modifier ∷ []) }
        ensures met { OnOk result ((prcs : List (List ℕ)) → IsFormedModifier modifier
            → IsPrmModifier prcs (prm_of prm) modifier
            → HasMet prcs self.old.modifiers.items self.old.numbers.items
            → HasMet prcs self.new.modifiers.items self.new.numbers.items) }
    {
        grow(&mut self.numbers, prm + 1)?;
        let number = self.modifiers.len();
        self.modifiers.push(modifier)?;
        self.numbers[prm] = number;
        Ok(number)
    }

    /// The number of the modifier of a Prm, which is read where the Prm was not met.
    pub fn number_of(&mut self, alloc: Global, prcs: &Prcs<'_>, word: u16) -> Result<usize, Memory>
        requires read { IsReadPrm (length prcs.now) (prm_of word) }
        requires readable { AreReadable prcs.now (prm_of word) }
        requires met { HasMet prcs.now self.old.modifiers.items self.old.numbers.items }
        ensures within { IfOk result (λ number. number < length self.new.modifiers.items) }
        ensures does { IfOk result (λ number.
            IsPrmModifier prcs.now (prm_of word) (slice_index_or self.new.modifiers.items number no_modifier)) }
        ensures met { OnOk result (HasMet prcs.now self.new.modifiers.items self.new.numbers.items) }
        ensures extends { OnOk result (Extends self.old.modifiers.items self.new.modifiers.items) }
    {
        let prm = Prm::read(word);
        if prm == Prm::Nothing {
            return Ok(0);
        }
        let number = self.number(word as usize);
        if number != 0 {
            return Ok(number);
        }
        let modifier = modifier_of(alloc, prcs, prm)?;
        self.put(word as usize, modifier)
    }

    /// The modifiers alone.
    pub fn into_modifiers(self) -> Vec<Modifier>
        ensures { result.items ≡ self.modifiers.items }
    {
        let ModifierTable {
            modifiers,
            numbers: _,
        } = self;
        modifiers
    }

    /// The number beside a Prm.
    fn number(&self, prm: usize) -> usize
        ensures { result ≡ slice_index self.now.numbers.items prm }
    {
        if prm < self.numbers.len() {
            self.numbers[prm]
        } else {
            0
        }
    }
}

/// Appends zeros, up to so many numbers.
fn grow(numbers: &mut Vec<usize>, len: usize) -> Result<(), Memory>
    ensures long { OnOk result (len ≤ length numbers.new.items) }
    ensures same { OnOk result
        ((prm : ℕ) → slice_index numbers.new.items prm ≡ slice_index numbers.old.items prm) }
{
    while numbers.len() < len {
        numbers.push(0)?;
    }
    Ok(())
}

/// The modifier of a Prm that is read.
fn modifier_of(alloc: Global, prcs: &Prcs<'_>, prm: Prm) -> Result<Modifier, Memory>
    requires read { IsReadPrm (length prcs.now) prm }
    requires readable { AreReadable prcs.now prm }
    ensures does { IfOk result (IsPrmModifier prcs.now prm) }
    ensures formed { IfOk result IsFormedModifier }
{
    match prm {
        Prm::Nothing => Ok(Modifier::none(alloc)),
        Prm::Sprm(isprm, operand) => match prm_code(isprm) {
            None => Ok(Modifier::none(alloc)),
            Some(code) => one_sprm(alloc, code, operand),
        },
        Prm::Prc(number) => {
            let modifier = Modifier::read(alloc, prcs.list(number as usize))?;
            Ok(modifier)
        }
    }
}

/// The modifier of one sprm with an operand of one byte.
fn one_sprm(alloc: Global, code: Code, operand: u8) -> Result<Modifier, Memory>
    requires { IsPrmCode code.0 }
    ensures does { IfOk result (IsModifierOf ((code.0, operand ∷ []) ∷ [])) }
    ensures formed { IfOk result IsFormedModifier }
{
    let word = code.0.to_le_bytes();
    let modifier = Modifier::read(alloc, &[word[0], word[1], operand])?;
    Ok(modifier)
}
