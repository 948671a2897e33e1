// A map that is being changed: a tree, so that each change costs the logarithm of its size.
ghost use Rattle.std.specs.Prelude.{◌≡◌, ℕ, [], ◌∷◌, map as each, OnOk, OnErr, IfOk};
ghost use Rattle.std.specs.Option.{option_map, option_or};
ghost use Rattle.std.specs.FinMap as map;
ghost use Rattle.sprm_table.specs.Codes.{is_code_among};
ghost use Rattle.prop_map.specs.Acting.{is_kept_by_plain, ArePropertiesAfter};
ghost use Rattle.prop_map.specs.Overlay.{without};

use crate::PropMap;
use crate::block::{Block, push_entry};
use doc_bits::{Bytes, Memory};
use sprm_table::{Class, Code, class, held};
use std::alloc::Global;
use std::collections::BTreeMap;
use std::marker::Model;

/// A map in the making: codes and their values.
#[derive(Drop)]
pub struct Draft {
    tree: BTreeMap<u16, Bytes>,
}

impl Model for Draft {
    ghost use Rattle.std.specs.Prelude.{IsTrue};
    ghost use Rattle.std.specs.Ordering.{nat_cmp};
    ghost use Rattle.std.specs.FinMap as map;
    ghost use Rattle.prop_map.specs.Settings.{Properties, properties_code};

    ghost Value = { Properties };

    ghost coded = { properties_code };

    ghost view = { λ d. map.from_sorted d.tree.entries };

    ghost invariant = { λ d. IsTrue (map.is_sorted nat_cmp d.tree.entries) };
}

impl Draft {
    /// The empty map. It takes no memory.
    pub fn new(alloc: Global) -> Draft
        ensures { result ≡ map.empty }
    {
        Draft {
            tree: BTreeMap::new(alloc),
        }
    }

    /// The value at a code.
    pub fn get(&self, code: Code) -> Option<&[u8]>
        ensures { option_map (λ v. v.now) result ≡ map.get self.now code.0 }
    {
        match self.tree.get(&code.0) {
            None => None,
            Some(value) => Some(value.as_slice()),
        }
    }

    /// Puts a value at a code, in place of what was there.
    pub fn put(&mut self, code: Code, value: Bytes) -> Result<(), Memory>
        ensures ok { OnOk result (self.new ≡ map.insert self.old code.0 value) }
        ensures err { OnErr result (self.new ≡ self.old) }
    {
        self.tree.insert(code.0, value)?;
        Ok(())
    }

    /// Puts each entry of a map, in place of what was at its code.
    pub(crate) fn put_all(&mut self, alloc: Global, top: &PropMap) -> Result<(), Memory>
        ensures { OnOk result
            ((code : ℕ) → map.get self.new code ≡ option_or (map.get top.now code) (map.get self.old code)) }
    {
        let mut left = top.entries();
        while let Some((code, value)) = left.next() {
            self.put(code, Bytes::from_slice(alloc, value)?)?;
        }
        Ok(())
    }

    /// Removes all but what sprmCPlain leaves: sprmCFSpec, sprmCFData, sprmCPicLocation and sprmCIstd.
    pub(crate) fn clear(&mut self)
        ensures { self.new ≡ map.retain_keys self.old is_kept_by_plain }
    {
        self.tree.retain(|code, _| matches!(*code, 0x0855 | 0x0806 | 0x6A03 | 0x4A30));
    }

    /// Removes what is at these codes.
    pub(crate) fn remove(&mut self, codes: &[Code])
        ensures { self.new ≡ without (each (λ c. c.0) codes.now) self.old }
    {
        self.tree.retain(|code, _| !is_one_of(codes, *code));
    }

    /// Acts with one sprm.
    pub(crate) fn act(
        &mut self,
        alloc: Global,
        groups: u8,
        code: Code,
        value: &[u8],
    ) -> Result<(), Memory>
        ensures { OnOk result (ArePropertiesAfter ((code.0, value.now) ∷ []) groups self.old self.new) }
    {
        if held(groups, code) {
            match class(code) {
                Class::Plain | Class::Toggle => {
                    self.put(code, Bytes::from_slice(alloc, value)?)?;
                }
                Class::Clear => self.clear(),
                Class::Style | Class::Refused => {}
            }
        }
        Ok(())
    }

    /// The map itself, as a list that copies share.
    pub fn into_map(self, alloc: Global) -> Result<PropMap, Memory>
        ensures { IfOk result (λ made. made ≡ self) }
    {
        let mut bytes = Bytes::new(alloc);
        for (code, value) in self.tree {
            push_entry(&mut bytes, Code(code), value.as_slice())?;
        }
        PropMap::from_block(alloc, Block::of_bytes(bytes))
    }
}

/// Whether the code is one of these.
fn is_one_of(codes: &[Code], code: u16) -> bool
    ensures { result ≡ is_code_among code (each (λ c. c.0) codes.now) }
{
    for other in codes {
        if other.0 == code {
            return true;
        }
    }
    false
}
