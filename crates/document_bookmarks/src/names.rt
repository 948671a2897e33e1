// Names that copies share.
ghost use Rattle.std.specs.Prelude.{◌≡◌, IfOk};

use doc_bits::Memory;
use std::alloc::Global;
use std::marker::Model;
use std::rc::RcSlice;

/// The units of a name. Copies share them.
#[derive(Drop)]
pub struct Name {
    units: RcSlice<u16>,
}

impl Model for Name {
    ghost use Rattle.std.specs.Prelude.{ℕ, List};
    ghost use Rattle.std.specs.Rc.{rc_slice_items};

    ghost Value = { List ℕ };

    ghost view = { λ name. rc_slice_items name.units };
}

impl Name {
    /// A name of these units.
    pub fn of(units: Vec<u16>) -> Result<Name, Memory>
        ensures { IfOk result (λ name. name ≡ units.items) }
    {
        let units = RcSlice::from_vec(units)?;
        Ok(Name { units })
    }

    /// A name of these units, which are copied.
    pub fn from_slice(alloc: Global, units: &[u16]) -> Result<Name, Memory>
        ensures { IfOk result (λ name. name ≡ units.now) }
    {
        Name::of(Vec::from_slice(alloc, units)?)
    }

    /// A copy of the name, which shares its units.
    pub fn copy(&self) -> Result<Name, Memory>
        ensures { IfOk result (λ copy. copy ≡ self.now) }
    {
        let units = self.units.clone()?;
        Ok(Name { units })
    }

    /// The units.
    pub fn as_slice(&self) -> &[u16]
        ensures { result.now ≡ self.now }
    {
        self.units.as_slice()
    }
}
