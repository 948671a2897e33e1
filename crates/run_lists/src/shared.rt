// Values that a list of runs may keep.
ghost use Rattle.std.specs.Prelude.{◌≡◌, ◌↔◌, IsTrue, IfOk};

use doc_bits::Memory;
use prop_map::PropMap;
use std::alloc::Global;

/// A value that can be copied and compared.
pub trait Shared: Drop {
    /// A copy of the value.
    fn copy(&self, alloc: Global) -> Result<Self, Memory>
        ensures { IfOk result (λ copy. copy ≡ self.now) };

    /// Whether both are the same value.
    fn equal(&self, other: &Self) -> bool
        ensures { IsTrue result ↔ self.now ≡ other.now };
}

impl Shared for PropMap {
    fn copy(&self, alloc: Global) -> Result<PropMap, Memory> {
        let copy = PropMap::copy(self, alloc)?;
        Ok(copy)
    }

    fn equal(&self, other: &PropMap) -> bool {
        PropMap::equal(self, other)
    }
}
