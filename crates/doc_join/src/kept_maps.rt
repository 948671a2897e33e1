// Properties of characters whose style has another number. Equal maps one behind the other stay one map.
ghost use Rattle.std.specs.Prelude.{◌≡◌, ◌+◌, ◌≤◌, IfOk, MatchOption};
ghost use Rattle.std.specs.FinMap.{insert};
ghost use Rattle.doc_bits.specs.Number.{number_bytes};
ghost use Rattle.prop_map.specs.Formed.{IsPropertyMap, character_groups};
ghost use Rattle.effective_props.specs.Layers.{character_style_code};
ghost use Rattle.doc_join.specs.Settings.{renumbered_chp};

use crate::renumbering::Renumbering;
use doc_bits::{Bytes, Memory, get16};
use prop_map::PropMap;
use sprm_table::SPRM_C_ISTD;
use std::alloc::Global;

/// The maps of a document with their styles renumbered. The last one that changed is kept, with what it became.
#[derive(Drop)]
pub(crate) struct KeptMaps {
    pub(crate) alloc: Global,
    pub(crate) numbers: Renumbering,
    /// The last map that changed.
    from: PropMap,
    /// What it became.
    to: PropMap,
    pub ghost few: { numbers.before + numbers.slots ≤ 4094 },
    pub ghost same: { to ≡ renumbered_chp numbers from },
}

impl KeptMaps {
    pub(crate) fn new(alloc: Global, numbers: Renumbering) -> KeptMaps
        requires { numbers.before + numbers.slots ≤ 4094 }
        ensures { result.numbers ≡ numbers }
    {
        KeptMaps {
            alloc,
            numbers,
            from: PropMap::new(alloc),
            to: PropMap::new(alloc),
        }
    }

    /// The number of the style that the properties name afterwards, where it is another one.
    fn other_style(&self, map: &PropMap) -> Option<u16>
        requires { IsPropertyMap character_groups map.now }
        ensures { MatchOption result
            (renumbered_chp self.now.numbers map.now ≡ map.now)
            (λ istd. renumbered_chp self.now.numbers map.now ≡ insert map.now character_style_code (number_bytes 2
            istd)) }
    {
        let value = map.get(SPRM_C_ISTD)?;
        let named = get16(value, 0);
        let istd = self.numbers.style(named);
        if istd == named { None } else { Some(istd) }
    }

    /// The properties with the style renumbered. Their entries are shared where they can be.
    pub(crate) fn map(&mut self, map: &PropMap) -> Result<PropMap, Memory>
        requires { IsPropertyMap character_groups map.now }
        ensures map { IfOk result (λ made. made ≡ renumbered_chp self.old.numbers map.now) }
        ensures numbers { self.new.numbers ≡ self.old.numbers }
    {
        let alloc = self.alloc;
        let Some(istd) = self.other_style(map) else {
            return map.copy(alloc);
        };
        if self.from.equal(map) {
            return self.to.copy(alloc);
        }
        let made = naming(alloc, map, istd)?;
        let (from, to) = (map.copy(alloc)?, made.copy(alloc)?);
        self.from = from;
        self.to = to;
        Ok(made)
    }
}

/// The properties with this style number.
fn naming(alloc: Global, map: &PropMap, istd: u16) -> Result<PropMap, Memory>
    ensures { IfOk result (λ made. made ≡ insert map.now character_style_code (number_bytes 2 istd)) }
{
    let mut value = Bytes::new(alloc);
    value.push16(istd)?;
    let mut made = map.copy(alloc)?;
    made.set(SPRM_C_ISTD, value.as_slice())?;
    Ok(made)
}
