// The order of the CPs of a table. The last CP of a table is checked by nobody.
ghost use Rattle.std.specs.Prelude.{◌≡◌, ◌<◌, ◌↔◌, IsTrue};
ghost use Rattle.doc_bits.specs.Plc.{plc_cp};
ghost use Rattle.doc_parts.specs.Cps.{MayPrecede, IsCpInOrder};

use doc_bits::Plc;

/// How CPs follow one another.
#[derive(Clone, Copy)]
pub enum CpOrder {
    /// Each is above the one before it.
    Ascend,
    /// None is below the one before it.
    NeverFall,
}

impl CpOrder {
    /// Whether a CP may be before another one.
    fn allows(self, first: u32, second: u32) -> bool
        ensures { IsTrue result ↔ MayPrecede self first second }
    {
        match self {
            CpOrder::Ascend => first < second,
            CpOrder::NeverFall => first <= second,
        }
    }
}

/// What the CPs of a table keep to, all but the last.
#[derive(Clone, Copy)]
pub struct CpForm {
    pub order: CpOrder,
    /// The first CP is 0.
    pub from_zero: bool,
    /// Each CP may be before it, in the same order.
    pub story_len: u32,
}

impl CpForm {
    /// Whether the CP of an entry is 0 where it has to be, comes after the one before it, and
    /// before the end of the story.
    pub(crate) fn is_kept(self, plc: &Plc<'_>, k: usize) -> bool
        requires { k < plc.now.count }
        ensures { IsTrue result ↔ IsCpInOrder self (plc_cp plc.now.bytes) k }
    {
        let cp = plc.cp(k);
        let begins = k > 0 || !self.from_zero || cp == 0;
        let follows = k == 0 || self.order.allows(plc.cp(k - 1), cp);
        begins && follows && self.order.allows(cp, self.story_len)
    }
}
