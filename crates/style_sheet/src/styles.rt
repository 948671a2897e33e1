// [MS-DOC] STD: a style, decoded.
ghost use Rattle.std.specs.Prelude.{◌≡◌, ◌↔◌, IsTrue};

use crate::UpxList;
use doc_bits::Units;
use prop_map::PropMap;

/// A style. Its fields are those of the STD; what the standard lets a reader ignore is not kept.
#[derive(Drop)]
pub struct Style {
    /// The number of a built-in style, below 4,096.
    pub sti: u16,
    /// The four flags fScratch, fInvalHeight, fHasUpe and fMassCopy, the first one lowest.
    pub flags: u8,
    /// The style that this one is based on, below 4,095.
    pub base: Option<u16>,
    /// The style of the next paragraph, below 4,096.
    pub next: u16,
    /// [MS-DOC] GRFSTD.
    pub grfstd: u16,
    pub name: Units,
    pub kind: Kind,
}

/// What a style is for, with its own properties.
#[derive(Drop)]
pub enum Kind {
    /// A style of paragraphs.
    Para { pap: PropMap, chp: PropMap },
    /// A style of characters.
    Char { chp: PropMap },
    /// A style of tables or of numbering, by its stk, 3 or 4: its property lists as they are.
    Other { stk: u8, upxes: UpxList },
}

impl Style {
    /// Whether both have the same fields.
    pub(crate) fn equal(&self, other: &Style) -> bool
        ensures { IsTrue result ↔ self.now ≡ other.now }
    {
        self.sti == other.sti
            && self.flags == other.flags
            && self.base == other.base
            && self.next == other.next
            && self.grfstd == other.grfstd
            && self.name.as_slice() == other.name.as_slice()
            && self.kind.equal(&other.kind)
    }
}

impl Kind {
    /// Whether both are the same kind with the same properties.
    pub(crate) fn equal(&self, other: &Kind) -> bool
        ensures { IsTrue result ↔ self.now ≡ other.now }
    {
        match (self, other) {
            (
                Kind::Para { pap, chp },
                Kind::Para {
                    pap: papx,
                    chp: chpx,
                },
            ) => { pap.equal(papx) && chp.equal(chpx) }
            (Kind::Char { chp }, Kind::Char { chp: chpx }) => chp.equal(chpx),
            (
                Kind::Other { stk, upxes },
                Kind::Other {
                    stk: number,
                    upxes: lists,
                },
            ) => { stk == number && upxes.equal(lists) }
            (Kind::Para { .. }, _) => false,
            (Kind::Char { .. }, _) => false,
            (Kind::Other { .. }, _) => false,
        }
    }
}
