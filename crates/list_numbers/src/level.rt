// A level of a list.
use crate::number_kind::NumberKind;
use doc_bits::Units;

/// A level of a list, decoded.
#[derive(Drop)]
pub(crate) struct Level {
    /// [MS-DOC] LVLF.iStartAt: the number that the level begins with.
    pub(crate) start: i32,
    /// [MS-DOC] LVLF.nfc.
    pub(crate) kind: NumberKind,
    /// [MS-DOC] Xst: the units of the number; those below 9 represent the numbers of levels.
    pub(crate) text: Units,
    /// [MS-DOC] sprmCRgFtc2 of LVL.grpprlChpx: the number of the font of its units.
    pub(crate) font: Option<u16>,
}
