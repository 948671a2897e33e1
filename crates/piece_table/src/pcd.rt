// [MS-DOC] Pcd: what is beside the CPs of a piece.
ghost use Rattle.std.specs.Prelude.{◌≡◌, ◌<◌};
ghost use Rattle.piece_table.specs.Clx.{fc_compressed, prm_of, pcd_fc, pcd_prm, prm_word as prm_word_of, IsPlcPcd};

use doc_bits::{Plc, get16, get32};

/// Where the units of a piece are.
#[derive(Clone, Copy)]
pub struct FcCompressed {
    /// The first byte, from the start of `WordDocument`.
    pub at: u32,
    /// Whether each unit has two bytes.
    pub wide: bool,
}

/// The modifier of a piece.
#[derive(Clone, Copy, PartialEq, Eq)]
pub enum Prm {
    Nothing,
    /// One sprm by its short number, and its operand.
    Sprm(u8, u8),
    /// The number of a Prc.
    Prc(u16),
}

impl FcCompressed {
    /// The FcCompressed of a number.
    fn read(number: u32) -> FcCompressed
        ensures { result ≡ fc_compressed number }
    {
        let fc = number % (1 << 30);
        if number / (1 << 30) % 2 == 1 {
            FcCompressed {
                at: fc / 2,
                wide: false,
            }
        } else {
            FcCompressed { at: fc, wide: true }
        }
    }
}

impl Prm {
    /// The Prm of a number.
    pub(crate) fn read(number: u16) -> Prm
        ensures { result ≡ prm_of number }
    {
        if number % 2 == 1 {
            return Prm::Prc(number / 2);
        }
        let isprm = (number / 2 % 128) as u8;
        if isprm == 0 {
            Prm::Nothing
        } else {
            Prm::Sprm(isprm, (number / 256) as u8)
        }
    }
}

/// The FcCompressed of a piece.
pub fn fc_of(plc: &Plc<'_>, k: usize) -> FcCompressed
    requires table { IsPlcPcd plc.now }
    requires piece { k < plc.now.count }
    ensures { result ≡ pcd_fc plc.now k }
{
    FcCompressed::read(get32(plc.entry(k), 2))
}

/// The number that is the Prm of a piece.
pub fn prm_word(plc: &Plc<'_>, k: usize) -> u16
    requires table { IsPlcPcd plc.now }
    requires piece { k < plc.now.count }
    ensures { result ≡ prm_word_of plc.now k }
{
    get16(plc.entry(k), 6)
}

/// The Prm of a piece.
pub fn prm_of_piece(plc: &Plc<'_>, k: usize) -> Prm
    requires table { IsPlcPcd plc.now }
    requires piece { k < plc.now.count }
    ensures { result ≡ pcd_prm plc.now k }
{
    Prm::read(prm_word(plc, k))
}
