// The rules on the pieces, one function a rule.
ghost use Rattle.std.specs.Prelude.{◌≡◌, ◌+◌, ◌^◌, ◌<◌};
ghost use Rattle.std.specs.Prelude.{length, MatchResult, IsTrue, ◌↔◌};
ghost use Rattle.doc_bits.specs.Rules.{Hold, LeastOrNone, Among};
ghost use Rattle.piece_table.specs.Clx.{IsPlcPcd, pcd_place};
ghost use Rattle.piece_table.specs.ClxRules.{HasWrongCp, IsNoCpAscent, IsOutside, LeavesStream};
ghost use Rattle.piece_table.specs.ClxRules.{IsUnread, IsReadPrm, piece_rules, NamesFirst};

use crate::collect::piece_of;
use crate::pcd::prm_of_piece;
use crate::{ClxFault, Piece, Prm, TextBounds};
use doc_bits::Plc;
use sprm_table::prm_code;

const RULE_CPS: u8 = 28;

const RULE_BYTES: u8 = 29;

const RULE_PRM: u8 = 30;

/// The most pieces of a text.
const MAX_PIECES: usize = 16_384;

/// Names the first broken rule on the pieces. `base` is where their Plc begins in the table stream.
pub fn check(
    plc: &Plc<'_>,
    base: u32,
    prcs: usize,
    bounds: TextBounds,
    text_len: u32,
) -> Result<(), ClxFault>
    requires table { IsPlcPcd plc.now }
    requires place { base + length plc.now.bytes < 2 ^ 32 }
    ensures { MatchResult result
        (λ _. Hold (piece_rules plc.now base prcs bounds text_len))
        (NamesFirst (piece_rules plc.now base prcs bounds text_len)) }
{
    if let Some(offset) = wrong_cp(plc, base, text_len) {
        return Err(ClxFault::Rule {
            rule: RULE_CPS,
            offset,
        });
    }
    if let Some(offset) = outside(plc, base, bounds) {
        return Err(ClxFault::Rule {
            rule: RULE_BYTES,
            offset,
        });
    }
    if let Some(offset) = first_unread(plc, base, prcs) {
        return Err(ClxFault::Rule {
            rule: RULE_PRM,
            offset,
        });
    }
    Ok(())
}

/// The first CP that is wrong.
fn wrong_cp(plc: &Plc<'_>, base: u32, text_len: u32) -> Option<u32>
    requires table { IsPlcPcd plc.now }
    requires place { base + length plc.now.bytes < 2 ^ 32 }
    ensures { LeastOrNone (HasWrongCp plc.now base text_len) result }
{
    if plc.len() > MAX_PIECES || plc.cp(0) != 0 {
        return Some(base);
    }
    if let Some(offset) = no_ascent(plc, base) {
        return Some(offset);
    }
    if plc.cp(plc.len()) != text_len {
        return Some(base + 4 * plc.len() as u32);
    }
    None
}

/// The first CP that is not above the one before it.
fn no_ascent(plc: &Plc<'_>, base: u32) -> Option<u32>
    requires table { IsPlcPcd plc.now }
    requires place { base + length plc.now.bytes < 2 ^ 32 }
    ensures { LeastOrNone (Among plc.now.count (IsNoCpAscent plc.now base)) result }
{
    for k in 0..plc.len() {
        if plc.cp(k + 1) <= plc.cp(k) {
            return Some(base + 4 * (k as u32 + 1));
        }
    }
    None
}

/// The first piece with bytes in the FIB or beyond the stream: the place of its FcCompressed.
fn outside(plc: &Plc<'_>, base: u32, bounds: TextBounds) -> Option<u32>
    requires table { IsPlcPcd plc.now }
    requires place { base + length plc.now.bytes < 2 ^ 32 }
    ensures { LeastOrNone (Among plc.now.count (IsOutside plc.now base bounds)) result }
{
    for k in 0..plc.len() {
        if is_outside(piece_of(plc, k), bounds) {
            return Some(base + (pcd_offset(plc, k) + 2));
        }
    }
    None
}

/// Whether a piece has bytes in the FIB or beyond the stream.
fn is_outside(piece: Piece, bounds: TextBounds) -> bool
    ensures { IsTrue result ↔ LeavesStream bounds piece }
{
    piece.at < bounds.from || piece.end() > bounds.end as u64
}

/// The first piece whose Prm is not read: the place of the Prm.
fn first_unread(plc: &Plc<'_>, base: u32, prcs: usize) -> Option<u32>
    requires table { IsPlcPcd plc.now }
    requires place { base + length plc.now.bytes < 2 ^ 32 }
    ensures { LeastOrNone (Among plc.now.count (IsUnread plc.now base prcs)) result }
{
    for k in 0..plc.len() {
        if !is_read(prm_of_piece(plc, k), prcs) {
            return Some(base + (pcd_offset(plc, k) + 6));
        }
    }
    None
}

/// Whether a Prm is read where there are so many Prcs.
fn is_read(prm: Prm, prcs: usize) -> bool
    ensures { IsTrue result ↔ IsReadPrm prcs prm }
{
    match prm {
        Prm::Nothing => true,
        Prm::Sprm(isprm, _) => prm_code(isprm).is_some(),
        Prm::Prc(number) => (number as usize) < prcs,
    }
}

/// Where the Pcd of a piece is in its Plc.
fn pcd_offset(plc: &Plc<'_>, k: usize) -> u32
    requires table { IsPlcPcd plc.now }
    requires place { length plc.now.bytes < 2 ^ 32 }
    requires piece { k < plc.now.count }
    ensures { result ≡ pcd_place plc.now k }
{
    (4 * (plc.len() + 1) + 8 * k) as u32
}
