ghost use Rattle.std.specs.Prelude.{◌≡◌, ◌+◌, ◌^◌, ◌<◌, ◌≤◌};
ghost use Rattle.std.specs.Prelude.{length, map, All, MatchResult, IfOk};
ghost use Rattle.doc_bits.specs.Rules.{Hold};
ghost use Rattle.piece_table.specs.Clx.{IsPlcPcd, plc_place, IsClx, clx_pieces, HaveModifiers};
ghost use Rattle.piece_table.specs.ClxRules.{clx_rules, parts_rules, text_bounds};
ghost use Rattle.piece_table.specs.ClxRules.{IsClxFault, StaysInStream, FitsPages};
ghost use Rattle.piece_table.specs.Front.{clx_parts};
ghost use Rattle.piece_table.specs.Piece.{total_length, bare_piece};

use crate::collect::pieces_of;
use crate::judge::check;
use crate::parts::{Parts, parts_of};
use crate::prcs::{faulty_prc, named_prcs, prc_modifiers};
use crate::{ClxFault, PieceList, TextBounds};
use std::alloc::Global;

const RULE_SPRM: u8 = 31;

/// Reads the pieces of a Clx that is at `at` in the table stream. `wd_len` is the length of `WordDocument` in
/// bytes, `text_len` the number of CPs, `from` the size of the FIB in bytes: text is behind it.
pub fn read_clx(
    alloc: Global,
    clx: &[u8],
    at: u32,
    wd_len: u32,
    text_len: u32,
    from: u32,
) -> Result<PieceList, ClxFault>
    requires place { at + length clx.now < 2 ^ 32 }
    requires text { text_len ≤ 500001 }
    ensures read { MatchResult result
        (λ list. Hold (clx_rules clx.now at (text_bounds from wd_len) text_len) × IsClx clx.now list.pieces)
        (IsClxFault (clx_rules clx.now at (text_bounds from wd_len) text_len)) }

    // What the rules say of the pieces.
    ensures within { IfOk result
        (λ list. All (λ piece. StaysInStream (text_bounds from wd_len) (bare_piece piece)) list.pieces) }
    ensures total { IfOk result (λ list. total_length list.pieces ≡ text_len) }
    ensures fit { IfOk result (λ list. All (λ piece. FitsPages piece.modifier) list.pieces) }
{
    let parts = parts_of(alloc, clx, at)?;
    let bounds = TextBounds { from, end: wd_len };
    read_parts(alloc, &parts, at, bounds, text_len)
}

/// The pieces of the parts of a Clx.
fn read_parts(
    alloc: Global,
    parts: &Parts<'_>,
    at: u32,
    bounds: TextBounds,
    text_len: u32,
) -> Result<PieceList, ClxFault>
    requires place { at + parts.now.place + length parts.now.plc.bytes < 2 ^ 32 }
    requires table { IsPlcPcd parts.now.plc }
    requires end { bounds.end < 2 ^ 32 }
    requires place_is { parts.now.place ≡ plc_place (clx_parts parts.now) }
    requires text { text_len ≤ 500001 }
    ensures read { MatchResult result
        (λ list. Hold (parts_rules (clx_parts parts.now) at bounds text_len)
        × ((map bare_piece list.pieces ≡ clx_pieces parts.now.plc)
        × HaveModifiers (clx_parts parts.now) list.pieces))
        (IsClxFault (parts_rules (clx_parts parts.now) at bounds text_len)) }
    ensures within { IfOk result (λ list. All (λ piece. StaysInStream bounds (bare_piece piece)) list.pieces) }
    ensures total { IfOk result (λ list. total_length list.pieces ≡ text_len) }
    ensures fit { IfOk result (λ list. All (λ piece. FitsPages piece.modifier) list.pieces) }
{
    check(
        &parts.plc,
        at + parts.place as u32,
        parts.prcs.len(),
        bounds,
        text_len,
    )?;
    let named = named_prcs(alloc, parts)?;
    if let Some(offset) = faulty_prc(parts, &named, at) {
        return Err(ClxFault::Rule {
            rule: RULE_SPRM,
            offset,
        });
    }
    let modifiers = prc_modifiers(alloc, parts, &named, at)?;
    let list = pieces_of(alloc, parts, modifiers, text_len)?;
    Ok(list)
}
