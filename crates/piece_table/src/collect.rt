// The pieces of a Clx that was checked.
ghost use Rattle.std.specs.Prelude.{◌≡◌, ◌-◌, ◌^◌, ◌<◌};
ghost use Rattle.std.specs.Prelude.{◌≤◌, length, map, IfOk, OnOk};
ghost use Rattle.piece_table.specs.Piece.{bare_piece};
ghost use Rattle.piece_table.specs.Clx.{IsPlcPcd, clx_piece, clx_pieces, HaveModifiers};
ghost use Rattle.piece_table.specs.ClxRules.{AreReadPrms};
ghost use Rattle.piece_table.specs.Front.{AscendsTo, EndsWithin, clx_parts};
ghost use Rattle.piece_table.specs.Numbering.{HasMet, AreAccepted, AreEntriesOf};

use crate::modifier_table::ModifierTable;
use crate::parts::Parts;
use crate::pcd::{fc_of, prm_word};
use crate::pieces::Entry;
use crate::{Piece, PieceList};
use doc_bits::{Memory, Plc};
use std::alloc::Global;

/// The piece of a Clx by its number.
pub fn piece_of(plc: &Plc<'_>, k: usize) -> Piece
    requires table { IsPlcPcd plc.now }
    requires piece { k < plc.now.count }
    ensures { result ≡ clx_piece plc.now k }
{
    let fc = fc_of(plc, k);
    Piece {
        at: fc.at,
        wide: fc.wide,
        len: plc.cp(k + 1).saturating_sub(plc.cp(k)),
    }
}

/// All pieces of a Clx. The table has the modifiers of the Prcs that they name.
pub fn pieces_of(
    alloc: Global,
    parts: &Parts<'_>,
    mut table: ModifierTable,
    text_len: u32,
) -> Result<PieceList, Memory>
    requires table { IsPlcPcd parts.now.plc }
    requires cps { AscendsTo parts.now.plc text_len }
    requires within { EndsWithin parts.now.plc (2 ^ 32 - 1) }
    requires text { text_len ≤ 500001 }
    requires read { AreReadPrms parts.now.plc (length parts.now.prcs) }
    requires accepted { AreAccepted (clx_parts parts.now) (length parts.now.prcs) }
    requires met { HasMet parts.now.prcs table.modifiers.items table.numbers.items }
    ensures pieces { IfOk result (λ list. map bare_piece list.pieces ≡ clx_pieces parts.now.plc) }
    ensures modifiers { IfOk result (λ list. HaveModifiers (clx_parts parts.now) list.pieces) }
{
    let items = entries_of(alloc, parts, &mut table)?;
    let modifiers = table.into_modifiers();
    let list = PieceList::of(alloc, &items, modifiers, text_len)?;
    Ok(list)
}

/// The pieces, each with the number of its modifier in the table.
fn entries_of(
    alloc: Global,
    parts: &Parts<'_>,
    table: &mut ModifierTable,
) -> Result<Vec<Entry>, Memory>
    requires plc { IsPlcPcd parts.now.plc }
    requires read { AreReadPrms parts.now.plc (length parts.now.prcs) }
    requires accepted { AreAccepted (clx_parts parts.now) (length parts.now.prcs) }
    requires met { HasMet parts.now.prcs table.old.modifiers.items table.old.numbers.items }
    ensures entries { IfOk result (λ entries. AreEntriesOf (clx_parts parts.now)
        table.new.modifiers.items parts.now.plc.count entries.items) }
    ensures met { OnOk result (HasMet parts.now.prcs table.new.modifiers.items table.new.numbers.items) }
{
    let mut entries = Vec::with_capacity(alloc, parts.plc.len())?;
    for k in 0..parts.plc.len() {
        let modifier = table.number_of(alloc, &parts.prcs, prm_word(&parts.plc, k))?;
        let piece = piece_of(&parts.plc, k);
        entries.push(Entry { piece, modifier })?;
    }
    Ok(entries)
}
