// [MS-DOC] Clx, Prc: the changes of tab stops in the lists of the Prcs.
ghost use Rattle.std.specs.Prelude.{◌+◌, ◌^◌, ◌<◌, OnOk, length};
ghost use Rattle.tab_stops.specs.Lists.{PushesStops};
ghost use Rattle.tab_stops.specs.Prcs.{AreClxStops};

use crate::lists::push_list;
use doc_bits::Memory;
use piece_table::{PRC_HEAD, prc_front};

/// Appends where the codes are in the Prcs of a Clx that begins at a place, whether a piece names them or not.
pub fn push_prc_stops(places: &mut Vec<usize>, clx: &[u8], begin: usize) -> Result<(), Memory>
    requires { begin + length clx.now < 2 ^ 64 }
    ensures { OnOk result (PushesStops (AreClxStops clx.now begin) places.old.items places.new.items) }
{
    let mut at = 0;
    while let Some(len) = prc_front(&clx[at..]) {
        let from = at + PRC_HEAD;
        push_list(places, &clx[from..from + len], begin + from)?;
        at = from + len;
    }
    Ok(())
}
