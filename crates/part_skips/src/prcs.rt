// [MS-DOC] Clx: the lists of its Prcs, skipped in place.
ghost use Rattle.std.specs.Prelude.{◌≤◌, length};
ghost use Rattle.part_skips.specs.Prcs.{SkipsPrcs, PutsPrcs};

use piece_table::{PRC_HEAD, prc_front};
use prl_skips::skip_list;

/// Skips the codes in the lists of the Prcs of a Clx, whether a piece names them or not.
pub fn skip_prcs(clx: &mut [u8])
    ensures { SkipsPrcs clx.old clx.new }
{
    let mut at = 0;
    while let Some(len) = prc_front(&clx[at..]) {
        let from = at + PRC_HEAD;
        skip_list(&mut clx[from..from + len]);
        at = from + len;
    }
}

/// Skips those of the Clx in a range of a stream. No byte outside of the range changes.
pub fn skip_prcs_in(stream: &mut [u8], from: usize, to: usize)
    requires ordered { from ≤ to }
    requires within { to ≤ length stream.old }
    ensures { PutsPrcs from to stream.old stream.new }
{
    skip_prcs(&mut stream[from..to]);
}
