// The lists of the Prcs of a Clx, counted.
ghost use Rattle.std.specs.Prelude.{List, IfOk};
ghost use Rattle.sprm_table.specs.Sprm.{Prl};
ghost use Rattle.code_losses.specs.Counted.{AreCodeCounts};
ghost use Rattle.code_losses.specs.Prcs.{AreListsOfPrcs};

use crate::counts::CodeCounts;
use doc_bits::Memory;
use piece_table::{PRC_HEAD, prc_front};
use std::alloc::Global;

/// Counts the lists of the Prcs at the front of a Clx.
pub(crate) fn count_prcs(alloc: Global, clx: &[u8]) -> Result<CodeCounts, Memory>
    ensures { IfOk result (λ counts.
        (lists : List (List Prl)) × (AreListsOfPrcs clx.now lists × AreCodeCounts lists counts)) }
{
    let mut counts = CodeCounts::new(alloc)?;
    let mut at = 0;
    while let Some(len) = prc_front(&clx[at..]) {
        let from = at + PRC_HEAD;
        counts.count(&clx[from..from + len]);
        at = from + len;
    }
    Ok(counts)
}
