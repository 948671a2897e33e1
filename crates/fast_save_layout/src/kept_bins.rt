// The ranges of an old bin table that are kept.
ghost use Rattle.std.specs.Prelude.{◌≡◌, ◌<◌, ◌++◌, OnOk};
ghost use Rattle.fkp_pages.specs.Bin.{IsBinTable, bin_count, page_number};
ghost use Rattle.fast_save_layout.specs.KeptBins.{kept_bins, kept_end as end_before};

use doc_bits::{Memory, get32};
use fkp_pages::{Bins, PN_BITS, PN_LEN};

/// The bytes of an fc, and of the number of a page.
const FC_LEN: usize = 4;

/// Puts the ranges of a bin table that begin before a byte behind others.
pub(crate) fn keep_bins(bins: &mut Bins, table: &[u8], before: u32) -> Result<(), Memory>
    requires { IsBinTable table.now }
    ensures { OnOk result (bins.new ≡ bins.old ++ kept_bins table.now before) }
{
    let count = range_count(table);
    for k in 0..count {
        let first = get32(table, FC_LEN * k);
        if first < before {
            let page = page_of(table, k);
            bins.add(first, page)?;
        }
    }
    Ok(())
}

/// Where these ranges end.
pub(crate) fn kept_end(table: &[u8], before: u32) -> u32
    requires { IsBinTable table.now }
    ensures { result ≡ end_before table.now before }
{
    get32(table, FC_LEN * range_count(table)).min(before)
}

/// The number of ranges.
fn range_count(table: &[u8]) -> usize
    requires { IsBinTable table.now }
    ensures { result ≡ bin_count table.now }
{
    (table.len() - FC_LEN) / (FC_LEN + PN_LEN)
}

/// The number of the page of a range.
fn page_of(table: &[u8], k: usize) -> u32
    requires table { IsBinTable table.now }
    requires below { k < bin_count table.now }
    ensures { result ≡ page_number table.now k }
{
    let count = range_count(table);
    get32(table, FC_LEN * (count + 1) + PN_LEN * k) & PN_BITS
}
