// [MS-DOC] PlcBteChpx, PlcBtePapx: the page that has the runs of a byte place.
ghost use Rattle.std.specs.Prelude.{◌≡◌, ◌<◌, IfOk, MatchOption};
ghost use Rattle.fkp_pages.specs.Bin.{bin_count, IsBinTable, IsBinRange, IsBinPage, HasNoBin, HasBinRange, printed_bin};
ghost use Rattle.fkp_pages.specs.Bin.{ArePrintableBins, IsBinTableOf};

use crate::lists::Bins;
use doc_bits::{Bytes, Memory, get32};
use std::alloc::Global;

/// The bytes of a number of a page.
pub const PN_LEN: usize = 4;

/// The bits of an entry that number a page.
pub const PN_BITS: u32 = 0x3F_FFFF;

/// A range of a bin table: byte places from `from` to before `to`, and the number of their page.
#[derive(Clone, Copy)]
pub struct BinRange {
    pub from: u32,
    pub to: u32,
    pub page: u32,
}

/// The number of the page whose range holds a byte place. The page is in `WordDocument` at 512
/// times its number.
pub fn bin_at(bin: &[u8], fc: u32) -> Option<u32>
    requires { IsBinTable bin.now }
    ensures { MatchOption result (HasNoBin bin.now fc) (IsBinPage bin.now fc) }
{
    match bin_range(bin, fc) {
        None => None,
        Some(range) => Some(range.page),
    }
}

/// The range that holds a byte place.
pub fn bin_range(bin: &[u8], fc: u32) -> Option<BinRange>
    requires { IsBinTable bin.now }
    ensures { MatchOption result (HasNoBin bin.now fc) (HasBinRange bin.now fc) }
{
    match range_place(bin, fc) {
        None => None,
        Some(k) => {
            let count = range_count(bin);
            Some(BinRange {
                from: get32(bin, 4 * k),
                to: get32(bin, 4 * (k + 1)),
                page: get32(bin, 4 * (count + 1) + PN_LEN * k) & PN_BITS,
            })
        }
    }
}

/// The number of ranges.
pub fn range_count(bin: &[u8]) -> usize
    requires { IsBinTable bin.now }
    ensures { result ≡ bin_count bin.now }
{
    (bin.len() - 4) / (4 + PN_LEN)
}

/// Which range holds the place: the fcs ascend, so half of those that are left go at each turn.
fn range_place(bin: &[u8], fc: u32) -> Option<usize>
    requires { IsBinTable bin.now }
    ensures { MatchOption result (HasNoBin bin.now fc) (IsBinRange bin.now fc) }
{
    let mut low = 0;
    let mut high = range_count(bin);
    while low < high {
        let middle = low + (high - low) / 2;
        if fc < get32(bin, 4 * middle) {
            high = middle;
        } else if get32(bin, 4 * (middle + 1)) <= fc {
            low = middle + 1;
        } else {
            return Some(middle);
        }
    }
    None
}

/// Writes a bin table of these ranges, of which the last one ends at `end`.
pub fn write_bin(alloc: Global, bins: &Bins, end: u32) -> Result<Bytes, Memory>
    requires { ArePrintableBins bins.now end }
    ensures bytes { IfOk result (λ bytes. bytes ≡ printed_bin bins.now end) }
    ensures table { IfOk result (λ bytes. IsBinTableOf bins.now end bytes) }
{
    let mut bytes = Bytes::new(alloc);
    for bin in &bins.items {
        bytes.push32(bin.first)?;
    }
    bytes.push32(end)?;
    for bin in &bins.items {
        bytes.push32(bin.page)?;
    }
    Ok(bytes)
}
