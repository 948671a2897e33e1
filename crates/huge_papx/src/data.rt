// The stream Data, and the lists of sprms in it.
ghost use Rattle.std.specs.Prelude.{◌≡◌, ℕ, List, MatchOption};
ghost use Rattle.huge_papx.specs.Data.{data_of as bytes_of_data, IsPrcAt};

use cfb_streams::{Streams, equal_names};
use doc_bits::get16;
use piece_table::MAX_GRPPRL;

/// [MS-DOC] Data.
pub const DATA: [u16; 4] = [68, 97, 116, 97];

/// [MS-DOC] PrcData: so many bytes are before the list.
const PRC_START: usize = 2;

/// The bytes of the stream Data of a document, or none.
pub(crate) fn data_of(streams: &Streams) -> &[u8]
    ensures { result.now ≡ bytes_of_data streams.now }
{
    for i in 0..streams.count() {
        if equal_names(streams.name(i), &DATA) {
            return streams.bytes(i);
        }
    }
    &[]
}

/// The list of the PrcData at a place, where it is whole.
pub(crate) fn prc_list(stream: &[u8], at: usize) -> Option<&[u8]>
    ensures { MatchOption result
        ((list : List ℕ) → ¬ IsPrcAt stream.now at list)
        (λ list. IsPrcAt stream.now at list.now) }
{
    if stream.len() < PRC_START || stream.len() - PRC_START < at {
        return None;
    }
    let len = get16(stream, at) as usize;
    let from = at + PRC_START;
    if len < PRC_START || MAX_GRPPRL < len || stream.len() - from < len {
        return None;
    }
    Some(&stream[from..from + len])
}
