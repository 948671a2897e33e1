// [MS-ODRAW] OfficeArtRecordHeader: a record within what holds it.
ghost use Rattle.std.specs.Prelude.{◌≡◌, ◌≤◌, ◌+◌, length, MatchOption};
ghost use Rattle.inline_pictures.specs.Records.{record_type, record_end, IsRecordAt};

use doc_bits::{get16, get32};

/// The bytes of a header.
pub(crate) const HEADER_LEN: usize = 8;

/// Where the record at a place ends, if it lies within what ends at the limit.
pub(crate) fn record_end(stream: &[u8], at: usize, limit: usize) -> Option<usize>
    requires { limit ≤ length stream.now }
    ensures { MatchOption result
        (¬ (IsRecordAt stream.now at limit))
        (λ end. IsRecordAt stream.now at limit × (end ≡ record_end stream.now at)) }
{
    if at > limit || limit - at < HEADER_LEN {
        return None;
    }
    let room = limit - at - HEADER_LEN;
    let len = get32(stream, at + 4) as usize;
    if len > room {
        return None;
    }
    Some(at + HEADER_LEN + len)
}

/// The type of a record.
pub(crate) fn record_type(stream: &[u8], at: usize) -> u16
    requires { at + HEADER_LEN ≤ length stream.now }
    ensures { result ≡ record_type stream.now at }
{
    get16(stream, at + 2)
}
