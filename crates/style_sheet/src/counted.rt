// [MS-DOC] LPStd and LPUpx: a 16-bit count and that many bytes, each at an even offset.
ghost use Rattle.std.specs.Prelude.{◌≡◌, ◌<◌, ◌≤◌, ◌+◌, ◌^◌, length, MatchOption};
ghost use Rattle.doc_bits.specs.Number.{u16_at};
ghost use Rattle.style_sheet.specs.Counted.{even_up, counted_end, counted_bytes, IsCountedPart};

use doc_bits::get16;

/// The least even offset from one on.
pub(crate) fn even_up(offset: usize) -> usize
    requires { offset < 2 ^ 63 }
    ensures { result ≡ even_up offset }
{
    offset + offset % 2
}

/// Where the bytes end whose count is at a place, where they are there.
pub(crate) fn counted_end(bytes: &[u8], at: usize) -> Option<usize>
    ensures { MatchOption result
        (length bytes.now < counted_end bytes.now at)
        (λ end. (end ≡ counted_end bytes.now at) × (end ≤ length bytes.now)) }
{
    if bytes.len() < at || bytes.len() - at < 2 {
        return None;
    }
    let end = at + 2 + get16(bytes, at) as usize;
    if bytes.len() < end {
        return None;
    }
    Some(end)
}

/// The bytes whose count is at a place.
pub(crate) fn counted_bytes(bytes: &[u8], at: usize) -> &[u8]
    requires { IsCountedPart bytes.now at }
    ensures bytes { result.now ≡ counted_bytes bytes.now at }
    ensures len { length result.now ≡ u16_at bytes.now at }
    ensures short { length result.now < 65536 }
{
    &bytes[at + 2..at + 2 + get16(bytes, at) as usize]
}

/// Where the next count is.
pub fn next_place(bytes: &[u8], at: usize) -> usize
    requires { IsCountedPart bytes.now at }
    ensures next { result ≡ even_up (counted_end bytes.now at) }
    ensures bound { result ≤ length bytes.now + 1 }
{
    even_up(at + 2 + get16(bytes, at) as usize)
}
