// [MS-DOC] PICFAndOfficeArtData: the header of a picture, and the drawing behind it.
ghost use Rattle.std.specs.Prelude.{◌≡◌, ◌≤◌, length, MatchOption};
ghost use Rattle.inline_pictures.specs.Picf.{IsPicfAt, picf_end, art_at};

use doc_bits::{get16, get32};

/// The bytes of a PICF, as cbHeader has them.
const PICF_LEN: u16 = 68;

/// The fewest bytes of a PICF and what is behind it.
const MIN_LEN: usize = PICF_LEN as usize + 1;

/// mfpf.mm of a shape.
const MM_SHAPE: u16 = 0x64;

/// mfpf.mm of a shape with the name of a file.
const MM_SHAPEFILE: u16 = 0x66;

/// Where the PICF and its drawing at a place end.
pub(crate) fn picf_end(stream: &[u8], at: usize) -> Option<usize>
    ensures { MatchOption result
        (¬ (IsPicfAt stream.now at))
        (λ end. IsPicfAt stream.now at × (end ≡ picf_end stream.now at)) }
{
    if at > stream.len() || stream.len() - at < MIN_LEN {
        return None;
    }
    let len = get32(stream, at) as usize;
    if len < MIN_LEN || len > stream.len() - at {
        return None;
    }
    let mode = get16(stream, at + 6);
    if get16(stream, at + 4) != PICF_LEN || mode != MM_SHAPE && mode != MM_SHAPEFILE {
        return None;
    }
    Some(at + len)
}

/// Where the drawing begins: behind the name, where there is one.
pub(crate) fn art_at(stream: &[u8], at: usize) -> usize
    requires { IsPicfAt stream.now at }
    ensures { result ≡ art_at stream.now at }
{
    let behind = at + PICF_LEN as usize;
    if get16(stream, at + 6) == MM_SHAPEFILE {
        behind + 1 + stream[behind] as usize
    } else {
        behind
    }
}
