// [MS-ODRAW] OfficeArtInlineSpContainer: a shape, and behind it the blocks with the pictures that it shows.
ghost use Rattle.std.specs.Prelude.{◌≡◌, ◌≤◌, ◌<◌, ◌+◌, length, IfSome, MatchOption};
ghost use Rattle.inline_pictures.specs.Records.{IsRecordAt};
ghost use Rattle.inline_pictures.specs.Blips.{IsBlip, IsFileBlock, file_from};
ghost use Rattle.inline_pictures.specs.InlinePictures.{IsInlinePicture};

use crate::kind::{PictureKind, is_metafile, picture_kind};
use crate::picf::{art_at, picf_end};
use crate::record::{HEADER_LEN, record_end, record_type};
use doc_bits::get16;

/// OfficeArtSpContainer.
const SHAPE: u16 = 0xF004;

/// OfficeArtFBSE.
const FBSE: u16 = 0xF007;

/// The bytes of an OfficeArtFBSE in front of its name, and the place of cbName among them.
const FBSE_LEN: usize = 44;

const NAME_LEN_AT: usize = 41;

/// The bytes of rgbUid1 or rgbUid2.
const UID_LEN: usize = 16;

/// The bytes of an OfficeArtMetafileHeader.
const METAFILE_HEADER_LEN: usize = 34;

/// The bytes of the tag of a bitmap.
const TAG_LEN: usize = 1;

/// The file of a picture: its kind, and the range of its bytes in the stream.
#[derive(Clone, Copy)]
pub struct PictureFile {
    pub kind: PictureKind,
    pub from: usize,
    pub to: usize,
}

/// The file of the picture whose PICF is at an offset of the stream `Data`.
pub fn picture_at(stream: &[u8], offset: u32) -> Option<PictureFile>
    ensures picture { MatchOption result
        ((file : PictureFile) → ¬ (IsInlinePicture stream.now offset file))
        (IsInlinePicture stream.now offset) }
    ensures within { IfSome result (λ file. (file.from < file.to) × (file.to ≤ length stream.now)) }
{
    let at = offset as usize;
    let end = picf_end(stream, at)?;
    let shape = art_at(stream, at);
    let blocks = record_end(stream, shape, end)?;
    if record_type(stream, shape) != SHAPE {
        return None;
    }
    block_file(stream, blocks, end)
}

/// The file of the picture in a block: in the block itself, or in the blip that is embedded in it.
fn block_file(stream: &[u8], at: usize, limit: usize) -> Option<PictureFile>
    requires { limit ≤ length stream.now }
    ensures { MatchOption result
        ((file : PictureFile) → ¬ (IsFileBlock stream.now at limit file))
        (IsFileBlock stream.now at limit) }
{
    let end = record_end(stream, at, limit)?;
    if record_type(stream, at) != FBSE {
        return blip_file(stream, at, limit);
    }
    if end - at < FBSE_LEN {
        return None;
    }
    let name_len = stream[at + NAME_LEN_AT] as usize;
    blip_file(stream, at + FBSE_LEN + name_len, end)
}

/// The file of the picture in a blip.
fn blip_file(stream: &[u8], at: usize, limit: usize) -> Option<PictureFile>
    requires { limit ≤ length stream.now }
    ensures { MatchOption result
        ((file : PictureFile) → ¬ (IsBlip stream.now at limit file))
        (IsBlip stream.now at limit) }
{
    let to = record_end(stream, at, limit)?;
    let from = file_from(stream, at);
    if from >= to {
        return None;
    }
    let kind = picture_kind(record_type(stream, at), stream[from - 2])?;
    Some(PictureFile { kind, from, to })
}

/// Where the file in a blip begins: behind the identifiers, and a tag or the header of a metafile.
fn file_from(stream: &[u8], at: usize) -> usize
    requires { at + HEADER_LEN ≤ length stream.now }
    ensures { result ≡ file_from stream.now at }
{
    let uids = 1 + (get16(stream, at) / 16 % 2) as usize;
    let head = if is_metafile(record_type(stream, at)) {
        METAFILE_HEADER_LEN
    } else {
        TAG_LEN
    };
    at + HEADER_LEN + UID_LEN * uids + head
}
