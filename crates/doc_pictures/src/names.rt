// The names of picture files.
ghost use Rattle.std.specs.Prelude.{◌≡◌, IfOk};
ghost use Rattle.std.specs.Str.{IsAscii};
ghost use Rattle.doc_pictures.specs.Names.{is_whole_file, picture_path, suffix_of};

use doc_bits::{Memory, Text};
use inline_pictures::PictureKind;
use std::alloc::Global;

/// The name of the file of a picture: its number, from 1, and its kind.
#[derive(Clone, Copy)]
pub struct PictureName {
    pub number: usize,
    pub kind: PictureKind,
}

/// The path of the picture with this number, from 1, in a folder.
pub fn picture_path(
    alloc: Global,
    folder: &str,
    number: usize,
    kind: PictureKind,
) -> Result<Text, Memory>
    ensures { IfOk result (λ path. path ≡ picture_path folder.now number kind) }
{
    let suffix = suffix_of(kind);
    let path = format!(in alloc; "{folder}/picture-{number}.{suffix}")?;
    Ok(Text::from_string(path))
}

/// What the name of a file of this kind ends with.
pub fn suffix_of(kind: PictureKind) -> &'static str
    ensures is { result.now ≡ suffix_of kind }
    ensures ascii { IsAscii result.now }
{
    match kind {
        PictureKind::Png => "png",
        PictureKind::Jpeg => "jpg",
        PictureKind::Tiff => "tif",
        PictureKind::Emf => "emf",
        PictureKind::Wmf => "wmf",
        PictureKind::CompressedEmf => "emf",
        PictureKind::CompressedWmf => "wmf",
    }
}

/// Whether the bytes of this kind are a file by themselves.
pub(crate) fn is_whole(kind: PictureKind) -> bool
    ensures { result ≡ is_whole_file kind }
{
    match kind {
        PictureKind::Png => true,
        PictureKind::Jpeg => true,
        PictureKind::Tiff => true,
        PictureKind::Emf => true,
        PictureKind::Wmf => true,
        PictureKind::CompressedEmf => false,
        PictureKind::CompressedWmf => false,
    }
}
