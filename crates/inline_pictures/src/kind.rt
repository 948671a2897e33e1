// [MS-ODRAW] OfficeArtBlip: the kinds of pictures, by the types of their records.
ghost use Rattle.std.specs.Prelude.{◌≡◌, IsTrue, ◌↔◌, option_map, true};
ghost use Rattle.inline_pictures.specs.Kinds.{picture_kind, is_metafile};

/// OfficeArtBlipEMF.
const EMF: u16 = 0xF01A;

/// OfficeArtBlipWMF.
const WMF: u16 = 0xF01B;

/// OfficeArtBlipJPEG.
const JPEG: u16 = 0xF01D;

/// OfficeArtBlipPNG.
const PNG: u16 = 0xF01E;

/// OfficeArtBlipTIFF.
const TIFF: u16 = 0xF029;

/// OfficeArtBlipJPEG, by its other type.
const OTHER_JPEG: u16 = 0xF02A;

/// The compression of a metafile that is as it is.
const NOT_COMPRESSED: u8 = 0xFE;

/// The kind of a picture. The bytes of a compressed metafile are no file by themselves.
#[derive(Clone, Copy, PartialEq, Eq)]
pub enum PictureKind {
    Png,
    Jpeg,
    Tiff,
    Emf,
    Wmf,
    CompressedEmf,
    CompressedWmf,
}

/// Whether a record of this type holds a metafile.
pub(crate) fn is_metafile(record_type: u16) -> bool
    ensures { result ≡ is_metafile record_type }
{
    record_type == EMF || record_type == WMF
}

/// The kind of the picture in a record of this type, and with this byte as the compression of a metafile.
pub(crate) fn picture_kind(record_type: u16, compression: u8) -> Option<PictureKind>
    ensures { result ≡ picture_kind record_type compression }
{
    match record_type {
        PNG => Some(PictureKind::Png),
        JPEG => Some(PictureKind::Jpeg),
        OTHER_JPEG => Some(PictureKind::Jpeg),
        TIFF => Some(PictureKind::Tiff),
        EMF if compression == NOT_COMPRESSED => Some(PictureKind::Emf),
        EMF => Some(PictureKind::CompressedEmf),
        WMF if compression == NOT_COMPRESSED => Some(PictureKind::Wmf),
        WMF => Some(PictureKind::CompressedWmf),
        _ => None,
    }
}
