// Pictures of the stream `Data`: the bytes were worked out by hand from [MS-DOC] PICFAndOfficeArtData and [MS-ODRAW].
use inline_pictures::{PictureFile, PictureKind, picture_at};
use std::test::Fail;

/// The bytes of the stream of a row.
const LEN: usize = 160;

/// Where its PICF is.
const OFFSET: u32 = 4;

/// A PNG of 4 bytes at 149: in a blip at 124, embedded in an OfficeArtFBSE at 80, behind a shape at 72.
const PNG: [(usize, u16); 9] = [
    (4, 149),
    (8, 68),
    (10, 0x64),
    (74, 0xF004),
    (82, 0xF007),
    (84, 65),
    (124, 0x6E00),
    (126, 0xF01E),
    (128, 21),
];

/// A JPEG of 3 bytes at 123: in a blip with two identifiers at 82, behind a name of one byte and a shape at 74.
const JPEG: [(usize, u16); 8] = [
    (4, 122),
    (8, 68),
    (10, 0x66),
    (72, 1),
    (76, 0xF004),
    (82, 0x46B0),
    (84, 0xF02A),
    (86, 36),
];

/// An EMF of 2 bytes at 138: in a blip at 80, behind a shape at 72. Its compression is at 136.
const EMF: [(usize, u16); 8] = [
    (4, 136),
    (8, 68),
    (10, 0x64),
    (74, 0xF004),
    (80, 0x3D40),
    (82, 0xF01A),
    (84, 52),
    (136, 0xFEFE),
];

/// The stream with these words, each at its place.
fn stream(words: &[(usize, u16)]) -> [u8; LEN] {
    let mut bytes = [0u8; LEN];
    for (at, word) in words {
        if *at < LEN - 1 {
            bytes[*at] = (*word % 256) as u8;
            bytes[*at + 1] = (*word / 256) as u8;
        }
    }
    bytes
}

/// Whether a file of this kind is found in this range.
fn is_found(found: Option<PictureFile>, kind: PictureKind, from: usize, to: usize) -> bool {
    match found {
        Some(file) => file.kind == kind && file.from == from && file.to == to,
        None => false,
    }
}

/// Whether each picture is found.
fn are_found() -> bool {
    is_found(
        picture_at(&stream(&PNG), OFFSET),
        PictureKind::Png,
        149,
        153,
    ) && is_found(
        picture_at(&stream(&JPEG), OFFSET),
        PictureKind::Jpeg,
        123,
        126,
    ) && is_found(
        picture_at(&stream(&EMF), OFFSET),
        PictureKind::Emf,
        138,
        140,
    )
}

/// Whether nothing is found in a stream that is cut off.
fn is_missed_in_front(bytes: &[u8], len: usize) -> bool {
    len <= bytes.len() && picture_at(&bytes[..len], OFFSET).is_none()
}

/// Whether nothing is found in a stream that is cut off, at another offset and behind the end.
fn is_missed() -> bool {
    let bytes = stream(&PNG);
    is_missed_in_front(&bytes, 152)
        && picture_at(&bytes, OFFSET + 1).is_none()
        && picture_at(&bytes, 0xFFFF_FFFF).is_none()
}

#[test]
fn pictures_are_found(rt: HostRuntime) -> Result<(), Fail> {
    assert!(rt; are_found());
    assert!(rt; is_missed());
    Ok(())
}
