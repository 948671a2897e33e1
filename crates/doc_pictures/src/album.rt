// Picture files in a folder.
ghost use Rattle.std.specs.Prelude.{◌≡◌, ◌<◌, ◌+◌, ◌^◌, ℕ, List, length, slice_get, Some, OnOk, OnErr, IsErrOf};
ghost use Rattle.doc_outer.specs.Counts.{CountGoesOn, Rose};
ghost use Rattle.doc_outer.specs.Held.{OthersStay, StaysAt, held_with};
ghost use Rattle.doc_pictures.specs.Album.{AreWithinStream, IsCutShort, IsHeld, IsPicturePath, IsPathTaken};
ghost use Rattle.doc_pictures.specs.Album.{IsWithinStream};
ghost use Rattle.doc_pictures.specs.Album.{IsWritten, MayWrite, WritesPictures, file_bytes};
ghost use Rattle.doc_pictures.specs.Names.{picture_path as path_of};

use crate::names::picture_path;
use crate::pictures::Picture;
use doc_bits::Memory;
use doc_outer::{PutFault, Shelf, ShelfFault};
use std::alloc::Global;
use thiserror::Error;

/// A folder for picture files, and whether files that are there are written over.
#[derive(Clone, Copy)]
pub struct Album<'a> {
    pub folder: &'a str,
    pub force: bool,
}

/// Why a picture file is not written.
#[derive(Clone, Copy, Debug, Error)]
pub enum AlbumFault {
    #[error("a file of this name is there")]
    There,
    #[error("the file system failed")]
    Failed,
    #[error("out of memory")]
    Memory,
}

impl From<Memory> for AlbumFault {
    ghost use Rattle.doc_pictures.specs.declared.album.AlbumFault.TheVariants.{Memory};

    ghost from_gives = { λ _ e. e ≡ Memory };

    fn from(_: Memory) -> Self {
        AlbumFault::Memory
    }
}

/// Writes the files of pictures into a folder, numbered from 1, up to the first one that is not written.
pub fn write_pictures<S: Shelf>(
    alloc: Global,
    shelf: &mut S,
    album: &Album<'_>,
    stream: &[u8],
    pictures: &[Picture],
) -> Result<(), AlbumFault>
    requires { AreWithinStream stream.now pictures.now }
    ensures written { OnOk result
        (WritesPictures album.now.force album.now.folder.now stream.now 1 pictures.now (S.held shelf.old) (S.held
        shelf.new)) }

    // Where one is not written those before it stay.
    ensures cut { OnErr result
        (IsCutShort album.now.force album.now.folder.now stream.now pictures.now
        (S.held shelf.old) (S.held shelf.new)) }

    // All other names hold what they held.
    ensures others { (name : List ℕ) → ¬ (IsPicturePath album.now.folder.now pictures.now name)
        → StaysAt name (S.held shelf.old) (S.held shelf.new) }

    // Each fault has its cause: a name of a picture held a file before, or the file system failed.
    ensures there { IsErrOf result AlbumFault.There
        → IsPathTaken album.now.force album.now.folder.now pictures.now (S.held shelf.old) }
    ensures failed { IsErrOf result AlbumFault.Failed → Rose (S.faults shelf.old) (S.faults shelf.new) }

    // Counts never fall.
    ensures faults { CountGoesOn (S.faults shelf.old) (S.faults shelf.new) }
    ensures missed { CountGoesOn (S.missed shelf.old) (S.missed shelf.new) }
{
    for k in 0..pictures.len() {
        let picture = nth(pictures, k);
        match write_picture(alloc, shelf, album, stream, k + 1, picture) {
            Ok(()) => {}
            Err(fault) => return Err(fault),
        }
    }
    Ok(())
}

/// The picture at a place of a list.
fn nth(pictures: &[Picture], k: usize) -> Picture
    requires { k < length pictures.now }
    ensures { slice_get pictures.now k ≡ Some result }
{
    pictures[k]
}

/// Writes the file of the picture with this number.
fn write_picture<S: Shelf>(
    alloc: Global,
    shelf: &mut S,
    album: &Album<'_>,
    stream: &[u8],
    number: usize,
    picture: Picture,
) -> Result<(), AlbumFault>
    requires { IsWithinStream stream.now picture }
    ensures written { OnOk result (IsWritten album.now.force (path_of album.now.folder.now number picture.file.kind)
        (file_bytes stream.now picture) (S.held shelf.old) (S.held shelf.new)) }
    ensures others { OthersStay (path_of album.now.folder.now number picture.file.kind)
        (S.held shelf.old) (S.held shelf.new) }
    ensures there { IsErrOf result AlbumFault.There → IsHeld album.now.force
        (path_of album.now.folder.now number picture.file.kind) (S.held shelf.old) }
    ensures failed { IsErrOf result AlbumFault.Failed → Rose (S.faults shelf.old) (S.faults shelf.new) }
    ensures faults { CountGoesOn (S.faults shelf.old) (S.faults shelf.new) }
    ensures missed { CountGoesOn (S.missed shelf.old) (S.missed shelf.new) }
{
    let bytes = &stream[picture.file.from..picture.file.to];
    match picture_path(alloc, album.folder, number, picture.file.kind) {
        Ok(path) => write_file(shelf, path.as_str(), album.force, bytes),
        Err(_) => Err(AlbumFault::Memory),
    }
}

/// Lets a name hold exactly these bytes, where that may be.
fn write_file<S: Shelf>(
    shelf: &mut S,
    path: &str,
    force: bool,
    bytes: &[u8],
) -> Result<(), AlbumFault>
    ensures written { OnOk result (IsWritten force path.now bytes.now (S.held shelf.old) (S.held shelf.new)) }
    ensures others { OthersStay path.now (S.held shelf.old) (S.held shelf.new) }
    ensures there { IsErrOf result AlbumFault.There → IsHeld force path.now (S.held shelf.old) }
    ensures failed { IsErrOf result AlbumFault.Failed → Rose (S.faults shelf.old) (S.faults shelf.new) }
    ensures faults { CountGoesOn (S.faults shelf.old) (S.faults shelf.new) }
    ensures missed { CountGoesOn (S.missed shelf.old) (S.missed shelf.new) }
{
    match find_free(shelf, path, force) {
        Ok(()) => put_file(shelf, path, bytes),
        Err(fault) => Err(fault),
    }
}

/// Lets a name hold exactly these bytes.
fn put_file<S: Shelf>(shelf: &mut S, path: &str, bytes: &[u8]) -> Result<(), AlbumFault>
    ensures written { OnOk result (S.held shelf.new ≡ held_with (S.held shelf.old) path.now bytes.now) }
    ensures others { OthersStay path.now (S.held shelf.old) (S.held shelf.new) }
    ensures there { IsErrOf result AlbumFault.There → ⊥ }
    ensures failed { IsErrOf result AlbumFault.Failed → Rose (S.faults shelf.old) (S.faults shelf.new) }
    ensures faults { CountGoesOn (S.faults shelf.old) (S.faults shelf.new) }
    ensures missed { CountGoesOn (S.missed shelf.old) (S.missed shelf.new) }
{
    match shelf.put(path, bytes) {
        Ok(()) => Ok(()),
        Err(PutFault::Failed) => Err(AlbumFault::Failed),
        Err(PutFault::Memory) => Err(AlbumFault::Memory),
    }
}

/// Looks whether a name may be written: it is not there, or files are written over.
fn find_free<S: Shelf>(shelf: &mut S, path: &str, force: bool) -> Result<(), AlbumFault>
    ensures kept { S.held shelf.new ≡ S.held shelf.old }
    ensures free { OnOk result (MayWrite force path.now (S.held shelf.old)) }
    ensures there { IsErrOf result AlbumFault.There → IsHeld force path.now (S.held shelf.old) }
    ensures failed { IsErrOf result AlbumFault.Failed → Rose (S.faults shelf.old) (S.faults shelf.new) }
    ensures faults { CountGoesOn (S.faults shelf.old) (S.faults shelf.new) }
    ensures missed { CountGoesOn (S.missed shelf.old) (S.missed shelf.new) }
{
    if force {
        return Ok(());
    }
    let mut first = [0u8; 1];
    match shelf.read_at(path, 0, &mut first) {
        Err(ShelfFault::Missing) => Ok(()),
        Ok(_) => Err(AlbumFault::There),
        Err(ShelfFault::Failed) => Err(AlbumFault::Failed),
        Err(ShelfFault::Memory) => Err(AlbumFault::Memory),
    }
}
