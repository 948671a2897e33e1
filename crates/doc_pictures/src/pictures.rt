// The pictures of a document, in the order in which they are in the stream `Data`.
ghost use Rattle.std.specs.Prelude.{◌≡◌, [], MatchOption, IfOk, OnOk};
ghost use Rattle.std.specs.List.Sorted.{IsNonDecreasing};
ghost use Rattle.inline_pictures.specs.declared.picture.PictureFile.{PictureFile as AFile};
ghost use Rattle.doc_pictures.specs.Pictures.{ArePictures, HasFile};
ghost use Rattle.doc_pictures.specs.Steps.{IsPictureStep};
ghost use Rattle.doc_pictures.specs.Places.{picture_places};
ghost use Rattle.doc_pictures.specs.Order.{ArePlacesAscending};

use crate::names::is_whole;
use crate::places::places_of;
use doc_bits::Memory;
use doc_columns::ColumnDocument;
use inline_pictures::{PictureFile, picture_at};
use std::alloc::Global;
use std::marker::Model;

/// A picture: its place, an offset in the stream `Data`, and its file there.
#[derive(Clone, Copy)]
pub struct Picture {
    pub place: u32,
    pub file: PictureFile,
}

/// The pictures of a document, in the order in which they are in the stream.
#[derive(Drop)]
pub struct Pictures {
    list: Vec<Picture>,
}

impl Model for Pictures {
    ghost use Rattle.std.specs.Prelude.{List};
    ghost use Rattle.std.specs.Coded.{coded_list};
    ghost use Rattle.doc_pictures.specs.declared.pictures.Picture.{Picture};
    ghost use Rattle.doc_pictures.specs.contracts.pictures.Picture as row;
    ghost use Rattle.doc_pictures.specs.Order.{ArePlacesAscending};

    ghost Value = { List Picture };

    ghost coded = { coded_list row.the_row.coded };

    ghost view = { λ p. p.list.items };

    ghost invariant = { λ p. ArePlacesAscending p.list.items };
}

impl Pictures {
    /// None.
    pub fn none(alloc: Global) -> Pictures
        ensures { result ≡ [] }
    {
        Pictures::of(Vec::new(alloc))
    }

    /// Those of a list, in their order.
    fn of(list: Vec<Picture>) -> Pictures
        requires { ArePlacesAscending list.items }
        ensures { result ≡ list.items }
    {
        Pictures { list }
    }

    pub fn as_slice(&self) -> &[Picture]
        ensures is { result.now ≡ self.now }
        ensures order { ArePlacesAscending result.now }
    {
        &self.list
    }
}

/// The pictures of a document whose stream `Data` has these bytes. They are one behind the other in the stream, so
/// their files are together no longer than it. It is linear in the units and in the places that they name, but for
/// putting these in order.
pub fn pictures_of(
    alloc: Global,
    document: &ColumnDocument,
    stream: &[u8],
) -> Result<Pictures, Memory>
    ensures { IfOk result (λ pictures. ArePictures stream.now (picture_places document.now) pictures) }
{
    let mut places = places_of(alloc, document)?;
    places.sort_unstable();
    let list = pictures_at(alloc, stream, &places)?;
    Ok(Pictures::of(list))
}

/// The pictures at places in their order.
fn pictures_at(alloc: Global, stream: &[u8], places: &[u32]) -> Result<Vec<Picture>, Memory>
    requires { IsNonDecreasing places.now }
    ensures { IfOk result (λ pictures. ArePictures stream.now places.now pictures.items) }
{
    let mut pictures = Vec::new(alloc);
    let mut end = 0;
    for i in 0..places.len() {
        let behind = push_picture(&mut pictures, stream, places[i], end)?;
        end = behind;
    }
    Ok(pictures)
}

/// Puts the picture of a place last, where it is behind the end of the one before it, and answers where the last one
/// ends.
fn push_picture(
    pictures: &mut Vec<Picture>,
    stream: &[u8],
    place: u32,
    end: usize,
) -> Result<usize, Memory>
    ensures { IfOk result (λ behind. IsPictureStep stream.now place end behind pictures.old.items pictures.new.items) }
{
    if (place as usize) < end {
        return Ok(end);
    }
    let Some(file) = file_at(stream, place) else {
        return Ok(end);
    };
    pictures.push(Picture { place, file })?;
    Ok(file.to)
}

/// The file of the picture at a place.
fn file_at(stream: &[u8], place: u32) -> Option<PictureFile>
    ensures { MatchOption result ((file : AFile) → ¬ (HasFile stream.now place file)) (HasFile stream.now place) }
{
    match picture_at(stream, place) {
        None => None,
        Some(file) => {
            if is_whole(file.kind) {
                Some(file)
            } else {
                None
            }
        }
    }
}
