// The files of pictures, by the places that characters name.
ghost use Rattle.std.specs.Prelude.{◌≡◌};
ghost use Rattle.doc_pictures.specs.Files.{picture_name_at, name_from};
ghost use Rattle.doc_pictures.specs.Order.{ArePlacesAscending, IsCountBefore};

use crate::names::PictureName;
use crate::pictures::{Picture, Pictures};

/// The files of pictures that a page names: their folder, and the pictures.
#[derive(Clone, Copy)]
pub struct Images<'a> {
    pub folder: &'a str,
    pub pictures: &'a Pictures,
}

/// The name of the file of the picture at a place. The pictures are halved until it is found.
pub fn name_at(pictures: &Pictures, place: Option<u32>) -> Option<PictureName>
    ensures { result ≡ picture_name_at pictures.now place }
{
    match place {
        None => None,
        Some(place) => name_in(pictures.as_slice(), place),
    }
}

/// The name of the file of the one of these pictures, in their order, that is at a place.
fn name_in(pictures: &[Picture], place: u32) -> Option<PictureName>
    requires { ArePlacesAscending pictures.now }
    ensures { result ≡ name_from 1 pictures.now place }
{
    let at = count_before(pictures, place);
    if at == pictures.len() {
        return None;
    }
    let picture = pictures[at];
    if picture.place != place {
        return None;
    }
    Some(PictureName {
        number: at + 1,
        kind: picture.file.kind,
    })
}

/// How many of the pictures are at lesser places.
fn count_before(pictures: &[Picture], place: u32) -> usize
    requires { ArePlacesAscending pictures.now }
    ensures { IsCountBefore pictures.now place result }
{
    let mut low = 0;
    let mut high = pictures.len();
    while low < high {
        let middle = low + (high - low) / 2;
        if pictures[middle].place < place {
            low = middle + 1;
        } else {
            high = middle;
        }
    }
    low
}
