// The link that is open at a place of a text.
ghost use Rattle.std.specs.Prelude.{◌≡◌, ◌^◌, ◌<◌};
ghost use Rattle.field_links.specs.OpenFields.{hyperlink_in};
ghost use Rattle.doc_places.specs.Places.{link_between, link_to};

use field_links::OpenFieldPlaces;
use view_places::Link;

/// How many units the instruction of a link may have.
const LONGEST_INSTRUCTION: usize = 2048;

/// Where a paragraph is: the number of its note, from 1, or 0 in the main text, and its first place there.
#[derive(Clone, Copy)]
pub struct Origin {
    pub note: usize,
    pub begin: u32,
}

impl Origin {
    pub fn new(note: usize, begin: usize) -> Origin
        requires { begin < 2 ^ 32 }
        ensures { result ≡ record { note = note; begin = begin } }
    {
        Origin {
            note,
            begin: begin as u32,
        }
    }

    /// The link of these open fields in the paragraph, where the last reference to a note ends at a place.
    pub fn link(self, fields: &OpenFieldPlaces, referred: usize) -> Option<Link>
        ensures { result ≡ link_to self.note referred (hyperlink_in self.begin fields.now) }
    {
        match fields.hyperlink(self.begin) {
            None => None,
            Some(field) => link_between(self.note, referred, field.began, field.result),
        }
    }
}

/// The link of a field that begins at a place, and whose result begins at another one, in front of which the last
/// reference to a note ends.
fn link_between(note: usize, referred: usize, began: u32, shown: Option<u32>) -> Option<Link>
    ensures { result ≡ link_between note referred began shown }
{
    let began = began as usize;
    let Some(shown) = shown else {
        return None;
    };
    let shown = shown as usize;
    if referred <= shown && shown <= began + 2 + LONGEST_INSTRUCTION {
        Some(Link {
            note,
            begin: began + 1,
            end: shown.saturating_sub(1),
        })
    } else {
        None
    }
}
