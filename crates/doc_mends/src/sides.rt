// The notes and the header texts by their names.
ghost use Rattle.std.specs.Prelude.{◌≡◌, ◌^◌, ◌<◌};
ghost use Rattle.doc_mends.specs.Sides.{side_name as name_of};

use doc_bits::Story;
use plain_doc::Side;

/// A note or a header text by its number.
pub fn side_name(side: Side, number: usize) -> Story
    requires { number < 2 ^ 32 }
    ensures { result ≡ name_of side number }
{
    match side {
        Side::Notes => Story::Note(number as u32),
        Side::Heads => Story::Head(number as u32),
    }
}
