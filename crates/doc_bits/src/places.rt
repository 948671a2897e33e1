ghost use Rattle.std.specs.Prelude.{◌≡◌};
ghost use Rattle.doc_bits.specs.Rules.{lesser_of};

/// What an offset counts in: the bytes of the file, of `WordDocument` or of the table stream, the
/// styles of the sheet, or the items of a text. The order of places is the order written here.
#[derive(Clone, Copy, Debug, PartialEq, Eq)]
pub enum Where {
    File,
    Wd,
    Table,
    Sheet,
    Main,
    Note(u32),
    Head(u32),
}

/// A text of a document: the main text, a note or a header text, by its number.
#[derive(Clone, Copy)]
pub enum Story {
    Main,
    Note(u32),
    Head(u32),
}

/// The lesser of two offsets, where they are there.
pub fn lesser(a: Option<u32>, b: Option<u32>) -> Option<u32>
    ensures { result ≡ lesser_of a b }
{
    match a {
        None => b,
        Some(first) => match b {
            None => Some(first),
            Some(second) => Some(first.min(second)),
        },
    }
}
