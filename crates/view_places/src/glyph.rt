// What is seen at a place.

/// What a reader sees at one place of a document.
#[derive(Clone, Copy, PartialEq, Eq)]
pub enum Glyph {
    /// A unit of UTF-16. Two that are the halves of a character, one behind the other, are that character.
    Unit(u16),
    Tab,
    LineBreak,
    PageBreak,
    /// The number of a note, where it is referred to.
    NoteMark(u32),
    /// A picture, by the place that its character names: an offset in the stream `Data`.
    Picture(Option<u32>),
    Object,
}
