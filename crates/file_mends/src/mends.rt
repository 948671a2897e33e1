// What of a file is changed, by name.

/// A change of the bytes of a file that is named.
#[derive(Clone, Copy)]
pub enum FileMend {
    /// So many zeros are behind the file: its last sector was cut.
    LastSectorFilled(usize),
    /// The part of this pair is empty, and with it those that are nothing without it.
    PartEmptied(usize),
    /// The slot of this style is empty.
    StyleEmptied(usize),
    /// This style and all behind it are gone.
    StylesCut(usize),
    /// So many changes of tab stops that delete none have the code that docbin reads.
    StopsRead(usize),
}
