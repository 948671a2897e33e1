// Where a paragraph is.

/// A list and a level in it.
#[derive(Clone, Copy)]
pub(crate) struct ListPlace {
    /// The index of the list.
    pub(crate) list: usize,
    /// The level, below 9.
    pub(crate) level: usize,
}
