// The style numbers of two sheets, one behind the other.

/// How the style numbers of a document go on in a joined one.
#[derive(Clone, Copy)]
pub(crate) struct Renumbering {
    /// How many slots are before those of the document.
    pub(crate) before: u16,
    /// How many slots the document has.
    pub(crate) slots: u16,
}
