//! The marks behind the stories of a text.

/// Whether a mark is behind the notes, and behind the header texts.
#[derive(Clone, Copy)]
pub struct Ends {
    pub notes: bool,
    pub heads: bool,
}
