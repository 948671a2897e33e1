//! The text of a document that is edited beside its pieces: each change of the document is a splice of its pieces, or a
//! modifier on them.
#![tactic(auto)]

mod added;
mod blocks;
mod gathered;
mod old_pieces;
mod picked;
mod sections;
mod session_laws;
mod session_text;
mod steps;
mod stories;
mod text_changes;
mod writing;

pub use added::Added;
pub use old_pieces::OldPieces;
pub use session_laws::{
    blocks_stand, bookmarks_stay, commands_are_steps, heads_splice, modifiers_act, notes_splice,
    one_section_is_set, one_text_splices, pieces_are_few, properties_are_listed,
    saved_sections_stand, saved_texts_stand, sections_splice, sections_stay, styles_stay,
    text_counted, texts_splice,
};
pub use session_text::SessionText;
