//! Places of a document that edits name, and the changes that edits are, made run by run.
#![tactic(auto)]

mod changes;
mod making;
mod modifiers;
mod modify;
mod places;

pub use changes::{Change, Changes};
pub use making::{make_all, put_text, swap_text};
pub use modifiers::{clearing, naming_style, property_characters, property_paragraphs};
pub use modify::properties_over;
pub use places::{
    chp_at, find_text, has_mark, has_section, head_number, mark_at, mark_place, note_number,
    section_at, section_number, section_place, text_of,
};
