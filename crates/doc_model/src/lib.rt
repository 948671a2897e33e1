//! The plain document: texts of items, a style sheet, and what is carried along unread.
#![tactic(auto)]

mod carried;
mod document;
mod formed;
mod item;
mod items;
mod other_bytes;
mod paragraphs;
mod ranges;
mod texts;

pub use carried::Carried;
pub use document::{AllTexts, Document, OtherParts, equal};
pub use formed::{blank_is_formed, documents_are_formed};
pub use item::{
    Item, Mark, NoteKind, copy_mark, copy_section, has_same_properties, same_mark, same_section,
};
pub use items::Items;
pub use paragraphs::paragraph_end;
pub use ranges::{has_field_byte, has_style_number, is_byte, is_word};
pub use texts::Texts;
