//! The texts that show a document: its styles and texts, how much it has, and what is in effect at an item.
#![tactic(auto)]

mod bookmark_lines;
mod counts;
mod laws;
mod plain_text;
mod properties;
mod settings;
mod shown_maps;
mod story;
mod styles;
mod texts;

pub use counts::{accepted_line, accepted_line_of_columns};
pub use laws::property_lines_are_one;
pub use plain_text::{main_text, main_text_of_columns};
pub use properties::{props_lines, props_lines_of_columns};
pub use texts::{listing, listing_of_columns};
