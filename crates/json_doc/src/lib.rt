//! A document as JSON: the value that it is, its text, and how it is read back.
#![tactic(auto)]

mod carried_parts;
mod carried_reading;
mod documents;
mod fault;
mod laws;
mod leaves;
mod piece_reading;
mod pieces;
mod reading;
mod style_reading;
mod styles;

pub use documents::{json_out, json_out_of_columns, to_json};
pub use fault::JsonFault;
pub use laws::{json_forms_are_one, json_is_shallow, json_texts_are_read, texts_are_read_back};
pub use pieces::Piece;
pub use reading::{from_json, from_json_of_columns};
