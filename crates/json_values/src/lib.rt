//! Values of JSON for bytes, units and properties: how they are read and written, and that each text is read back.
#![tactic(auto)]

mod digits;
mod laws;
mod leaves;
mod out;
mod rows;
mod settings;

pub use digits::{hex_units_in, push_word, write_bytes, write_units};
pub use laws::{
    digits_are_one, plain_texts_are_json, plain_values_are_read, properties_are_one,
    read_keys_ascend,
};
pub use leaves::{write_null, write_number};
pub use out::JsonOut;
pub use rows::Row;
pub use settings::{push_comma, write_properties};
