//! How characters look by their effective properties: bold, hidden, raised and so on, found without memory; and the
//! pictures that they name.
#![tactic(auto)]

mod change;
mod flag;
mod format;
mod laws;
mod location;
mod style_changes;
mod style_formats;

pub use format::{CharFormat, Position, Symbol};
pub use laws::{char_format_is_one, char_format_is_there};
pub use location::location_in;
pub use style_formats::StyleFormats;
