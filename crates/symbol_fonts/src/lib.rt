//! Symbol fonts: which fonts of a document they are, and the characters that their signs are shown as.
#![tactic(auto)]

mod characters;
mod fonts;
mod laws;

pub use characters::{SymbolFont, is_sign, shown_unit};
pub use fonts::SymbolFonts;
pub use laws::{signs_are_characters, units_are_shown};
