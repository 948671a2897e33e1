//! Pages of documents: a document's text as people read it.
#![tactic(auto)]

mod glyph;
mod headers;
mod labels;
mod laws;
mod line;
mod notes;
mod paragraph;
mod reading;
mod references;
mod standing;
mod text;
mod view;

pub use labels::label_glyph;
pub use laws::{each_item_is_shown_once, no_controls, pages_are_one, pages_are_short};
pub use reading::{Front, Manner, Seen, TextKind, see};
pub use references::{Reference, References};
pub use standing::{Standing, is_row_mark, style_of};
pub use text::{Bounds, Course, Stretch, Text};
pub use view::{Options, ViewFault, fonts_of, write_page};
