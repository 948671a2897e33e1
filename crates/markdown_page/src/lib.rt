//! Pages in Markdown, printed of the places of a document.
#![tactic(auto)]

mod context;
mod destinations;
mod laws;
mod marks;
mod pen;
mod pieces;
mod printer;
mod runs;
mod shape;

pub use context::{CellLine, Context, Seam};
pub use laws::{links_are_allowed, pages_are_read_back};
pub use marks::{Mark, TagName};
pub use pen::Pen;
pub use pieces::{Piece, Pieces};
pub use printer::MarkdownPage;
