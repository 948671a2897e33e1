//! The places of a document: what its text is in.
#![tactic(auto)]

mod cells;
mod grid;
mod inline;
mod laws;
mod links;
mod lists;
mod looks;

pub use cells::TableCells;
pub use grid::{Grid, InCell, cell_at, push_block};
pub use inline::{push_inline, push_link};
pub use laws::each_glyph_has_a_place;
pub use links::Origin;
pub use lists::{Frame, ListItem, Lists};
pub use looks::{Look, label_units};
