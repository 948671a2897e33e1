//! The tables inside of cells of tables, by the depths of paragraphs and by which of them end cells and rows.
#![tactic(auto)]

mod depths;
mod laws;
mod tables;
mod walk;

pub use depths::{Depth, Depths};
pub use laws::tables_are_whole;
pub use tables::{NestedPlaces, NestedTables};
pub use walk::NestedPlace;
