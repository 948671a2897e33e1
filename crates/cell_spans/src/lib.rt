//! How far the cells of tables reach, by the definitions of their rows.
#![tactic(auto)]

mod columns;
mod definition;
mod rows;
mod spans;
mod tables;

pub use rows::{RowCell, RowCells, Rows};
pub use spans::{Spans, single};
pub use tables::{Blanks, Tables};
