//! Paths of the elements that something is in, and what is opened and closed between neighbours.
#![tactic(auto)]

mod element;
mod laws;
mod path;

pub use element::Element;
pub use laws::{glyphs_stay, paths_nest};
pub use path::{MAX_DEPTH, Path};
