//! What the places of a document are made of: the elements that something is in, and what a reader sees there.
#![tactic(auto)]

mod element;
mod glyph;

pub use element::{Cell, Element, Link, List, Paragraph, Span};
pub use glyph::Glyph;
