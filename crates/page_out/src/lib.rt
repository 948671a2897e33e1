//! A page on its way to a sink: characters are put behind one another, and a fault of the sink is told at the end.
#![tactic(auto)]

mod encoding;
mod page;

pub use page::Page;
