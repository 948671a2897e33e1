//! The properties that the summary streams of a file hold, as lines of text or as JSON.
#![tactic(auto)]

mod coded;
mod dates;
mod keys;
mod page;
mod printable;
mod sections;
mod streams;
mod tables;
mod values;

pub use page::PropertyForm;
pub use streams::{SummaryStreams, property_page};
