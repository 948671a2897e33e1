//! A page in one of its forms: in HTML or in Markdown.
#![tactic(auto)]

mod page;

pub use page::{FormPage, PageForm};
