//! The summary fields of a property set: title, subject and author, and the set with another title.
#![tactic(auto)]

mod fault;
mod form;
mod laws;
mod reading;
mod retitle;
mod set;
mod summary;
mod texts;
mod values;
mod written;

pub use fault::SetFault;
pub use form::LITTLE_ENDIAN;
pub use laws::{properties_are_kept, retitled_twice_is_once, written_set_is_read_back};
pub use reading::{code_page, fields};
pub use retitle::{is_title, with_title};
pub use summary::Fields;
