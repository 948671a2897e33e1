//! Scripts of edits: JSON read as commands.
#![tactic(auto)]

mod commands;
mod faults;
mod hex;
mod keys;
mod laws;
mod reading;
mod settings;
mod shapes;
mod stories;
mod texts;
mod values;

pub use commands::{Cells, Command, Script};
pub use faults::{ScriptFault, ShapeError};
pub use keys::{key_count, member};
pub use laws::{properties_are_as_keyed, script_fault_is_one, script_is_one};
pub use reading::read_script;
pub use settings::properties_in;
pub use values::{bool_in, byte_in, bytes_in, position_in, short_in, story_in, units_in};
