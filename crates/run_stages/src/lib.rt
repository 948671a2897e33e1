//! The stages of a run that read: a name is read whole, or the run ends.
#![tactic(auto)]

mod ending;
mod lines;
mod reasons;
mod stage;
mod status;
mod taking;

pub use ending::{Ending, FilePut};
pub use lines::{missing_line, part_name, rule_line, shelf_fault_line};
pub use reasons::{
    reason_of_name, reason_of_rule, tell_reason, tell_status, why_refused, why_rule, why_start,
    why_status,
};
pub use stage::Stage;
pub use status::{
    STATUS_DONE, STATUS_MEMORY, STATUS_MISSING, STATUS_REFUSED, STATUS_SHELF_FAULT,
    STATUS_SINK_FAULT, STATUS_USAGE,
};
pub use taking::{rule_broken, take_file, take_whole};
