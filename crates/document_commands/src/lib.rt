//! What is asked of the documents of a run, and what comes of it: tasks, replies, and the ends of a run.
#![tactic(auto)]

mod answer;
mod equality;
mod export;
mod import;
mod joining;
mod lines;
mod listing;
mod look;
mod reply;
mod retitle;
mod save;
mod status;
mod summary;
mod summary_lines;
mod task;
mod title;

pub use answer::{answer_file, answer_two, list_streams, open_file, refusal};
pub use import::{import_file, overlong_json};
pub use lines::{bytes_line, needs_line, usage_line};
pub use reply::{Refusal, Reply};
pub use status::{
    STATUS_DIFFERENT, STATUS_EDIT, STATUS_GUARD, STATUS_JSON, STATUS_NO_SUMMARY, STATUS_POSITION,
    STATUS_SAVE, STATUS_SCRIPT, STATUS_STYLES, STATUS_UNSOUND, STATUS_WRONG_SUMMARY,
};
pub use task::{Pair, Task};
pub use title::Title;
