// What a task comes to.
ghost use Rattle.std.specs.Prelude.{◌≡◌, IfOk, option_map};
ghost use Rattle.document_commands.specs.Replies.{status_of, outcome_of};
ghost use Rattle.document_commands.specs.declared.reply.Reply.TheVariants.{Made};

use crate::status::{
    STATUS_DIFFERENT, STATUS_EDIT, STATUS_GUARD, STATUS_JSON, STATUS_NO_SUMMARY, STATUS_POSITION,
    STATUS_SAVE, STATUS_SCRIPT, STATUS_STYLES, STATUS_UNSOUND, STATUS_WRONG_SUMMARY,
};
use doc_bits::{Bytes, Memory, Text};
use run_stages::{Ending, FilePut, STATUS_DONE};
use std::alloc::Global;

/// Why a task is refused.
#[derive(Clone, Copy)]
pub enum Refusal {
    /// Bytes are no script.
    Script,
    /// Bytes are no document as JSON.
    Json,
    /// The main text has no such position.
    Position,
    /// An edit is refused.
    Edit,
    /// Two documents have too many styles for one.
    Styles,
    /// A document that was made breaks a rule.
    Unsound,
    /// A save needs more than a file has.
    Save,
    /// A guard does not allow an edit.
    Guarded,
    /// Two documents differ.
    Different,
    /// A document has no summary.
    NoSummary,
    /// The summary of a document is no property set.
    WrongSummary,
}

impl Refusal {
    /// The status of a run that ends so.
    pub fn status(self) -> u8
        ensures { result ≡ status_of self }
    {
        match self {
            Refusal::Script => STATUS_SCRIPT,
            Refusal::Json => STATUS_JSON,
            Refusal::Position => STATUS_POSITION,
            Refusal::Edit => STATUS_EDIT,
            Refusal::Styles => STATUS_STYLES,
            Refusal::Unsound => STATUS_UNSOUND,
            Refusal::Save => STATUS_SAVE,
            Refusal::Guarded => STATUS_GUARD,
            Refusal::Different => STATUS_DIFFERENT,
            Refusal::NoSummary => STATUS_NO_SUMMARY,
            Refusal::WrongSummary => STATUS_WRONG_SUMMARY,
        }
    }
}

/// What a task comes to. It names no file to put under: that is the task's.
#[derive(Drop)]
pub enum Reply {
    /// It is done: this is printed.
    Done(Text),
    /// Bytes were made: they are put, and then the text is printed.
    Made { text: Text, bytes: Bytes },
    /// It is refused: this is printed.
    Refused { why: Refusal, text: Text },
}

impl Reply {
    /// The ending of a run by it, where bytes are put under this name.
    pub fn into_ending(self, alloc: Global, out: Option<&str>) -> Result<Ending, Memory>
        ensures { IfOk result (λ e. e ≡ outcome_of (option_map (λ name. name.now) out.entry) self) }
    {
        match self {
            Reply::Done(text) => Ok(Ending::new(STATUS_DONE, text)),
            Reply::Made { text, bytes } => ending_of_bytes(alloc, out, text, bytes),
            Reply::Refused { why, text } => Ok(Ending::new(why.status(), text)),
        }
    }
}

/// The ending of bytes that were made.
fn ending_of_bytes(
    alloc: Global,
    out: Option<&str>,
    text: Text,
    bytes: Bytes,
) -> Result<Ending, Memory>
    ensures { IfOk result (λ e. e ≡ outcome_of (option_map (λ name. name.now) out.entry) (Made text bytes)) }
{
    let Some(out) = out else {
        return Ok(Ending::new(STATUS_DONE, text));
    };
    let mut name = Text::new(alloc);
    name.push_all(out)?;
    Ok(Ending::with_file(text, FilePut { name, bytes }))
}
