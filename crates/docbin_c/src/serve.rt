// The words of a call are served, and what comes of it is handed over.
ghost use Rattle.std.specs.Prelude.{◌≡◌, ◌≢◌, map, IfOk, MatchResult, Some, ⊤};
ghost use Rattle.std.specs.String.{string_bytes};
ghost use Rattle.doc_run.specs.Endings.{IsEnding};
ghost use Rattle.doc_run.specs.Quota.{program_policies};
ghost use Rattle.docbin_c.specs.Answers.{IsReached, HandsOver, LacksMemory, room};
ghost use Rattle.docbin_c.specs.Calls.{given_files, call_policies};

use crate::answer::DocbinAnswer;
use crate::given::GivenFiles;
use crate::rooms::hand;
use crate::words::words_of;
use doc_bits::Memory;
use doc_run::{QUOTA_UNITS, STATUS_MEMORY, ending_of};
use edit_guards::{Guard, UnitQuota};
use run_stages::Ending;
use std::alloc::Global;

/// How a run over these words and files ends, before anything is put or printed.
pub(crate) fn ending_over(
    alloc: Global,
    texts: &[&str],
    files: GivenFiles,
    is_guarded: bool,
) -> Result<Ending, Memory>
    ensures { IfOk result (λ e.
        IsReached (call_policies is_guarded) (map (λ text. text.now) texts.now) (given_files files) e) }
{
    let words = words_of(alloc, texts)?;
    let mut files = files;
    if is_guarded {
        return ending_under_quota(alloc, &words, &mut files);
    }
    let mut guards: Vec<Box<dyn Guard>> = Vec::new(alloc);
    ending_of(alloc, &words, &mut files, &mut guards)
}

/// How a run over these words and files ends under the program's guard.
fn ending_under_quota(
    alloc: Global,
    words: &[String],
    files: &mut GivenFiles,
) -> Result<Ending, Memory>
    ensures ending { IfOk result
        (IsEnding program_policies (map string_bytes words.now) (Some (given_files files.old))) }
    ensures read { IfOk result (λ e. e.status ≢ 4) }
{
    let mut guards: Vec<Box<dyn Guard>> = Vec::new(alloc);
    let quota = Box::new(alloc, UnitQuota::new(QUOTA_UNITS))?;
    guards.push(quota)?;
    ending_of(alloc, words, files, &mut guards)
}

/// Hands over what a call came to.
pub(crate) fn hand_over(
    ending: Result<Ending, Memory>,
    text: &mut [u8],
    bytes: &mut [u8],
) -> DocbinAnswer
    ensures { MatchResult ending
        (λ e. HandsOver e result (room text.old text.new) (room bytes.old bytes.new))
        (λ _. LacksMemory result (room text.old text.new) (room bytes.old bytes.new)) }
{
    match ending {
        Ok(ending) => hand_ending(&ending, text, bytes),
        Err(Memory) => DocbinAnswer {
            text_len: 0,
            bytes_len: 0,
            status: u32::from(STATUS_MEMORY),
        },
    }
}

/// Hands over an ending.
fn hand_ending(ending: &Ending, text: &mut [u8], bytes: &mut [u8]) -> DocbinAnswer
    ensures { HandsOver ending.now result (room text.old text.new) (room bytes.old bytes.new) }
{
    let text_len = hand(ending.text().as_bytes(), text);
    let bytes_len = match ending.file() {
        Some(file) => hand(file.bytes.as_slice(), bytes),
        None => 0,
    };
    DocbinAnswer {
        text_len,
        bytes_len,
        status: u32::from(ending.status()),
    }
}
