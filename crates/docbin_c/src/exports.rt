// The calls of a program in C. Each serves the words of a command of `docbin` over files that have the names `first`
// and `second`.
ghost use Rattle.std.specs.Prelude.{[], codes, IfOk};
ghost use Rattle.std.specs.Str.{IsUtf8};
ghost use Rattle.doc_run.specs.Quota.{program_policies};
ghost use Rattle.docbin_c.specs.Answers.{Answers, IsReached, room, no_room};
ghost use Rattle.docbin_c.specs.Calls.{call_policies, file_alone, two_files, retitle_words, props_words};
ghost use Rattle.docbin_c.specs.Calls.{on_one, on_two, one_put, two_put};

use crate::answer::DocbinAnswer;
use crate::given::{FIRST, GivenFiles, OUT, SECOND};
use crate::serve::{ending_over, hand_over};
use doc_bits::Memory;
use run_stages::Ending;
use std::alloc::Global;
use std::str;

/// The ending of a command on one file.
fn ending_on_one(alloc: Global, command: &str, file: &[u8]) -> Result<Ending, Memory>
    ensures { IfOk result (IsReached program_policies (on_one command.now) (file_alone file.now)) }
{
    ending_over(
        alloc,
        &[command, FIRST],
        GivenFiles::one(alloc, file)?,
        true,
    )
}

/// The ending of a command on one file that puts bytes.
fn ending_one_put(alloc: Global, command: &str, file: &[u8]) -> Result<Ending, Memory>
    ensures { IfOk result (IsReached program_policies (one_put command.now) (file_alone file.now)) }
{
    ending_over(
        alloc,
        &[command, FIRST, OUT],
        GivenFiles::one(alloc, file)?,
        true,
    )
}

/// The main text of a file.
#[unsafe(no_mangle)]
pub extern "C" fn docbin_text(alloc: Global, file: &[u8], text: &mut [u8]) -> DocbinAnswer
    ensures { Answers program_policies (on_one (codes "text")) (file_alone file.now)
        result (room text.old text.new) no_room }
{
    hand_over(ending_on_one(alloc, "text", file), text, &mut [])
}

/// A line for each stream of the container of a file.
#[unsafe(no_mangle)]
pub extern "C" fn docbin_streams(alloc: Global, file: &[u8], text: &mut [u8]) -> DocbinAnswer
    ensures { Answers program_policies (on_one (codes "streams")) (file_alone file.now)
        result (room text.old text.new) no_room }
{
    hand_over(ending_on_one(alloc, "streams", file), text, &mut [])
}

/// Whether a file is accepted, and how much it has.
#[unsafe(no_mangle)]
pub extern "C" fn docbin_check(alloc: Global, file: &[u8], text: &mut [u8]) -> DocbinAnswer
    ensures { Answers program_policies (on_one (codes "check")) (file_alone file.now)
        result (room text.old text.new) no_room }
{
    hand_over(ending_on_one(alloc, "check", file), text, &mut [])
}

/// The styles and texts of a file, line by line.
#[unsafe(no_mangle)]
pub extern "C" fn docbin_show(alloc: Global, file: &[u8], text: &mut [u8]) -> DocbinAnswer
    ensures { Answers program_policies (on_one (codes "show")) (file_alone file.now)
        result (room text.old text.new) no_room }
{
    hand_over(ending_on_one(alloc, "show", file), text, &mut [])
}

/// The paragraphs of a file that have a number or a level in the outline.
#[unsafe(no_mangle)]
pub extern "C" fn docbin_outline(alloc: Global, file: &[u8], text: &mut [u8]) -> DocbinAnswer
    ensures { Answers program_policies (on_one (codes "outline")) (file_alone file.now)
        result (room text.old text.new) no_room }
{
    hand_over(ending_on_one(alloc, "outline", file), text, &mut [])
}

/// Title, subject and author of a file.
#[unsafe(no_mangle)]
pub extern "C" fn docbin_title(alloc: Global, file: &[u8], text: &mut [u8]) -> DocbinAnswer
    ensures { Answers program_policies (on_one (codes "title")) (file_alone file.now)
        result (room text.old text.new) no_room }
{
    hand_over(ending_on_one(alloc, "title", file), text, &mut [])
}

/// The full save of the document of a file.
#[unsafe(no_mangle)]
pub extern "C" fn docbin_full(
    alloc: Global,
    file: &[u8],
    text: &mut [u8],
    out: &mut [u8],
) -> DocbinAnswer
    ensures { Answers program_policies (one_put (codes "full")) (file_alone file.now)
        result (room text.old text.new) (room out.old out.new) }
{
    hand_over(ending_one_put(alloc, "full", file), text, out)
}

/// The document of a file as JSON.
#[unsafe(no_mangle)]
pub extern "C" fn docbin_export(
    alloc: Global,
    file: &[u8],
    text: &mut [u8],
    out: &mut [u8],
) -> DocbinAnswer
    ensures { Answers program_policies (one_put (codes "export")) (file_alone file.now)
        result (room text.old text.new) (room out.old out.new) }
{
    hand_over(ending_one_put(alloc, "export", file), text, out)
}

/// The full save of a document that is given as JSON.
#[unsafe(no_mangle)]
pub extern "C" fn docbin_import(
    alloc: Global,
    file: &[u8],
    text: &mut [u8],
    out: &mut [u8],
) -> DocbinAnswer
    ensures { Answers program_policies (one_put (codes "import")) (file_alone file.now)
        result (room text.old text.new) (room out.old out.new) }
{
    hand_over(ending_one_put(alloc, "import", file), text, out)
}

/// What is in effect at an item of the main text of a file.
#[unsafe(no_mangle)]
pub extern "C" fn docbin_props(
    alloc: Global,
    file: &[u8],
    position: u32,
    text: &mut [u8],
) -> DocbinAnswer
    ensures { Answers program_policies (props_words position) (file_alone file.now)
        result (room text.old text.new) no_room }
{
    hand_over(ending_at(alloc, position, file), text, &mut [])
}

/// The ending of `props`.
fn ending_at(alloc: Global, position: u32, file: &[u8]) -> Result<Ending, Memory>
    ensures { IfOk result (IsReached program_policies (props_words position) (file_alone file.now)) }
{
    let word = format!(in alloc; "{position}")?;
    ending_over(
        alloc,
        &["props", FIRST, word.as_str()],
        GivenFiles::one(alloc, file)?,
        true,
    )
}

/// The full save of the document of a file with another title.
#[unsafe(no_mangle)]
pub extern "C" fn docbin_retitle(
    alloc: Global,
    file: &[u8],
    title: &[u8],
    text: &mut [u8],
    out: &mut [u8],
) -> DocbinAnswer
    ensures text { IsUtf8 title.now
        → Answers program_policies (retitle_words title.now) (file_alone file.now)
        result (room text.old text.new) (room out.old out.new) }
    ensures no_text { ¬ (IsUtf8 title.now)
        → Answers program_policies [] (file_alone file.now) result (room text.old text.new) (room out.old out.new) }
{
    let Ok(title) = str::from_utf8(title) else {
        return hand_usage(alloc, file, text, out);
    };
    hand_over(ending_titled(alloc, title, file), text, out)
}

/// Hands over the usage line.
fn hand_usage(alloc: Global, file: &[u8], text: &mut [u8], out: &mut [u8]) -> DocbinAnswer
    ensures { Answers program_policies [] (file_alone file.now) result (room text.old text.new) (room out.old out.new) }
{
    hand_over(ending_of_no_words(alloc, file), text, out)
}

/// The ending of `retitle`.
fn ending_titled(alloc: Global, title: &str, file: &[u8]) -> Result<Ending, Memory>
    ensures { IfOk result (IsReached program_policies (retitle_words title.now) (file_alone file.now)) }
{
    ending_over(
        alloc,
        &["retitle", FIRST, title, OUT],
        GivenFiles::one(alloc, file)?,
        true,
    )
}

/// The ending of no words: the usage line.
fn ending_of_no_words(alloc: Global, file: &[u8]) -> Result<Ending, Memory>
    ensures { IfOk result (IsReached program_policies [] (file_alone file.now)) }
{
    ending_over(alloc, &[], GivenFiles::one(alloc, file)?, true)
}

/// Whether the documents of two files are equal.
#[unsafe(no_mangle)]
pub extern "C" fn docbin_equal(
    alloc: Global,
    first: &[u8],
    second: &[u8],
    text: &mut [u8],
) -> DocbinAnswer
    ensures { Answers program_policies (on_two (codes "equal")) (two_files first.now second.now)
        result (room text.old text.new) no_room }
{
    hand_over(ending_on_two(alloc, "equal", first, second), text, &mut [])
}

/// The ending of a command on two files.
fn ending_on_two(
    alloc: Global,
    command: &str,
    first: &[u8],
    second: &[u8],
) -> Result<Ending, Memory>
    ensures { IfOk result (IsReached program_policies (on_two command.now) (two_files first.now second.now)) }
{
    ending_over(
        alloc,
        &[command, FIRST, SECOND],
        GivenFiles::two(alloc, first, second)?,
        true,
    )
}

/// The ending of a command on two files that puts bytes.
fn ending_two_put(
    alloc: Global,
    command: &str,
    first: &[u8],
    other: &[u8],
    is_guarded: bool,
) -> Result<Ending, Memory>
    ensures { IfOk result (IsReached (call_policies is_guarded) (two_put command.now) (two_files first.now other.now)) }
{
    ending_over(
        alloc,
        &[command, FIRST, SECOND, OUT],
        GivenFiles::two(alloc, first, other)?,
        is_guarded,
    )
}

/// The full save of one document after another.
#[unsafe(no_mangle)]
pub extern "C" fn docbin_join(
    alloc: Global,
    first: &[u8],
    second: &[u8],
    text: &mut [u8],
    out: &mut [u8],
) -> DocbinAnswer
    ensures { Answers program_policies (two_put (codes "join")) (two_files first.now second.now)
        result (room text.old text.new) (room out.old out.new) }
{
    hand_over(
        ending_two_put(alloc, "join", first, second, true),
        text,
        out,
    )
}

/// The last save of a script over the document of a file: with the program's guard, a quota of 1,000,000 items that
/// edits may add, or without.
#[unsafe(no_mangle)]
pub extern "C" fn docbin_edit(
    alloc: Global,
    file: &[u8],
    script: &[u8],
    is_guarded: bool,
    text: &mut [u8],
    out: &mut [u8],
) -> DocbinAnswer
    ensures { Answers (call_policies is_guarded) (two_put (codes "edit")) (two_files file.now script.now)
        result (room text.old text.new) (room out.old out.new) }
{
    hand_over(
        ending_two_put(alloc, "edit", file, script, is_guarded),
        text,
        out,
    )
}
