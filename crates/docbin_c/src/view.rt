// The document of a file as people read it.
ghost use Rattle.std.specs.Prelude.{◌≡◌, true, map, codes, IfOk, MatchResult};
ghost use Rattle.docbin_c.specs.Answers.{room, no_room, LacksMemory};
ghost use Rattle.docbin_c.specs.Calls.{file_alone, optional_words, view_words};
ghost use Rattle.docbin_c.specs.Shown.{AnswersView, HandsText, IsShown};

use crate::answer::DocbinAnswer;
use crate::given::{FIRST, GivenFiles};
use crate::growing::GrowingSink;
use crate::rooms::hand;
use crate::words::words_of;
use doc_bits::{Bytes, Memory};
use docview_run::docview_run;
use run_stages::{STATUS_DONE, STATUS_MEMORY, STATUS_SINK_FAULT};
use std::alloc::Global;
use std::marker::Model;

/// What a run of docview showed: its status, and the page, or why there is none.
#[derive(Drop)]
struct Shown {
    status: u8,
    text: Bytes,
}

impl Model for Shown {
    ghost use Rattle.docbin_c.specs.Shown.{ShownText};

    ghost Value = { ShownText };

    ghost view = { λ s. record { status = s.status; text = s.text } };
}

/// The document of a file as text. Options: 1 hidden text, 2 header texts.
#[unsafe(no_mangle)]
pub extern "C" fn docview_text(
    alloc: Global,
    file: &[u8],
    options: u32,
    text: &mut [u8],
) -> DocbinAnswer
    ensures { AnswersView (view_words options (codes "text")) (file_alone file.now)
        result (room text.old text.new) }
{
    hand_shown(shown_in(alloc, "text", options, file), text)
}

/// The document of a file as a page in HTML, with the same options.
#[unsafe(no_mangle)]
pub extern "C" fn docview_html(
    alloc: Global,
    file: &[u8],
    options: u32,
    text: &mut [u8],
) -> DocbinAnswer
    ensures { AnswersView (view_words options (codes "html")) (file_alone file.now)
        result (room text.old text.new) }
{
    hand_shown(shown_in(alloc, "html", options, file), text)
}

/// The document of a file as Markdown, with the same options.
#[unsafe(no_mangle)]
pub extern "C" fn docview_markdown(
    alloc: Global,
    file: &[u8],
    options: u32,
    text: &mut [u8],
) -> DocbinAnswer
    ensures { AnswersView (view_words options (codes "markdown")) (file_alone file.now)
        result (room text.old text.new) }
{
    hand_shown(shown_in(alloc, "markdown", options, file), text)
}

/// What docview shows of a file in a form.
fn shown_in(alloc: Global, form: &str, options: u32, file: &[u8]) -> Result<Shown, Memory>
    ensures { IfOk result (IsShown (view_words options form.now) (file_alone file.now)) }
{
    let has_headers = options / 2 % 2 == 1;
    if options % 2 == 1 {
        return shown_with_hidden(alloc, form, has_headers, file);
    }
    if has_headers {
        return shown_of(alloc, &["--headers", form, FIRST], file);
    }
    shown_of(alloc, &[form, FIRST], file)
}

/// What docview shows of a file in a form, hidden text too.
fn shown_with_hidden(
    alloc: Global,
    form: &str,
    has_headers: bool,
    file: &[u8],
) -> Result<Shown, Memory>
    ensures { IfOk result (IsShown (optional_words true has_headers form.now) (file_alone file.now)) }
{
    if has_headers {
        return shown_of(alloc, &["--hidden", "--headers", form, FIRST], file);
    }
    shown_of(alloc, &["--hidden", form, FIRST], file)
}

/// What docview shows of a file by these words.
fn shown_of(alloc: Global, texts: &[&str], file: &[u8]) -> Result<Shown, Memory>
    ensures { IfOk result (IsShown (map (λ text. text.now) texts.now) (file_alone file.now)) }
{
    let words = words_of(alloc, texts)?;
    let mut files = GivenFiles::one(alloc, file)?;
    let mut page = GrowingSink::new(alloc);
    let mut reason = GrowingSink::new(alloc);
    let status = docview_run(alloc, &words, &mut files, &mut page, &mut reason);
    if status == STATUS_SINK_FAULT || status == STATUS_MEMORY {
        return Err(Memory);
    }
    let told = if status == STATUS_DONE { page } else { reason };
    let text = told.whole()?;
    Ok(Shown { status, text })
}

/// Hands over what was shown.
fn hand_shown(shown: Result<Shown, Memory>, text: &mut [u8]) -> DocbinAnswer
    ensures { MatchResult shown
        (λ s. HandsText s result (room text.old text.new))
        (λ _. LacksMemory result (room text.old text.new) no_room) }
{
    match shown {
        Ok(shown) => DocbinAnswer {
            text_len: hand(shown.text.as_slice(), text),
            bytes_len: 0,
            status: u32::from(shown.status),
        },
        Err(Memory) => DocbinAnswer {
            text_len: 0,
            bytes_len: 0,
            status: u32::from(STATUS_MEMORY),
        },
    }
}
