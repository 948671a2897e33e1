// The line of one feature.
ghost use Rattle.std.specs.Prelude.{◌≡◌, IfOk};
ghost use Rattle.loss_report.specs.Features.{StreamOf, StorageOf, PartOf, StoryOf, AutoText};
ghost use Rattle.loss_report.specs.Lines.{feature_line, story_word as word_of_story};

use doc_bits::{Memory, Text};
use fib_versions::{Further, part_name};
use std::alloc::Global;
use text_codes::show_units;

/// A stream that is left out.
pub(crate) fn stream_line(alloc: Global, name: &[u16]) -> Result<Text, Memory>
    ensures { IfOk result (λ text. text ≡ feature_line (StreamOf name.now)) }
{
    let shown = show_units(alloc, name)?;
    let shown = shown.as_str();
    let line = format!(in alloc; "stream {shown}\n")?;
    Ok(Text::from_string(line))
}

/// A storage that is left out.
pub(crate) fn storage_line(alloc: Global, name: &[u16]) -> Result<Text, Memory>
    ensures { IfOk result (λ text. text ≡ feature_line (StorageOf name.now)) }
{
    let shown = show_units(alloc, name)?;
    let shown = shown.as_str();
    let line = format!(in alloc; "storage {shown}\n")?;
    Ok(Text::from_string(line))
}

/// A part that is left out, by the number of its pair, and its length in bytes.
pub(crate) fn part_line(alloc: Global, pair: usize, len: u32) -> Result<Text, Memory>
    ensures { IfOk result (λ text. text ≡ feature_line (PartOf pair len)) }
{
    let name = part_name(pair);
    let line = format!(in alloc; "part {pair} {name} {len}\n")?;
    Ok(Text::from_string(line))
}

/// A story that is left out, with its whole text.
pub(crate) fn story_line(alloc: Global, story: Further, units: &[u16]) -> Result<Text, Memory>
    ensures { IfOk result (λ text. text ≡ feature_line (StoryOf story units.now)) }
{
    let word = story_word(story);
    let len = units.len();
    let shown = show_units(alloc, units)?;
    let shown = shown.as_str();
    let line = format!(in alloc; "story {word} {len} | {shown}\n")?;
    Ok(Text::from_string(line))
}

/// AutoText that is left out.
pub(crate) fn auto_text_line(alloc: Global, page: u16) -> Result<Text, Memory>
    ensures { IfOk result (λ text. text ≡ feature_line (AutoText page)) }
{
    let line = format!(in alloc; "autotext page {page}\n")?;
    Ok(Text::from_string(line))
}

/// How a story is named.
pub fn story_word(story: Further) -> &'static str
    ensures { result.now ≡ word_of_story story }
{
    match story {
        Further::Comments => "comments",
        Further::Endnotes => "endnotes",
        Further::TextBoxes => "textboxes",
        Further::HeaderTextBoxes => "header-textboxes",
    }
}
