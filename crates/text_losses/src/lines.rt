// The line of a feature.
ghost use Rattle.std.specs.Prelude.{◌≡◌, ◌++◌, IfOk, OnOk};
ghost use Rattle.std.specs.List.{flat_map};
ghost use Rattle.text_losses.specs.Lines.{list_word as word_of_list, place_text, code_text, feature_line};
ghost use Rattle.text_losses.specs.Lines.{reference_text as text_of_reference};

use crate::features::{ListKind, Reference, TextFeature};
use doc_bits::{Memory, Story, Text};
use loss_report::story_word;
use std::alloc::Global;
use text_codes::{push_word, show_units};

/// Appends the lines of features. After want of memory some of them may be there.
pub fn push_features(alloc: Global, text: &mut Text, features: &[TextFeature]) -> Result<(), Memory>
    ensures { OnOk result (text.new ≡ text.old ++ flat_map feature_line features.now) }
{
    for k in 0..features.len() {
        push_feature(alloc, text, &features[k])?;
    }
    Ok(())
}

/// Appends the line of a feature. After want of memory a part of it may be there.
pub fn push_feature(alloc: Global, text: &mut Text, feature: &TextFeature) -> Result<(), Memory>
    ensures { OnOk result (text.new ≡ text.old ++ feature_line feature.now) }
{
    let line = feature_line(alloc, feature)?;
    text.push_all(line.as_str())
}

/// The line of a feature.
fn feature_line(alloc: Global, feature: &TextFeature) -> Result<Text, Memory>
    ensures { IfOk result (λ line. line ≡ feature_line feature.now) }
{
    let line = match feature {
        TextFeature::Skipped { kind, code, count } => {
            let codes = codes(alloc, *kind, *code, *count)?;
            let codes = codes.as_str();
            format!(in alloc; "code {codes}\n")?
        }
        TextFeature::Repeated { kind, code, count } => {
            let codes = codes(alloc, *kind, *code, *count)?;
            let codes = codes.as_str();
            format!(in alloc; "repeat {codes}\n")?
        }
        TextFeature::Deleted { story, from, to } => {
            let place = story_place(alloc, *story)?;
            let place = place.as_str();
            format!(in alloc; "deleted {place} {from} {to}\n")?
        }
        TextFeature::Bookmark { name, from, to } => {
            let shown = show_units(alloc, name.as_slice())?;
            let shown = shown.as_str();
            format!(in alloc; "bookmark {shown} {from} {to}\n")?
        }
        TextFeature::SheetBeyond { len } => format!(in alloc; "sheet {len}\n")?,
    };
    Ok(Text::from_string(line))
}

/// A list, a code and a count.
fn codes(alloc: Global, kind: ListKind, code: u16, count: u64) -> Result<Text, Memory>
    ensures { IfOk result (λ text. text ≡ code_text kind code count) }
{
    let word = list_word(kind);
    let mut digits = Text::new(alloc);
    push_word(&mut digits, code)?;
    let digits = digits.as_str();
    let text = format!(in alloc; "{word} {digits} {count}")?;
    Ok(Text::from_string(text))
}

/// A reference, as a mend names it.
pub fn reference_text(alloc: Global, reference: Reference) -> Result<Text, Memory>
    ensures { IfOk result (λ text. text ≡ text_of_reference reference) }
{
    let word = story_word(reference.to);
    let place = story_place(alloc, reference.story)?;
    let place = place.as_str();
    let at = reference.at;
    let text = format!(in alloc; "reference {word} {place} {at}")?;
    Ok(Text::from_string(text))
}

/// A text by its name: `main`, `note 3` or `head 6`.
pub fn story_place(alloc: Global, story: Story) -> Result<Text, Memory>
    ensures { IfOk result (λ text. text ≡ place_text story) }
{
    let text = match story {
        Story::Main => format!(in alloc; "main")?,
        Story::Note(number) => format!(in alloc; "note {number}")?,
        Story::Head(number) => format!(in alloc; "head {number}")?,
    };
    Ok(Text::from_string(text))
}

/// How a kind of list is named.
fn list_word(kind: ListKind) -> &'static str
    ensures { result.now ≡ word_of_list kind }
{
    match kind {
        ListKind::Chpx => "char",
        ListKind::Papx => "par",
        ListKind::StyleChpx => "style-char",
        ListKind::StylePapx => "style-par",
        ListKind::Prc => "modifier",
        ListKind::Sepx => "sect",
    }
}
