// The lines on a summary.
ghost use Rattle.std.specs.Prelude.{◌≡◌, ◌<◌, [], ◌∷◌, ◌++◌, IfOk, OnOk, IsTrue};
ghost use Rattle.std.specs.List.{flat_map};
ghost use Rattle.document_commands.specs.SummaryLines.{is_shown_byte as is_plain, byte_escape, shown_byte, shown_field};
ghost use Rattle.document_commands.specs.SummaryLines.{field_line};
ghost use Rattle.document_commands.specs.SummaryLines.{three_lines, no_summary_line as no_summary_of};
ghost use Rattle.document_commands.specs.SummaryLines.{wrong_summary_line as wrong_summary_of};

use doc_bits::{Bytes, Memory, Text};
use std::alloc::Global;
use std::str;
use summary_set::Fields;
use text_codes::hex_digit;

/// The lines of title, subject and author.
pub(crate) fn fields_lines(alloc: Global, fields: &Fields) -> Result<Text, Memory>
    ensures { IfOk result (λ text. text ≡ three_lines fields.now.title fields.now.subject fields.now.author) }
{
    let mut text = Text::new(alloc);
    push_field(&mut text, "title ", &fields.title)?;
    push_field(&mut text, "subject ", &fields.subject)?;
    push_field(&mut text, "author ", &fields.author)?;
    Ok(text)
}

/// Appends the line of a field. After want of memory a part of it may be there, as with each call here.
fn push_field(text: &mut Text, word: &str, field: &Option<Bytes>) -> Result<(), Memory>
    ensures { OnOk result (text.new ≡ text.old ++ field_line word.now field.now) }
{
    text.push_all(word)?;
    push_text(text, field)?;
    text.push_all("\n")
}

/// Appends the text of a field, or a dash for none.
fn push_text(text: &mut Text, field: &Option<Bytes>) -> Result<(), Memory>
    ensures { OnOk result (text.new ≡ text.old ++ shown_field field.now) }
{
    match field {
        Some(bytes) => push_shown(text, bytes.as_slice()),
        None => text.push_all("-"),
    }
}

/// Appends bytes as they are shown.
fn push_shown(text: &mut Text, bytes: &[u8]) -> Result<(), Memory>
    ensures { OnOk result (text.new ≡ text.old ++ flat_map shown_byte bytes.now) }
{
    for byte in bytes {
        push_byte(text, *byte)?;
    }
    Ok(())
}

/// Appends a byte as it is shown.
fn push_byte(text: &mut Text, byte: u8) -> Result<(), Memory>
    ensures { OnOk result (text.new ≡ text.old ++ shown_byte byte) }
{
    if is_shown(byte) {
        return push_plain(text, byte);
    }
    push_escape(text, byte)
}

/// Whether a byte is shown as it is.
fn is_shown(byte: u8) -> bool
    ensures value { result ≡ is_plain byte }
    ensures ascii { IsTrue result → byte < 128 }
{
    (0x20..=0x7E).contains(&byte) && byte != b'\\'
}

/// Appends a byte of plain ASCII.
fn push_plain(text: &mut Text, byte: u8) -> Result<(), Memory>
    requires { byte < 128 }
    ensures { OnOk result (text.new ≡ text.old ++ byte ∷ []) }
{
    let plain = [byte];
    text.push_all(str::from_utf8(&plain).unwrap())
}

/// Appends a reverse solidus, the letter x and the two digits of a byte.
fn push_escape(text: &mut Text, byte: u8) -> Result<(), Memory>
    ensures { OnOk result (text.new ≡ text.old ++ byte_escape byte) }
{
    let shown = [b'\\', b'x', hex_digit(byte / 16), hex_digit(byte % 16)];
    text.push_all(str::from_utf8(&shown).unwrap())
}

/// The line for a document that has no summary.
pub(crate) fn no_summary_line(alloc: Global, name: &str) -> Result<Text, Memory>
    ensures { IfOk result (λ text. text ≡ no_summary_of name.now) }
{
    let line = format!(in alloc; "{name}: no summary\n")?;
    Ok(Text::from_string(line))
}

/// The line for a summary that is no property set.
pub(crate) fn wrong_summary_line(alloc: Global, name: &str, place: u32) -> Result<Text, Memory>
    ensures { IfOk result (λ text. text ≡ wrong_summary_of name.now place) }
{
    let line = format!(in alloc; "{name}: summary wrong at {place}\n")?;
    Ok(Text::from_string(line))
}
