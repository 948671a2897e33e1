// Why a run ends, for people: one line on the standard error. No clause speaks of it.
use crate::ending::Ending;
use doc_bits::{Memory, Text};
use doc_outer::{Sink, write_all};
use std::alloc::Global;

/// What a file that breaks a rule is, and what to do, by the number of the rule: the words of all programs.
pub fn why_rule(rule: u8) -> &'static str {
    match rule {
        1 => "the length is that of no Word file: the file was cut, or is another one",
        10 => "embedded objects or macros: docfit leaves them out, and names them",
        15 => "no document: a workbook or a presentation",
        17 => "Word 6 or 95, or older: LibreOffice makes a later one of it",
        18 | 21 => "a later form of the file: docfit makes it one that is read",
        19 => "encrypted: remove the password",
        20 => "a glossary of AutoText, and no document",
        22 | 24 => {
            "comments, endnotes, text boxes or drawings: docfit leaves them out, and names them"
        }
        23 => "no text, or more than 500,000 characters",
        31 | 43 =>
            "tracked changes, or codes that have no meaning here: docfit, or accept the changes first",
        36 => "a section with a code that has no meaning here",
        48 | 51 =>
            "tab stops or tables in a later form: docfit leaves these codes out, and names them",
        39 => "a character without properties: docfit, or put a paragraph behind the end",
        50 | 64 => "a style that is broken or not there: save it anew in LibreOffice",
        63 => "a table row with more or fewer cells than it says: docfit makes paragraphs of it",
        54 | 67 => "another number of header texts than 6 and 6 for each section",
        57 | 69 => "bookmarks that do not fit one another: remove them",
        65 =>
            "a style that is based on one of another kind, or on itself: docfit takes its base away",
        68 => "more than 499,998 characters",
        2..=9 | 11..=14 | 16 => "no Word file, or damaged",
        _ => "damaged, or in a form that is not read",
    }
}

/// What a status says that no rule is named with, and where to read on.
pub fn why_status(status: u8) -> Option<&'static str> {
    match status {
        6 => Some("out of memory"),
        7 => Some(
            "the bytes are no script, or no document as JSON (docs/COMMANDS.md, docs/JSON.md)",
        ),
        8 => Some("what is asked for is not there or not allowed (docs/COMMANDS.md, Statuses)"),
        9 => Some("a file has at most 7,143,936 bytes (docs/COMMANDS.md, Saves)"),
        10 => Some("the edits of a run add 1,000,000 characters at most"),
        13 => Some("the document has no title, subject or author"),
        14 => Some("the title, subject and author of the document are damaged (docs/FORMAT.md)"),
        _ => None,
    }
}

/// What a file is that is no compound file, as its first bytes tell.
pub fn why_start(file: &[u8]) -> Option<&'static str> {
    if file.is_empty() {
        return Some("an empty file");
    }
    if file.starts_with(b"PK") {
        return Some("a .docx or another archive: save it as a Word 97-2003 document");
    }
    if file.starts_with(b"{\\rtf") {
        return Some("RTF: save it as a Word 97-2003 document");
    }
    if is_web_page(file) {
        return Some("a web page: save it as a Word 97-2003 document");
    }
    if file.starts_with(b"%PDF") {
        return Some("a PDF, and no Word file");
    }
    if is_plain_text(file) {
        return Some("plain text: save it as a Word 97-2003 document");
    }
    None
}

/// How many bytes of a file are looked at.
const START: usize = 512;

/// Whether a file begins as a web page, behind a mark of its byte order and blanks.
fn is_web_page(file: &[u8]) -> bool {
    let start = match file.strip_prefix(b"\xef\xbb\xbf") {
        Some(rest) => rest,
        None => file,
    };
    let start = start.trim_ascii_start();
    begins_with(start, b"<html") || begins_with(start, b"<!doctype")
}

/// Whether bytes begin with a word of small letters, whatever the case of their own is.
fn begins_with(bytes: &[u8], word: &[u8]) -> bool {
    bytes.len() >= word.len() && bytes[..word.len()].eq_ignore_ascii_case(word)
}

/// Whether the first bytes are those of a text.
fn is_plain_text(file: &[u8]) -> bool {
    let start = &file[..file.len().min(START)];
    for byte in start {
        if *byte < 0x20 && !matches!(*byte, b'\t' | b'\n' | b'\r' | 0x0C) {
            return false;
        }
    }
    true
}

/// A name in which no control is left that a terminal would follow.
fn shown_name(alloc: Global, name: &str) -> Result<String, Memory> {
    let mut shown = String::new(alloc);
    for character in name.chars() {
        let code = character as u32;
        if code < 0x20 || code == 0x5C || (0x7F..0xA0).contains(&code) {
            let escape = format!(in alloc; "\\u{code:04x}")?;
            shown.push_str(escape.as_str())?;
        } else {
            shown.push(character)?;
        }
    }
    Ok(shown)
}

/// Why a run ends at a name.
pub fn reason_of_name(alloc: Global, name: &str, why: &str) -> Result<Text, Memory> {
    let shown = shown_name(alloc, name)?;
    let line = format!(in alloc; "{shown}: {why}")?;
    Ok(Text::from_string(line))
}

/// Why a run ends at a file that breaks a rule.
pub fn reason_of_rule(alloc: Global, name: &str, rule: u8, why: &str) -> Result<Text, Memory> {
    let shown = shown_name(alloc, name)?;
    let line = format!(in alloc; "{shown}: rule {rule}: {why}")?;
    Ok(Text::from_string(line))
}

/// What a file that breaks a rule is. Of one that is no compound file its first bytes tell more than the rule does.
pub fn why_refused(rule: u8, file: &[u8]) -> &'static str {
    if rule > 2 {
        return why_rule(rule);
    }
    match why_start(file) {
        Some(why) => why,
        None => why_rule(rule),
    }
}

/// Tells why a run ends so, as far as a sink takes it: a line that begins with the program's name. What the sink does
/// not take changes nothing.
pub fn tell_reason<E: Sink>(reasons: &mut E, program: &str, ending: &Ending) {
    match ending.reason() {
        Some(reason) => tell_line(reasons, program, reason),
        None => tell_status(reasons, program, ending.status()),
    }
}

/// Tells what a status says.
pub fn tell_status<E: Sink>(reasons: &mut E, program: &str, status: u8) {
    if let Some(why) = why_status(status) {
        tell_line(reasons, program, why);
    }
}

/// Puts a line into a sink, as far as it takes it.
fn tell_line<E: Sink>(reasons: &mut E, program: &str, why: &str) {
    for part in [program, ": ", why, "\n"] {
        if write_all(reasons, part.as_bytes()).is_err() {
            return;
        }
    }
}
