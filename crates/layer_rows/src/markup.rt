// Characters that could be read as markup: by hand from the standard of HTML, CommonMark 0.31 and GFM.
use html_text::reference;
use markdown_text::{LineState, is_escaped_in_destination};
use std::test::Fail;

/// A character and its reference in HTML.
const REFERENCES: [(u32, Option<&[u8]>); 6] = [
    (0x26, Some(b"&amp;")),
    (0x3C, Some(b"&lt;")),
    (0x3E, Some(b"&gt;")),
    (0x22, Some(b"&quot;")),
    (0x27, None),
    (0x20AC, None),
];

/// Whether each has it.
fn are_references(rows: &[(u32, Option<&[u8]>)]) -> bool {
    for row in rows {
        if reference(row.0) != row.1 {
            return false;
        }
    }
    true
}

#[test]
fn markup_of_html_is_referred_to(rt: HostRuntime) -> Result<(), Fail> {
    assert!(rt; are_references(&REFERENCES));
    Ok(())
}

/// A character of a document: whether it is escaped behind markup of the page, and its reference there.
struct Row(&'static [u8], u32, bool, Option<&'static [u8]>);

/// `[^1](x)` would be a link, and `[^1]:` at the start of a line a note.
const ROWS: [Row; 17] = [
    Row(b"", 0x2D, true, None),
    Row(b"- ", 0x2B, true, None),
    Row(b"1", 0x2E, true, None),
    Row(b"12", 0x29, true, None),
    Row(b"a1", 0x2E, false, None),
    Row(b"12. ", 0x3D, true, None),
    Row(b"a", 0x2D, false, None),
    Row(b"a | ", 0x3A, true, None),
    Row(b"a\n", 0x20, true, Some(b"&#32;")),
    Row(b"a", 0x20, false, None),
    Row(b"## ", 0x09, true, Some(b"&#9;")),
    Row(b"[^1]", 0x28, true, None),
    Row(b"[^1]", 0x3A, true, None),
    Row(b"[^1]*", 0x28, false, None),
    Row(b"std:", 0x3A, true, None),
    Row(b"a :e-mail", 0x3A, true, None),
    Row(b"a: b", 0x3A, false, None),
];

/// Whether a row is so.
fn is_so(row: &Row) -> bool {
    let state = LineState::Start.after_markup(row.0);
    state.is_special(row.1) == row.2 && state.reference(row.1) == row.3
}

/// Whether each is.
fn are_so(rows: &[Row]) -> bool {
    for row in rows {
        if !is_so(row) {
            return false;
        }
    }
    true
}

/// Whether digits and text of a document, and a tag, leave a line as they should.
fn are_behind() -> bool {
    let digit = LineState::Start.after_tag().after_character(0x31);
    let letter = digit.after_character(0x61);
    digit.is_special(0x2E)
        && !letter.is_special(0x2E)
        && !LineState::Bracket.after_tag().is_special(0x28)
}

#[test]
fn markup_of_markdown_is_escaped(rt: HostRuntime) -> Result<(), Fail> {
    assert!(rt; are_so(&ROWS) && are_behind());
    assert!(rt; is_escaped_in_destination(0x26) && !is_escaped_in_destination(0x2F));
    Ok(())
}
