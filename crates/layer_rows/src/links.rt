// Where hyperlinks lead: by hand from [ECMA-376] HYPERLINK, RFC 3986 and the choices of docs/DECISIONS.md.
use field_links::{LinkText, anchor_of, link_of};
use std::test::Fail;

/// How many units an instruction of a row has at most.
const MAX_LINKS: usize = 96;

/// The bytes as units.
fn units_of(text: &[u8]) -> [u16; MAX_LINKS] {
    let mut units = [0x20; MAX_LINKS];
    for i in 0..text.len().min(MAX_LINKS) {
        units[i] = text[i] as u16;
    }
    units
}

/// Whether the characters are these.
fn spells(text: &mut LinkText<'_>, wanted: &str) -> bool {
    for character in wanted.chars() {
        if text.next_char() != Some(character) {
            return false;
        }
    }
    text.next_char().is_none()
}

/// Whether the instruction of a field leads there, or nowhere.
fn leads(instruction: &[u8], wanted: Option<&str>) -> bool {
    let units = units_of(instruction);
    match (link_of(&units).url(), wanted) {
        (Some(mut text), Some(url)) => spells(&mut text, url),
        (None, None) => true,
        _ => false,
    }
}

/// An instruction and its URL.
struct Row(&'static [u8], Option<&'static str>);

const ROWS: [Row; 20] = [
    Row(b" HYPERLINK \"http://a.b/c\" ", Some("http://a.b/c")),
    Row(b"HYPERLINK https://a.b", Some("https://a.b")),
    Row(
        b" HYPERLINK \"MailTo:x@y.z\" \\o \"to x\"",
        Some("MailTo:x@y.z"),
    ),
    Row(
        b" HYPERLINK \"ftp://a.b\" \\t \"_blank\"",
        Some("ftp://a.b"),
    ),
    Row(b" HYPERLINK \"TEL:+1 (2)\" ", Some("TEL:+1%20%282%29")),
    Row(
        b" HYPERLINK \"http://a.b\" \\l \"x y\"",
        Some("http://a.b#x%20y"),
    ),
    Row(b" HYPERLINK \\o \"tip\" \"http://a.b\"", Some("http://a.b")),
    Row(b" HYPERLINK \\l \"x y\" ", Some("#bm-x.20.y")),
    Row(
        b" HYPERLINK \\l \"_Toc1\" \\* MERGEFORMAT",
        Some("#bm-_Toc1"),
    ),
    Row(b" HYPERLINK \"\" \\l \"x\"", Some("#bm-x")),
    Row(
        b" HYPERLINK \"http://a\\\"b\\\\c\"",
        Some("http://a%22b%5Cc"),
    ),
    Row(b" HYPERLINK \"http://a&b\" \\n", Some("http://a&b")),
    Row(b" HYPERLINK \"JAVASCRIPT:alert(1)\"", None),
    Row(b" HYPERLINK \" http://a.b\"", None),
    Row(b" HYPERLINK \"data:text/html,x\" \\l \"x\"", None),
    Row(b" HYPERLINK \"//a.b/c\"", None),
    Row(b" HYPERLINK \"a.doc\"", None),
    Row(b" HYPERLINK \"http\"", None),
    Row(b" HYPERLINK \"\\l\" \"http://a.b\"", None),
    Row(b" HYPERLINK ", None),
];

/// Whether each row is so.
fn are_so(rows: &[Row]) -> bool {
    for row in rows {
        if !leads(row.0, row.1) {
            return false;
        }
    }
    true
}

#[test]
fn links_lead_where_their_instructions_say(_rt: HostRuntime) -> Result<(), Fail> {
    assert!(_rt; are_so(&ROWS));
    Ok(())
}

/// The units of a name, and its anchor: letters and marks, a full stop, a letter of two bytes, a character of two
/// units, and a half of one.
const NAMES: [([u16; 3], &str); 5] = [
    ([0x61, 0x5F, 0x2D], "bm-a_-"),
    ([0x61, 0x2E, 0x62], "bm-a.2e.b"),
    ([0xE9, 0x9F, 0x20], "bm-é.9f..20."),
    ([0xD83D, 0xDE00, 0x41], "bm-😀A"),
    ([0xDE00, 0x3C, 0x26], "bm-.fffd..3c..26."),
];

/// Whether each name has its anchor.
fn are_anchors(rows: &[([u16; 3], &str)]) -> bool {
    for row in rows {
        if !spells(&mut anchor_of(&row.0), row.1) {
            return false;
        }
    }
    true
}

#[test]
fn names_have_their_anchors(_rt: HostRuntime) -> Result<(), Fail> {
    assert!(_rt; are_anchors(&NAMES));
    Ok(())
}
