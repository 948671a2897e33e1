// What is said of a page.
ghost use Rattle.std.specs.Prelude.{◌≡◌, None, Some, MatchOption};
ghost use Rattle.doc_html.specs.Head.{identifier_in, language_in, language_of, later_language, style_value};

use doc_bits::get16;
use sprm_table::Code;
use style_sheet::{Kind, StyleSheet};

/// [MS-DOC] sprmCRgLid0_80 and sprmCRgLid0: the language of text that is not East Asian.
const LANGUAGE_80: Code = Code(0x486D);

const LANGUAGE: Code = Code(0x4873);

/// The language of style 0, by its identifier of [MS-LCID].
pub(crate) fn language_of(sheet: &StyleSheet) -> Option<u16>
    ensures { result ≡ language_of sheet.now }
{
    match sheet.get(0) {
        None => None,
        Some(style) => language_in(&style.kind),
    }
}

/// That of a style of this kind.
fn language_in(kind: &Kind) -> Option<u16>
    ensures { result ≡ language_in kind.now }
{
    match value_in(kind, LANGUAGE_80) {
        None => later_language(kind),
        Some(value) => identifier_in(value),
    }
}

/// The language of a style of this kind, as later versions write it.
fn later_language(kind: &Kind) -> Option<u16>
    ensures { result ≡ later_language kind.now }
{
    match value_in(kind, LANGUAGE) {
        None => None,
        Some(value) => identifier_in(value),
    }
}

/// The value of the character properties at a code.
fn value_in(kind: &Kind, code: Code) -> Option<&[u8]>
    ensures { MatchOption result (style_value kind.now code.0 ≡ None) (λ value. style_value kind.now code.0 ≡ Some
        value.now) }
{
    match kind {
        Kind::Para { chp, .. } => chp.get(code),
        Kind::Char { chp } => chp.get(code),
        Kind::Other { .. } => None,
    }
}

/// The identifier that a value is.
fn identifier_in(value: &[u8]) -> Option<u16>
    ensures { result ≡ identifier_in value.now }
{
    if value.len() == 2 {
        Some(get16(value, 0))
    } else {
        None
    }
}
