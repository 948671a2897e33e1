// The language of a page.
ghost use Rattle.std.specs.Prelude.{◌≡◌, ◌<◌, ◌∷◌, codes};
ghost use Rattle.std.specs.Str.{IsAscii};
ghost use Rattle.page_out.specs.Printed.{Prints};
ghost use Rattle.html_page.specs.Languages.{language_attributes, language_code};
ghost use Rattle.html_page.specs.Tags.{attribute, attributes_text};

use doc_outer::Sink;
use page_out::Page;

/// [ISO 639-1] The codes of the primary languages 1 to 45 of [MS-LCID].
const LANGUAGE_CODES: &[u8] =
    b"arbgcazhcsdadeelenesfifrhehuisitjakonlnoplptrmrorushsksqsvthtruridukbesletlvlttgfavihyazeu";

/// How many there are.
const LANGUAGE_COUNT: u16 = 45;

/// [MS-LCID] How many primary languages an identifier can name.
const PRIMARY_COUNT: u16 = 1024;

/// Puts the language of a page, by its identifier.
pub(crate) fn push_language<K: Sink>(page: &mut Page, out: &mut K, language: Option<u16>)
    ensures { Prints K.Sink out.old page.old out.new page.new (attributes_text (language_attributes language)) }
{
    let Some(identifier) = language else {
        return;
    };
    let primary = identifier % PRIMARY_COUNT;
    if 1 <= primary && primary <= LANGUAGE_COUNT {
        push_code(page, out, primary as usize - 1);
    }
}

/// Puts the code of the primary language with this number, from 0.
fn push_code<K: Sink>(page: &mut Page, out: &mut K, number: usize)
    requires { number < 45 }
    ensures { Prints K.Sink out.old page.old out.new page.new (32 ∷ attribute (codes "lang") (language_code number)) }
{
    page.push_ascii(out, b" lang=\"");
    page.push_ascii(out, language_code(number));
    page.push_ascii(out, b"\"");
}

/// The code of the primary language with this number, from 0.
fn language_code(number: usize) -> &'static [u8]
    requires { number < 45 }
    ensures is { result.now ≡ language_code number }
    ensures ascii { IsAscii result.now }
{
    &LANGUAGE_CODES[2 * number..2 * number + 2]
}
