// The tokens of a page, as they are printed.
ghost use Rattle.std.specs.Prelude.{◌≡◌, [], ◌∷◌, codes, if◌then◌else◌};
ghost use Rattle.std.specs.Fmt.{decimal};
ghost use Rattle.doc_pictures.specs.Files.{image_files};
ghost use Rattle.std.specs.Char.{IsScalar};
ghost use Rattle.std.specs.Str.{IsAscii};
ghost use Rattle.page_out.specs.Printed.{Prints};
ghost use Rattle.html_text.specs.Tokens.{printed, Character};
ghost use Rattle.html_page.specs.Pages.{back_tokens, characters, close_tokens, end, end_tokens, front_tokens, image};
ghost use Rattle.html_page.specs.Pages.{meta_tokens, open_tokens, other_tokens, page_break_tokens, start_tokens};
ghost use Rattle.html_page.specs.Pages.{style_tokens};

use crate::attributes::push_attributes;
use crate::images::push_picture;
use crate::language::push_language;
use crate::names::{ends_line, has_tags, name_of};
use doc_columns::ColumnDocument;
use doc_outer::Sink;
use doc_pictures::{Images, name_at};
use html_text::reference;
use page_out::Page;
use view_places::{Element, Glyph};

/// Puts what is before the title of a page in a language.
pub(crate) fn push_front<K: Sink>(page: &mut Page, out: &mut K, language: Option<u16>)
    ensures { Prints K.Sink out.old page.old out.new page.new (printed (front_tokens language)) }
{
    page.push_ascii(out, b"<!DOCTYPE html>\n<html");
    push_language(page, out, language);
    push_metas(page, out);
}

/// Puts what is between the language and the title.
fn push_metas<K: Sink>(page: &mut Page, out: &mut K)
    ensures { Prints K.Sink out.old page.old out.new page.new (62 ∷ 10 ∷ printed meta_tokens) }
{
    page.push_ascii(out, b">\n<head>\n<meta charset=\"utf-8\">\n");
    page.push_ascii(
        out,
        b"<meta name=\"viewport\" content=\"width=device-width,initial-scale=1\">\n<title>",
    );
}

/// Puts what is between the title and the text.
pub(crate) fn push_style<K: Sink>(page: &mut Page, out: &mut K)
    ensures { Prints K.Sink out.old page.old out.new page.new (printed style_tokens) }
{
    page.push_ascii(
        out,
        b"</title>\n<style>p,h1,h2,h3,h4,h5,h6{white-space:pre-wrap}",
    );
    page.push_ascii(out, b"td p,th p{margin:0}table{border-collapse:collapse}");
    page.push_ascii(
        out,
        b"td,th{border:1px solid;padding:.2em;vertical-align:top}</style>\n</head>\n<body>\n",
    );
}

/// Puts what is behind the text.
pub(crate) fn push_back<K: Sink>(page: &mut Page, out: &mut K)
    ensures { Prints K.Sink out.old page.old out.new page.new (printed back_tokens) }
{
    page.push_ascii(out, b"</body>\n</html>\n");
}

/// Puts a character.
pub(crate) fn push_character<K: Sink>(page: &mut Page, out: &mut K, code: u32)
    requires { IsScalar code }
    ensures { Prints K.Sink out.old page.old out.new page.new (printed (Character code ∷ [])) }
{
    match reference(code) {
        Some(text) => page.push_ascii(out, text),
        None => page.push_char(out, code),
    }
}

/// Puts the start of an element of a page of the document, where it has tags.
pub(crate) fn push_open<K: Sink>(
    page: &mut Page,
    out: &mut K,
    document: &ColumnDocument,
    element: Element,
)
    ensures { Prints K.Sink out.old page.old out.new page.new (printed (open_tokens document.now element)) }
{
    if has_tags(element) {
        push_start(page, out, document, element);
    }
}

/// Puts the start tag of an element.
fn push_start<K: Sink>(page: &mut Page, out: &mut K, document: &ColumnDocument, element: Element)
    ensures { Prints K.Sink out.old page.old out.new page.new (printed (start_tokens document.now element)) }
{
    page.push_ascii(out, b"<");
    page.push_ascii(out, name_of(element));
    push_attributes(page, out, document, element);
    page.push_ascii(out, b">");
}

/// Puts the end of an element, where it has tags.
pub(crate) fn push_close<K: Sink>(page: &mut Page, out: &mut K, element: Element)
    ensures { Prints K.Sink out.old page.old out.new page.new (printed (close_tokens element)) }
{
    if has_tags(element) {
        push_end_line(page, out, element);
    }
}

/// Puts the end tag of an element, and the end of the line behind it.
fn push_end_line<K: Sink>(page: &mut Page, out: &mut K, element: Element)
    ensures { Prints K.Sink out.old page.old out.new page.new (printed (end_tokens element)) }
{
    push_end(page, out, name_of(element));
    push_line(page, out, ends_line(element));
}

/// Puts the end of a line, where one ends.
fn push_line<K: Sink>(page: &mut Page, out: &mut K, ends: bool)
    ensures { Prints K.Sink out.old page.old out.new page.new
        (printed (if ends then Character 10 ∷ [] else [])) }
{
    if ends {
        page.push_ascii(out, b"\n");
    }
}

/// Puts an end tag.
fn push_end<K: Sink>(page: &mut Page, out: &mut K, name: &[u8])
    requires { IsAscii name.now }
    ensures { Prints K.Sink out.old page.old out.new page.new (printed (end name.now ∷ [])) }
{
    page.push_ascii(out, b"</");
    page.push_ascii(out, name);
    page.push_ascii(out, b">");
}

/// Puts a glyph that is no unit. A picture is named by its file, where it has one.
pub(crate) fn push_other<K: Sink>(page: &mut Page, out: &mut K, images: &Images<'_>, glyph: Glyph)
    ensures { Prints K.Sink out.old page.old out.new page.new (printed (other_tokens (image_files images.now) glyph)) }
{
    match glyph {
        Glyph::Unit(_) => {}
        Glyph::Tab => page.push_ascii(out, b"\t"),
        Glyph::LineBreak => page.push_ascii(out, b"<br>"),
        Glyph::PageBreak => push_page_break(page, out),
        Glyph::NoteMark(number) => push_mark(page, out, number),
        Glyph::Picture(place) => {
            push_picture(page, out, images.folder, name_at(images.pictures, place))
        }
        Glyph::Object => push_object(page, out),
    }
}

/// Puts the break of a page.
fn push_page_break<K: Sink>(page: &mut Page, out: &mut K)
    ensures { Prints K.Sink out.old page.old out.new page.new (printed page_break_tokens) }
{
    page.push_ascii(out, b"<br style=\"break-after:page\">");
}

/// Puts the number of a note.
fn push_mark<K: Sink>(page: &mut Page, out: &mut K, number: u32)
    ensures { Prints K.Sink out.old page.old out.new page.new (printed (characters (decimal number))) }
{
    page.push_number(out, number as u64);
}

/// Puts what represents an object.
fn push_object<K: Sink>(page: &mut Page, out: &mut K)
    ensures { Prints K.Sink out.old page.old out.new page.new (printed (image (codes "object"))) }
{
    page.push_ascii(
        out,
        b"<span role=\"img\" aria-label=\"object\">[object]</span>",
    );
}
