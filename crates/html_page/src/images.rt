// Pictures, as images of their files.
ghost use Rattle.std.specs.Prelude.{◌≡◌, ◌++◌, Some, codes};
ghost use Rattle.page_out.specs.Printed.{Prints};
ghost use Rattle.html_text.specs.Tokens.{escaped_text, printed};
ghost use Rattle.doc_pictures.specs.Names.{picture_name};
ghost use Rattle.html_page.specs.Images.{coded_byte, is_path_byte, path_byte, path_url};
ghost use Rattle.html_page.specs.Pages.{image, picture_tokens};

use crate::tokens::push_character;
use doc_outer::Sink;
use doc_pictures::{PictureName, suffix_of};
use field_links::{is_alphanumeric, upper_hex_digit};
use page_out::Page;

/// Puts a picture: the image of its file in a folder, or what represents one without a file.
pub(crate) fn push_picture<K: Sink>(
    page: &mut Page,
    out: &mut K,
    folder: &str,
    name: Option<PictureName>,
)
    ensures { Prints K.Sink out.old page.old out.new page.new (printed (picture_tokens folder.now name)) }
{
    match name {
        None => push_absent(page, out),
        Some(name) => push_image(page, out, folder, name),
    }
}

/// Puts what represents a picture without a file.
fn push_absent<K: Sink>(page: &mut Page, out: &mut K)
    ensures { Prints K.Sink out.old page.old out.new page.new (printed (image (codes "picture"))) }
{
    page.push_ascii(
        out,
        b"<span role=\"img\" aria-label=\"picture\">[picture]</span>",
    );
}

/// Puts the image of a file in a folder.
fn push_image<K: Sink>(page: &mut Page, out: &mut K, folder: &str, name: PictureName)
    ensures { Prints K.Sink out.old page.old out.new page.new (printed (picture_tokens folder.now (Some name))) }
{
    page.push_ascii(out, b"<img src=\"");
    push_path(page, out, folder.as_bytes());
    push_name(page, out, name);
    page.push_ascii(out, b"\" alt=\"\">");
}

/// Puts the name of a file behind its folder.
fn push_name<K: Sink>(page: &mut Page, out: &mut K, name: PictureName)
    ensures { Prints K.Sink out.old page.old out.new page.new
        (codes "/" ++ picture_name name.number name.kind) }
{
    page.push_ascii(out, b"/picture-");
    page.push_number(out, name.number as u64);
    page.push_ascii(out, b".");
    page.push_ascii(out, suffix_of(name.kind).as_bytes());
}

/// Puts a path as it is in a URL.
fn push_path<K: Sink>(page: &mut Page, out: &mut K, path: &[u8])
    ensures { Prints K.Sink out.old page.old out.new page.new (escaped_text (path_url path.now)) }
{
    for byte in path {
        push_byte(page, out, *byte);
    }
}

/// Puts a byte of a path.
fn push_byte<K: Sink>(page: &mut Page, out: &mut K, byte: u8)
    ensures { Prints K.Sink out.old page.old out.new page.new (escaped_text (path_byte byte)) }
{
    if is_path_byte(byte) {
        push_character(page, out, byte as u32);
        return;
    }
    push_coded(page, out, byte);
}

/// Puts a byte in two digits, behind a percent sign.
fn push_coded<K: Sink>(page: &mut Page, out: &mut K, byte: u8)
    ensures { Prints K.Sink out.old page.old out.new page.new (escaped_text (coded_byte byte)) }
{
    push_character(page, out, 0x25);
    push_character(page, out, upper_hex_digit(byte / 16) as u32);
    push_character(page, out, upper_hex_digit(byte % 16) as u32);
}

/// Whether a byte of a path represents itself.
fn is_path_byte(byte: u8) -> bool
    ensures { result ≡ is_path_byte byte }
{
    is_alphanumeric(byte as u32) || matches!(byte, 0x2D | 0x2E | 0x5F | 0x7E | 0x2F)
}
