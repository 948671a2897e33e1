// Where links lead in Markdown.
ghost use Rattle.std.specs.Prelude.{◌≡◌, None, Some, MatchOption};
ghost use Rattle.link_targets.specs.Links.{url_in as url_of};
ghost use Rattle.markdown_page.specs.Destinations.{address_at, address_in, address_of, is_local};

use doc_columns::ColumnDocument;
use field_links::LinkText;
use link_targets::{instruction_of, url_in};
use view_places::{Element, Link};

/// The address that an element leads to, where it is a link.
pub(crate) fn address_at(document: &ColumnDocument, element: Element) -> Option<LinkText<'_>>
    ensures { MatchOption result
        (address_at document.now element ≡ None)
        (λ url. address_at document.now element ≡ Some url) }
{
    match element {
        Element::Link(link) => address_of(document, link),
        _ => None,
    }
}

/// That of a link.
fn address_of(document: &ColumnDocument, link: Link) -> Option<LinkText<'_>>
    ensures { MatchOption result
        (address_of document.now link ≡ None)
        (λ url. address_of document.now link ≡ Some url) }
{
    address_in(instruction_of(document, link))
}

/// That of an instruction.
fn address_in(instruction: &[u16]) -> Option<LinkText<'_>>
    ensures { MatchOption result
        (address_in (url_of instruction.now) ≡ None)
        (λ url. address_in (url_of instruction.now) ≡ Some url) }
{
    match url_in(instruction) {
        None => None,
        Some(url) => {
            if is_local(url) {
                None
            } else {
                url_in(instruction)
            }
        }
    }
}

/// Whether a number sign is first.
fn is_local(url: LinkText<'_>) -> bool
    ensures { result ≡ is_local url.entry }
{
    let mut left = url;
    match left.next_char() {
        None => false,
        Some(first) => first == '#',
    }
}
