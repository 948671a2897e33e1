// The schemes of URLs to which a page leads.
ghost use Rattle.std.specs.Prelude.{◌≡◌};
ghost use Rattle.field_links.specs.Urls.{begins, has_scheme, lower_case_unit};
ghost use Rattle.field_links.specs.Kept.{word_units};

use crate::word::FieldWord;

/// Whether an address begins with one of the five schemes, in letters of any case.
pub(crate) fn has_scheme(address: &FieldWord<'_>) -> bool
    ensures { result ≡ has_scheme (word_units address.now) }
{
    begins(address, b"http:")
        || begins(address, b"https:")
        || begins(address, b"mailto:")
        || begins(address, b"ftp:")
        || begins(address, b"tel:")
}

/// Whether an address begins with a scheme, in letters of any case.
fn begins(address: &FieldWord<'_>, scheme: &[u8]) -> bool
    ensures { result ≡ begins scheme.now (word_units address.now) }
{
    let mut rest = *address;
    for letter in scheme {
        let Some((unit, more)) = rest.next_unit() else {
            return false;
        };
        if lower(unit) != *letter as u16 {
            return false;
        }
        rest = more;
    }
    true
}

/// A letter of ASCII in lower case, another unit as it is.
fn lower(unit: u16) -> u16
    ensures { result ≡ lower_case_unit unit }
{
    if unit >= 65 && unit <= 90 {
        unit + 32
    } else {
        unit
    }
}
