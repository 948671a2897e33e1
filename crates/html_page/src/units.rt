// Units that are characters, put together.
ghost use Rattle.std.specs.Prelude.{◌≡◌, ℕ, ◌<◌, ◌≤◌, false, length, slice_index, slice_range};
ghost use Rattle.std.specs.Char.{IsScalar};
ghost use Rattle.std.specs.List.{All};
ghost use Rattle.html_text.specs.Tokens.{printed};
ghost use Rattle.page_out.specs.Printed.{Prints};
ghost use Rattle.html_page.specs.Pages.{characters, is_referred};

use crate::tokens::push_character;
use doc_outer::Sink;
use page_out::Page;

/// Puts units of which each is a character.
pub(crate) fn push_units<K: Sink>(page: &mut Page, out: &mut K, units: &[u16])
    requires { All IsScalar units.now }
    ensures { Prints K.Sink out.old page.old out.new page.new (printed (characters units.now)) }
{
    let mut done = 0;
    while done < units.len() {
        done = push_some(page, out, units, done);
    }
}

/// Puts the units from a place on that represent themselves together, or else one, and answers where they end.
fn push_some<K: Sink>(page: &mut Page, out: &mut K, units: &[u16], from: usize) -> usize
    requires characters { All IsScalar units.now }
    requires within { from < length units.now }
    ensures ahead { from < result }
    ensures within { result ≤ length units.now }
    ensures puts { Prints K.Sink out.old page.old out.new page.new
        (printed (characters (slice_range units.now from result))) }
{
    let end = plain_end(units, from);
    if end == from {
        push_character(page, out, units[from] as u32);
        return from + 1;
    }
    page.push_units(out, &units[from..end]);
    end
}

/// Where the units end that represent themselves, from a place on.
fn plain_end(units: &[u16], from: usize) -> usize
    requires { from ≤ length units.now }
    ensures ahead { from ≤ result }
    ensures within { result ≤ length units.now }
    ensures plain { (k : ℕ) → from ≤ k → k < result → is_referred (slice_index units.now k) ≡ false }
{
    let len = units.len();
    for k in from..len {
        if is_referred(units[k]) {
            return k;
        }
    }
    len
}

/// Whether a reference represents a character.
#[inline(always)]
fn is_referred(unit: u16) -> bool
    ensures { result ≡ is_referred unit }
{
    matches!(unit, 0x26 | 0x3C | 0x3E | 0x22)
}
