// Units that are put together.
ghost use Rattle.std.specs.Prelude.{◌≡◌, ℕ, ◌<◌, ◌≤◌, true, not, length, slice_index, if◌then◌else◌};
ghost use Rattle.markdown_page.specs.Runs.{goes_on, is_closed_seam, is_open_line, is_plain, is_within_line};
ghost use Rattle.markdown_page.specs.Shape.{is_white};

use crate::context::{Context, Seam};
use crate::shape::is_white;
use markdown_text::LineState;

/// Whether a line and what is before a place let units be written as they are.
pub(crate) fn is_open(line: LineState, context: &Context) -> bool
    ensures { result ≡ is_open_line line context.now }
{
    is_within(line) && context.half.is_none() && !is_closed(context.seam)
}

/// Whether a line has text.
fn is_within(line: LineState) -> bool
    ensures { result ≡ is_within_line line }
{
    match line {
        LineState::Within => true,
        LineState::Start | LineState::Digits | LineState::Bracket | LineState::Colon => false,
    }
}

/// Whether an emphasis ended there.
fn is_closed(seam: Seam) -> bool
    ensures { result ≡ is_closed_seam seam }
{
    match seam {
        Seam::Closed => true,
        Seam::Other | Seam::Word => false,
    }
}

/// Where the units end that go on behind one that is white space or none, in emphasis or not.
pub(crate) fn run_end(units: &[u16], from: usize, in_emphasis: bool, space: bool) -> usize
    requires { from < length units.now }
    ensures ahead { from < result }
    ensures within { result ≤ length units.now }
    ensures units { (k : ℕ) → from < k → k < result → goes_on in_emphasis space (slice_index units.now k) ≡ true }
{
    let len = units.len();
    for k in from + 1..len {
        if !goes_on(in_emphasis, space, units[k]) {
            return k;
        }
    }
    len
}

/// Whether a unit goes on behind one that is white space or none, in emphasis or not.
#[inline(always)]
fn goes_on(in_emphasis: bool, space: bool, unit: u16) -> bool
    ensures { result ≡ goes_on in_emphasis space unit }
{
    is_plain(unit) && (!in_emphasis || is_alike(space, unit))
}

/// Whether a unit is white space, or whether it is none.
fn is_alike(space: bool, unit: u16) -> bool
    ensures { result ≡ (if space then is_white unit else not (is_white unit)) }
{
    if space {
        is_white(unit)
    } else {
        !is_white(unit)
    }
}

/// Whether a character is written as it is within a line, and leaves it so.
#[inline(always)]
fn is_plain(unit: u16) -> bool
    ensures { result ≡ is_plain unit }
{
    !LineState::Within.is_special(unit as u32) && unit != 0x3A
}
