ghost use Rattle.std.specs.Prelude.{◌≡◌, ◌+◌, ◌<◌, ◌≤◌, ℕ, true, false, length, slice_index, IsTrue};
ghost use Rattle.text_codes.specs.Paragraph.{is_paragraph_end};

/// The unit of a paragraph mark.
pub const PARAGRAPH_MARK: u16 = 0x0D;

/// The unit of a cell mark and of a row mark.
pub const CELL_MARK: u16 = 0x07;

/// The unit that ends a section where one ends there.
pub const SECTION_MARK: u16 = 0x0C;

/// The number of units that are looked at together.
pub(crate) const PART_LEN: usize = 16;

/// Whether a unit ends a paragraph. `section_end` says that a section ends at the unit.
pub fn ends_paragraph(unit: u16, section_end: bool) -> bool
    ensures { result ≡ is_paragraph_end unit section_end }
{
    unit == PARAGRAPH_MARK || unit == CELL_MARK || (unit == SECTION_MARK && section_end)
}

/// How many units are before the first that ends a paragraph wherever it is; all of them where none does.
pub fn bare_len(units: &[u16]) -> usize
    ensures within { result ≤ length units.now }
    ensures bare { (k : ℕ) → k < result → is_paragraph_end (slice_index units.now k) false ≡ false }
    ensures ends { result < length units.now → is_paragraph_end (slice_index units.now result) false ≡ true }
{
    let above = above_len(units);
    first_end(units, above)
}

/// How many units are in the parts at the front that have no unit as low as a mark.
fn above_len(units: &[u16]) -> usize
    ensures within { result ≤ length units.now }
    ensures bare { (k : ℕ) → k < result → is_paragraph_end (slice_index units.now k) false ≡ false }
{
    let mut done = 0;
    while units.len() - done >= PART_LEN {
        if !is_above(units, done) {
            return done;
        }
        done += PART_LEN;
    }
    done
}

/// Whether no unit of the part from a place on is as low as a mark.
fn is_above(units: &[u16], at: usize) -> bool
    requires { at + PART_LEN ≤ length units.now }
    ensures { IsTrue result → (k : ℕ) → at ≤ k → k < at + PART_LEN
        → is_paragraph_end (slice_index units.now k) false ≡ false }
{
    least(units, at) > PARAGRAPH_MARK
}

/// The least unit of the part from a place on.
fn least(units: &[u16], at: usize) -> u16
    requires { at + PART_LEN ≤ length units.now }
    ensures { (j : ℕ) → j < PART_LEN → result ≤ slice_index units.now (at + j) }
{
    let mut low = u16::MAX;
    for j in 0..PART_LEN {
        low = units[at + j].min(low);
    }
    low
}

/// The place of the first unit from one on that ends a paragraph wherever it is, or the number of units.
fn first_end(units: &[u16], from: usize) -> usize
    requires { from ≤ length units.now }
    ensures within { result ≤ length units.now }
    ensures bare { (k : ℕ) → from ≤ k → k < result → is_paragraph_end (slice_index units.now k) false ≡ false }
    ensures ends { result < length units.now → is_paragraph_end (slice_index units.now result) false ≡ true }
{
    for k in from..units.len() {
        if ends_alone(units[k]) {
            return k;
        }
    }
    units.len()
}

/// Whether a unit ends a paragraph wherever it is. Most units are told by one comparison.
#[inline(always)]
fn ends_alone(unit: u16) -> bool
    ensures { result ≡ is_paragraph_end unit false }
{
    if unit > PARAGRAPH_MARK {
        return false;
    }
    ends_paragraph(unit, false)
}
