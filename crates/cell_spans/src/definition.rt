// [MS-DOC] TDefTableOperand, behind the count of its bytes: NumberOfColumns, rgdxaCenter and rgTc80.
ghost use Rattle.std.specs.Prelude.{◌≡◌, ◌≤◌, ◌<◌, ◌+◌, ◌^◌};
ghost use Rattle.cell_spans.specs.Definition.{ascends, biased, cell_count, count_in, edge, flag, is_wide, number_in};
ghost use Rattle.cell_spans.specs.Definition.{right_definition};

use doc_bits::get16;

/// How many cells a row may have.
const MAX_CELLS: u8 = 63;

/// How many bytes a [MS-DOC] TC80 has.
const CELL_LEN: usize = 20;

/// How many edges are on the left of zero.
const BELOW_ZERO: u16 = 32_768;

/// How many cells a definition has: none where there are not as many edges.
fn cell_count(definition: &[u8]) -> usize
    ensures is { result ≡ cell_count definition.now }
    ensures few { result ≤ 63 }
{
    let len = definition.len();
    if len < 3 {
        return 0;
    }
    count_in(definition[0], len)
}

/// How many cells a definition of so many bytes has that names so many.
fn count_in(count: u8, len: usize) -> usize
    ensures is { result ≡ count_in count len }
    ensures few { result ≤ 63 }
{
    let number = count as usize;
    if count <= MAX_CELLS && 3 + 2 * number <= len {
        number
    } else {
        0
    }
}

/// The 16-bit number at a place, or 0.
fn number_in(definition: &[u8], at: usize) -> u16
    requires { at < 2 ^ 32 }
    ensures { result ≡ number_in definition.now at }
{
    if at + 2 <= definition.len() {
        get16(definition, at)
    } else {
        0
    }
}

/// A signed number, and 32,768 more.
fn biased(value: u16) -> u16
    ensures { result ≡ biased value }
{
    if value < BELOW_ZERO {
        value + BELOW_ZERO
    } else {
        value - BELOW_ZERO
    }
}

/// The edge of a row with this number, from 0, as a number that is 32,768 more.
pub(crate) fn edge(definition: &[u8], number: usize) -> u16
    ensures { result ≡ edge definition.now number }
{
    if cell_count(definition) < number {
        return 0;
    }
    biased(number_in(definition, 1 + 2 * number))
}

/// A definition whose edges ascend; one of others says nothing.
pub(crate) fn right_definition(definition: &[u8]) -> &[u8]
    ensures { result.now ≡ right_definition definition.now }
{
    if ascends(definition, cell_count(definition)) {
        definition
    } else {
        &[]
    }
}

/// Whether so many edges are each behind the one before.
fn ascends(definition: &[u8], count: usize) -> bool
    requires { count ≤ 63 }
    ensures { result ≡ ascends definition.now count }
{
    for number in 0..count {
        if !is_wide(definition, number) {
            return false;
        }
    }
    true
}

/// Whether the edge on the right of a cell is behind the one on its left.
fn is_wide(definition: &[u8], cell: usize) -> bool
    requires { cell ≤ 63 }
    ensures { result ≡ is_wide definition.now cell }
{
    edge(definition, cell) < edge(definition, cell + 1)
}

/// Whether the [MS-DOC] TCGRF of a cell has the bit of this weight.
pub(crate) fn flag(definition: &[u8], cell: usize, weight: u16) -> bool
    requires { 0 < weight }
    ensures { result ≡ flag definition.now cell weight }
{
    let count = cell_count(definition);
    if count <= cell {
        return false;
    }
    number_in(definition, 3 + 2 * count + CELL_LEN * cell) / weight % 2 == 1
}
