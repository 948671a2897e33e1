// Rule 26: the parts of the table stream that the pairs of the FIB name.
ghost use Rattle.std.specs.Prelude.{◌≡◌, ◌↔◌, ◌<◌, ℕ, List, IsTrue};
ghost use Rattle.doc_bits.specs.Rules.{LeastOrNone};
ghost use Rattle.fib_form.specs.FibFields.{fib_fields};
ghost use Rattle.file_rules.specs.PairRules.{IsNeeded, IsWrongPart, HasWrongPart, BreaksPairs};

use doc_bits::lesser;
use fib_form::Fib;

/// The numbers of the pairs that are read.
const READ_PAIRS: [usize; 16] = [1, 2, 3, 6, 11, 12, 13, 15, 16, 17, 18, 31, 32, 33, 73, 74];

/// Where the FIB has its first pair, and the bytes of a pair.
pub(crate) const FIRST_PAIR: u32 = 154;

pub(crate) const PAIR_LEN: u32 = 8;

/// The first pair that names a wrong part, by its place in `WordDocument`.
pub(crate) fn wrong_pair(fib: &Fib, table_len: usize) -> Option<u32>
    ensures { (wd : List ℕ) → fib.now ≡ fib_fields wd → LeastOrNone (BreaksPairs wd table_len) result }
{
    let mut least = None;
    for k in 0..16 {
        least = lesser(least, wrong_read_pair(fib, table_len, k));
    }
    least
}

/// The k-th of the pairs that are read, by its place, where it names a wrong part.
fn wrong_read_pair(fib: &Fib, table_len: usize, k: usize) -> Option<u32>
    requires { k < 16 }
    ensures { (wd : List ℕ) → fib.now ≡ fib_fields wd → LeastOrNone (HasWrongPart wd table_len k) result }
{
    let n = READ_PAIRS[k];
    if is_wrong_part(fib.pair(n), n, table_len) {
        Some(FIRST_PAIR + PAIR_LEN * n as u32)
    } else {
        None
    }
}

/// Whether a part of this pair is not there as a whole, or is needed and empty.
fn is_wrong_part(pair: (u32, u32), n: usize, table_len: usize) -> bool
    ensures { IsTrue result ↔ IsWrongPart pair n table_len }
{
    if pair.1 == 0 {
        return is_needed(n);
    }
    table_len < pair.0 as usize + pair.1 as usize
}

/// Whether no document goes without the part.
fn is_needed(n: usize) -> bool
    ensures { IsTrue result ↔ IsNeeded n }
{
    n == 1 || n == 6 || n == 12 || n == 13 || n == 33
}
