// The early FIB that a stream gets in place of its own.
ghost use Rattle.std.specs.Prelude.{◌≡◌, ◌<◌, ◌≤◌, ◌^◌, ◌==◌, length};
ghost use Rattle.std.specs.List.{list_any};
ghost use Rattle.fib_form.specs.FibFields.{ArePairs};
ghost use Rattle.fib_versions.specs.Early.{part_pairs, early_pair, early_pairs, early_fields};

use crate::AnyFib;
use doc_bits::get32;
use fib_form::{Fib, Form, KeptFib, PAIR_COUNT, Pairs, RG_FC_LCB};

/// The numbers of the pairs of the parts that are read or carried.
const PART_PAIRS: [usize; 19] = [
    1, 2, 3, 6, 11, 12, 13, 15, 16, 17, 18, 21, 22, 23, 31, 32, 33, 73, 74,
];

impl<'a> AnyFib<'a> {
    /// The pairs of the early FIB: those of the parts that are read or carried, and empty ones for all others.
    pub fn early_pairs(&self) -> Pairs
        ensures pairs { result ≡ early_pairs self.now }
        ensures are { ArePairs result }
    {
        let mut pairs = Pairs::new();
        for n in 0..PAIR_COUNT {
            let pair = early_pair(self.wd, n);
            pairs.put(n, pair.0, pair.1);
        }
        pairs
    }

    /// The early FIB with these pairs. The counts, the languages and the kept flags are those of the stream.
    pub fn early(&self, pairs: &Pairs) -> Fib
        requires small { length self.now < 2 ^ 32 }
        requires pairs { ArePairs pairs.now }
        ensures { result ≡ early_fields self.now pairs.now }
    {
        Fib::made(
            Form::Early,
            KeptFib::of(self.wd),
            self.wd.len() as u32,
            self.ccps(),
            pairs,
        )
    }
}

/// A pair of the early FIB of a stream.
fn early_pair(wd: &[u8], n: usize) -> (u32, u32)
    requires size { 900 ≤ length wd.now }
    requires pair { n < 93 }
    ensures { result ≡ early_pair wd.now n }
{
    if !is_part_pair(n) {
        return (0, 0);
    }
    let place = RG_FC_LCB + 8 * n;
    (get32(wd, place), get32(wd, place + 4))
}

/// Whether pair `n` names a part that is read or carried.
pub fn is_part_pair(n: usize) -> bool
    ensures { result ≡ list_any (λ part. part == n) part_pairs }
{
    PART_PAIRS.contains(&n)
}
