ghost use Rattle.std.specs.Prelude.{◌≡◌, ℕ, ◌<◌, List, length, ◌++◌};
ghost use Rattle.std.specs.Prelude.{take, drop, flat_map, slice_set, ◌≤◌};
ghost use Rattle.fib_form.specs.Fib.{kept_pairs};
ghost use Rattle.fib_form.specs.FibFields.{listed_pair, empty_pairs};
ghost use Rattle.fib_form.specs.FibBytes.{fc_lcb_bytes, zeros};

use crate::offsets::{PAIR_COUNT, RG_FC_LCB};
use doc_bits::put32;
use std::marker::Model;

/// The pairs of a FIB, by their numbers: where each part begins in the table stream, and its length in bytes.
#[derive(Drop)]
pub struct Pairs {
    items: [(u32, u32); PAIR_COUNT],
}

impl Model for Pairs {
    ghost use Rattle.std.specs.Prelude.{◌≡◌, ℕ, List, length, All};
    ghost use Rattle.fib_form.specs.Fib.{kept_pairs};
    ghost use Rattle.fib_form.specs.FibFields.{IsWidePair};

    ghost Value = { List (ℕ × ℕ) };

    ghost view = { λ p. p.items };

    ghost invariant = { λ p. (length p.items ≡ kept_pairs) × All IsWidePair p.items };
}

impl Pairs {
    /// Empty pairs.
    pub fn new() -> Pairs
        ensures { result ≡ empty_pairs }
    {
        Pairs {
            items: [(0, 0); PAIR_COUNT],
        }
    }

    /// Puts the place and the length of part `n`. All other pairs stay.
    pub fn put(&mut self, n: usize, fc: u32, lcb: u32)
        requires { n < kept_pairs }
        ensures { self.new ≡ slice_set self.old n (fc, lcb) }
    {
        self.items[n] = (fc, lcb);
    }

    /// The place and the length of part `n`.
    pub(crate) fn get(&self, n: usize) -> (u32, u32)
        requires { n < kept_pairs }
        ensures { result ≡ listed_pair self.now n }
    {
        self.items[n]
    }

    /// A copy of the pairs.
    pub(crate) fn copy(&self) -> Pairs
        ensures { result ≡ self.now }
    {
        Pairs { items: self.items }
    }

    /// Writes the pairs at their places in a FIB, over zeros.
    pub(crate) fn write(&self, out: &mut [u8])
        requires size { 898 ≤ length out.old }
        requires clear { drop 154 out.old ≡ zeros 744 ++ drop 898 out.old }
        ensures { out.new ≡ take 154 out.old ++ (flat_map fc_lcb_bytes self.now ++ drop 898 out.old) }
    {
        for n in 0..PAIR_COUNT {
            let (fc, lcb) = self.items[n];
            put32(out, RG_FC_LCB + 8 * n, fc);
            put32(out, RG_FC_LCB + 8 * n + 4, lcb);
        }
    }
}
