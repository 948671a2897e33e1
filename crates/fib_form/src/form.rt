// The two forms of the FIB.
ghost use Rattle.std.specs.Prelude.{◌≡◌, ◌≤◌};
ghost use Rattle.fib_form.specs.Fib.{form_size, form_pairs};

use crate::offsets::{EARLY_PAIRS, EARLY_SIZE, LATER_PAIRS, LATER_SIZE};

/// A form of the FIB: of 900 bytes with cbRgFcLcb 0x5D, or of 1,024 bytes with cbRgFcLcb 0x6C and nFibNew 0x00D9.
#[derive(Clone, Copy)]
pub enum Form {
    Early,
    Later,
}

impl Form {
    /// Its size in bytes.
    pub(crate) fn size(self) -> usize
        ensures value { result ≡ form_size self }
        ensures least { 900 ≤ result }
        ensures most { result ≤ 1024 }
    {
        match self {
            Form::Early => EARLY_SIZE,
            Form::Later => LATER_SIZE,
        }
    }

    /// Its number of pairs.
    pub(crate) fn pairs(self) -> u16
        ensures { result ≡ form_pairs self }
    {
        match self {
            Form::Early => EARLY_PAIRS,
            Form::Later => LATER_PAIRS,
        }
    }
}
