// The files of a call.
ghost use Rattle.std.specs.Prelude.{◌≡◌, ◌≤◌, Some, None, option_map};
ghost use Rattle.std.specs.Prelude.{IfOk, OnOk, OnErr, IsErrOf};
ghost use Rattle.doc_outer.specs.Counts.{Rose, CountGoesOn};
ghost use Rattle.doc_outer.specs.Held.{file_at, held_with, OthersStay, Told, ReadsPart, IsAbsent};
ghost use Rattle.docbin_c.specs.Calls.{CallFiles, given_files};

use doc_bits::{Bytes, Memory};
use doc_outer::{PutFault, Shelf, ShelfFault, copy_part};
use std::alloc::Global;
use std::marker::Model;

/// The name of the first file in the words of a call.
pub(crate) const FIRST: &str = "first";

/// The name of the second file.
pub(crate) const SECOND: &str = "second";

/// The name under which a call puts bytes.
pub(crate) const OUT: &str = "out";

/// The bytes that a call is given, under their names. No read fails, and nothing can be put.
#[derive(Drop)]
pub(crate) struct GivenFiles {
    first: Bytes,
    second: Option<Bytes>,
    missed: u64,
}

impl Model for GivenFiles {
    ghost use Rattle.docbin_c.specs.Calls.{CallFiles, given_code};

    ghost Value = { CallFiles };

    ghost coded = { given_code };

    ghost view = { λ g. record { first = g.first; second = g.second; missed = g.missed } };
}

impl GivenFiles {
    /// One file.
    pub(crate) fn one(alloc: Global, first: &[u8]) -> Result<GivenFiles, Memory>
        ensures { IfOk result (λ g. g ≡ record { first = first.now; second = None; missed = 0 }) }
    {
        let first = Bytes::from_slice(alloc, first)?;
        Ok(GivenFiles {
            first,
            second: None,
            missed: 0,
        })
    }

    /// Two files.
    pub(crate) fn two(alloc: Global, first: &[u8], second: &[u8]) -> Result<GivenFiles, Memory>
        ensures { IfOk result (λ g. g ≡ record { first = first.now; second = Some second.now; missed = 0 }) }
    {
        let first = Bytes::from_slice(alloc, first)?;
        let second = Bytes::from_slice(alloc, second)?;
        Ok(GivenFiles {
            first,
            second: Some(second),
            missed: 0,
        })
    }

    /// What a name holds.
    fn find(&self, name: &str) -> Option<&[u8]>
        ensures { option_map (λ bytes. bytes.now) result ≡ file_at (given_files self.now) name.now }
    {
        if name == SECOND {
            return match &self.second {
                None => None,
                Some(second) => Some(second.as_slice()),
            };
        }
        if name == FIRST {
            return Some(self.first.as_slice());
        }
        None
    }
}

impl Shelf for GivenFiles {
    ghost held = { λ g. Some (given_files g) };

    ghost faults = { λ g. 0 };

    ghost put_faults = { λ g. 0 };

    ghost missed = { λ g. g.missed };

    /// Takes no memory.
    fn read_at(&mut self, name: &str, at: u64, buf: &mut [u8]) -> Result<usize, ShelfFault> {
        match self.find(name) {
            None => {
                self.missed = self.missed.saturating_add(1);
                Err(ShelfFault::Missing)
            }
            Some(all) => Ok(copy_part(all, at, buf)),
        }
    }

    /// There is no room for what is put.
    fn put(&mut self, _name: &str, _bytes: &[u8]) -> Result<(), PutFault> {
        Err(PutFault::Memory)
    }
}
