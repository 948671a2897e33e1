// [MS-DOC] Plc: n + 1 CPs of 32 bits, then n entries of one size.
ghost use Rattle.std.specs.Prelude.{◌≡◌, ◌+◌, ◌*◌, ◌<◌, ◌≤◌};
ghost use Rattle.std.specs.Prelude.{ℕ, List, length, MatchOption, MatchResult};
ghost use Rattle.doc_bits.specs.Plc.{PlcPart, IsPlcOf, plc_cp, plc_entry};

use crate::get32;
use std::marker::Model;
use thiserror::Error;

/// The length is that of no whole number of entries.
#[derive(Clone, Copy, Debug, Error)]
pub enum PlcFault {
    #[error("the length is not that of a whole number of entries")]
    Length,
}

/// A CP table over the bytes of a part. Nothing is copied.
#[derive(Drop)]
pub struct Plc<'a> {
    bytes: &'a [u8],
    size: usize,
    len: usize,
}

impl<'a> Model for Plc<'a> {
    ghost use Rattle.std.specs.Prelude.{◌≡◌, ℕ, List, length};
    ghost use Rattle.doc_bits.specs.Plc.{PlcPart, IsPlcOf};

    ghost Value = { PlcPart };

    ghost view = { λ p. record { bytes = p.bytes.now; size = p.size; count = p.len } };

    ghost invariant = { λ p. IsPlcOf p.bytes.now p.size p.len };
}

/// Sees the bytes as a CP table with entries of `size` bytes.
pub fn plc_of(bytes: &[u8], size: usize) -> Result<Plc<'_>, PlcFault>
    ensures { MatchResult result
        (λ plc. (plc ≡ record { bytes = bytes.now; size = size; count = plc.count })
        × IsPlcOf bytes.now size plc.count)
        (λ _. (count : ℕ) → ¬ IsPlcOf bytes.now size count) }
{
    match entry_count(bytes, size) {
        Some(len) => Ok(Plc { bytes, size, len }),
        None => Err(PlcFault::Length),
    }
}

/// The number of entries of `size` bytes that bytes of this length have as a table.
fn entry_count(bytes: &[u8], size: usize) -> Option<usize>
    ensures { MatchOption result
        ((count : ℕ) → ¬ IsPlcOf bytes.now size count)
        (λ count. IsPlcOf bytes.now size count) }
{
    if bytes.len() < 4 {
        return None;
    }
    let room = bytes.len() - 4;
    if room == 0 {
        return Some(0);
    }
    if room < size || room - size < 4 || room % (4 + size) != 0 {
        return None;
    }
    Some(room / (4 + size))
}

impl<'a> Plc<'a> {
    /// The number of entries.
    pub fn len(&self) -> usize
        ensures { result ≡ self.now.count }
    {
        self.len
    }

    /// The CP of a place. There is one more of them than of entries.
    pub fn cp(&self, i: usize) -> u32
        requires { i ≤ self.now.count }
        ensures { result ≡ plc_cp self.now.bytes i }
    {
        get32(self.bytes, 4 * i)
    }

    /// The bytes of an entry.
    pub fn entry(&self, i: usize) -> &[u8]
        requires { i < self.now.count }
        ensures { result.now ≡ plc_entry self.now i }
    {
        let from = 4 * (self.len + 1) + self.size * i;
        &self.bytes[from..from + self.size]
    }
}
