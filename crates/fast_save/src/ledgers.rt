// The ledgers of a session: what decides whether a fast save is refused.
ghost use Rattle.std.specs.Prelude.{◌≡◌, ◌↔◌, ◌≤◌, false};
ghost use Rattle.edit_ops.specs.Codes.{HasValidCodes};
ghost use Rattle.fast_save.specs.Ledgers.{saturating_sum as raised_count, after_edit as counts_after_edit};
ghost use Rattle.fast_save.specs.Ledgers.{after_fast as counts_after_fast, sector_bound as bound_of_sectors};
ghost use Rattle.fast_save.specs.Ledgers.{modifier_bytes as bytes_of_modifier, ledgers_of, AreCountsOf};
ghost use Rattle.fast_save.specs.Ledgers.{longest_modifier as longest_printed, AreUnmodified};

use crate::reckoned::{is_formatting, modifier_growth, most_runs, sections_set};
use edit_ops::Command;
use piece_table::PieceList;

/// The most pieces that one command adds.
const MAX_PIECES_ADDED: u64 = 4;

/// What a session counts. A fast save is refused by these numbers and the table stream of a full save alone, so that a
/// refusal can be told beforehand.
#[derive(Clone, Copy)]
pub struct Counts {
    /// The most pieces.
    pub pieces: u64,
    /// Whether a piece may have a modifier.
    pub modified: bool,
    /// The most bytes of a printed modifier.
    pub printed: u64,
    /// The most sectors of the file.
    pub sectors: u64,
    /// The most bytes of its bin tables.
    pub bin_bytes: u64,
    /// Units that were added since the last save.
    pub units: u64,
    /// Sections that were set since then.
    pub sections: u64,
    /// Runs that are reckoned for what was added since then.
    pub runs: u64,
}

/// The numbers that decide whether a fast save is refused.
#[derive(Clone, Copy, PartialEq, Eq)]
pub struct Ledgers {
    /// The most pieces.
    pub pieces: u64,
    /// The most bytes that a save writes for the modifier of a piece.
    pub modifier_bytes: u64,
    /// The most sectors of the file.
    pub sectors: u64,
    /// The most bytes of its bin tables.
    pub bin_bytes: u64,
    /// Units that were added since the last save.
    pub units: u64,
    /// Sections that were set since then.
    pub sections: u64,
    /// Runs that are reckoned for what was added since then.
    pub runs: u64,
    /// The bytes of the table stream in a full save of the document.
    pub table_bytes: u64,
}

impl Counts {
    /// The counts of a file with these pieces, of so many sectors, whose bin tables have so many bytes.
    pub(crate) fn of_file(pieces: &PieceList, sectors: u64, bin_bytes: u64) -> Counts
        ensures { AreCountsOf pieces.now.pieces sectors bin_bytes result }
    {
        Counts {
            pieces: pieces.len() as u64,
            modified: has_modifier(pieces),
            printed: most_printed(pieces),
            sectors,
            bin_bytes,
            units: 0,
            sections: 0,
            runs: 0,
        }
    }

    /// The counts after an accepted edit that adds so many units.
    pub(crate) fn after_edit(self, command: &Command, units: u32) -> Counts
        requires { HasValidCodes command.now }
        ensures { result ≡ counts_after_edit command.now units self }
    {
        Counts {
            pieces: saturating_sum(self.pieces, MAX_PIECES_ADDED),
            modified: self.modified || is_formatting(command),
            printed: saturating_sum(self.printed, modifier_growth(command)),
            sectors: self.sectors,
            bin_bytes: self.bin_bytes,
            units: saturating_sum(self.units, units as u64),
            sections: saturating_sum(self.sections, sections_set(command)),
            runs: saturating_sum(self.runs, most_runs(command)),
        }
    }

    /// The counts after a fast save that is reckoned to leave so many sectors.
    pub(crate) fn after_fast(self, sectors: u64) -> Counts
        ensures { result ≡ counts_after_fast sectors self }
    {
        let grown = saturating_sum(self.runs.saturating_mul(16), 256);
        Counts {
            pieces: self.pieces,
            modified: self.modified,
            printed: self.printed,
            sectors,
            bin_bytes: saturating_sum(self.bin_bytes, grown),
            units: 0,
            sections: 0,
            runs: 0,
        }
    }

    /// The bytes that the modifier of a piece may need.
    pub(crate) fn modifier_bytes(&self) -> u64
        ensures value { result ≡ bytes_of_modifier self.now }
        ensures bound { result ≤ 788 }
    {
        if self.modified {
            self.printed.saturating_add(46).min(788)
        } else {
            0
        }
    }

    /// The most sectors of the file after a fast save, where a full save has so many bytes in its table stream.
    pub(crate) fn sector_bound(&self, table_bytes: u64) -> u64
        ensures { result ≡ bound_of_sectors self.now table_bytes }
    {
        let of_pieces = (12 + self.modifier_bytes() as u128) * self.pieces as u128;
        let bytes = 2 * self.units as u128
            + 528 * self.runs as u128
            + 512 * self.sections as u128
            + of_pieces
            + table_bytes as u128
            + self.bin_bytes as u128
            + 16_384;
        let sectors = self.sectors as u128 + (bytes + 499) / 500 + 8;
        sectors.min(u64::MAX as u128) as u64
    }

    /// The numbers that decide whether a fast save is refused.
    pub(crate) fn ledgers(&self, table_bytes: u64) -> Ledgers
        ensures { result ≡ ledgers_of self.now table_bytes }
    {
        Ledgers {
            pieces: self.pieces,
            modifier_bytes: self.modifier_bytes(),
            sectors: self.sectors,
            bin_bytes: self.bin_bytes,
            units: self.units,
            sections: self.sections,
            runs: self.runs,
            table_bytes,
        }
    }
}

/// A count after some more. It is still at its type's end.
fn saturating_sum(count: u64, more: u64) -> u64
    ensures { result ≡ raised_count count more }
{
    count.saturating_add(more)
}

/// Whether a piece has a modifier.
fn has_modifier(pieces: &PieceList) -> bool
    ensures { result ≡ false ↔ AreUnmodified pieces.now.pieces }
{
    let mut walk = pieces.walk();
    for i in 0..pieces.len() {
        if !walk.modifier(i).is_none() {
            return true;
        }
    }
    false
}

/// The bytes of the longest printed modifier.
fn most_printed(pieces: &PieceList) -> u64
    ensures { result ≡ longest_printed pieces.now.pieces }
{
    let mut walk = pieces.walk();
    let mut most = 0;
    for i in 0..pieces.len() {
        most = walk.modifier(i).printed_len().max(most);
    }
    most
}
