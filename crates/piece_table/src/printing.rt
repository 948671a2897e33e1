// The Clx of pieces: the Prcs of their modifiers, and the Pcdt.
ghost use Rattle.std.specs.Prelude.{◌≡◌, ℕ, ◌+◌, ◌*◌, ◌^◌, ◌<◌, ◌≤◌};
ghost use Rattle.std.specs.Prelude.{◌++◌, length, flat_map, sum, All, IfOk, OnOk, slice_index};
ghost use Rattle.doc_bits.specs.Number.{number_bytes};
ghost use Rattle.piece_table.specs.Clx.{prc_bytes, pcdt_bytes};
ghost use Rattle.piece_table.specs.Printing.{IsPrintable, IsPrintedClx, fc_number, pcd_bytes, cps_of, plc_bytes};
ghost use Rattle.piece_table.specs.PrintSteps.{HasPrintable, ArePrinted, HasPrm, prc_table, lens_of, pcds_of};

use crate::parts::{CLXT_PCDT, CLXT_PRC};
use crate::pieces::{Entry, Piece, PieceList};
use crate::prc_lists::PrcLists;
use doc_bits::{Bytes, Memory};
use prop_map::Modifier;
use std::alloc::Global;

/// fCompressed of FcCompressed.
const F_COMPRESSED: u32 = 1 << 30;

impl PieceList {
    /// The Clx of the pieces: one Prc for each modifier that a piece has and that does something, and the Pcdt.
    pub fn print_clx(&self, alloc: Global) -> Result<Bytes, Memory>
        requires { IsPrintable self.now.pieces }
        ensures { IfOk result (IsPrintedClx self.now.pieces) }
    {
        let entries = self.entries.to_vec()?;
        let printed = print_prcs(alloc, &entries, &self.modifiers)?;
        let PrintedPrcs {
            mut bytes,
            prms,
            lists: _,
            count: _,
        } = printed;
        push_pcdt(&mut bytes, &entries, &prms)?;
        Ok(bytes)
    }
}

/// The Prcs that are printed.
#[derive(Drop)]
struct PrintedPrcs {
    bytes: Bytes,
    /// For each modifier the Prm that names it, or 0 where it has no Prc.
    prms: Vec<u16>,
    lists: PrcLists,
    /// The number of Prcs.
    count: u16,
}

/// Prints a Prc for each modifier that an entry names and that does something.
fn print_prcs(
    alloc: Global,
    entries: &[Entry],
    modifiers: &[Modifier],
) -> Result<PrintedPrcs, Memory>
    requires few { length entries.now ≤ 16384 }
    requires printable { All (HasPrintable modifiers.now) entries.now }
    ensures { IfOk result (λ printed. ArePrinted modifiers.now entries.now (length entries.now) (prc_table printed)) }
{
    let mut printed = PrintedPrcs {
        bytes: Bytes::new(alloc),
        prms: zeros(alloc, modifiers.len())?,
        lists: PrcLists::new(alloc),
        count: 0,
    };
    for k in 0..entries.len() {
        printed.add(alloc, entries, modifiers, k)?;
    }
    Ok(printed)
}

/// So many zeros.
fn zeros(alloc: Global, len: usize) -> Result<Vec<u16>, Memory>
    ensures len { IfOk result (λ made. length made.items ≡ len) }
    ensures zeros { IfOk result (λ made. (i : ℕ) → slice_index made.items i ≡ 0) }
{
    let made = vec![in alloc; 0u16; len]?;
    Ok(made)
}

impl PrintedPrcs {
    /// Prints the Prc of an entry, where its modifier does something and has none.
    fn add(
        &mut self,
        alloc: Global,
        entries: &[Entry],
        modifiers: &[Modifier],
        k: usize,
    ) -> Result<(), Memory>
        requires few { length entries.now ≤ 16384 }
        requires entry { k < length entries.now }
        requires printable { All (HasPrintable modifiers.now) entries.now }
        requires printed { ArePrinted modifiers.now entries.now k (prc_table self.old) }
        ensures { OnOk result (ArePrinted modifiers.now entries.now (k + 1) (prc_table self.new)) }
    {
        let number = entries[k].modifier;
        let modifier = &modifiers[number];
        if self.prms[number] != 0 || modifier.is_none() {
            return Ok(());
        }
        let list = modifier.print(alloc)?;
        let prm = self.prm_of(alloc, list.as_slice())?;
        self.prms[number] = prm;
        Ok(())
    }

    /// The Prm of a list, which is printed where it was not before.
    fn prm_of(&mut self, alloc: Global, list: &[u8]) -> Result<u16, Memory>
        requires list { length list.now < 2 ^ 16 }
        requires few { self.old.count < 16384 }
        ensures { IfOk result (HasPrm (prc_table self.old) (prc_table self.new) list.now) }
    {
        if let Some(prm) = self.lists.prm(list) {
            return Ok(prm);
        }
        push_prc(&mut self.bytes, list)?;
        let prm = 2 * self.count + 1;
        self.lists.put(alloc, list, prm)?;
        self.count += 1;
        Ok(prm)
    }
}

/// Appends a Prc.
fn push_prc(bytes: &mut Bytes, list: &[u8]) -> Result<(), Memory>
    requires { length list.now < 2 ^ 16 }
    ensures { OnOk result (bytes.new ≡ bytes.old ++ prc_bytes list.now) }
{
    bytes.push_all(&[CLXT_PRC])?;
    bytes.push16(list.len() as u16)?;
    bytes.push_all(list)
}

/// Appends the Pcdt.
fn push_pcdt(bytes: &mut Bytes, entries: &[Entry], prms: &[u16]) -> Result<(), Memory>
    requires few { length entries.now ≤ 16384 }
    requires total { sum (lens_of entries.now) < 2 ^ 32 }
    requires places { All (λ entry. entry.piece.at < 2 ^ 29) entries.now }
    requires numbers { All (λ entry. entry.modifier < length prms.now) entries.now }
    ensures { OnOk result (bytes.new
        ≡ bytes.old ++ pcdt_bytes (plc_bytes (lens_of entries.now) (pcds_of entries.now prms.now))) }
{
    bytes.push_all(&[CLXT_PCDT])?;
    bytes.push32(4 + 12 * entries.len() as u32)?;
    push_cps(bytes, entries)?;
    push_pcds(bytes, entries, prms)?;
    Ok(())
}

/// Appends the CPs of the pieces: running sums of their lengths.
fn push_cps(bytes: &mut Bytes, entries: &[Entry]) -> Result<(), Memory>
    requires { sum (lens_of entries.now) < 2 ^ 32 }
    ensures { OnOk result (bytes.new ≡ bytes.old ++ flat_map (number_bytes 4) (cps_of (lens_of entries.now))) }
{
    let mut cp = 0;
    for k in 0..entries.len() {
        bytes.push32(cp)?;
        cp += entries[k].piece.len;
    }
    bytes.push32(cp)?;
    Ok(())
}

/// Appends the Pcds of the pieces.
fn push_pcds(bytes: &mut Bytes, entries: &[Entry], prms: &[u16]) -> Result<(), Memory>
    requires places { All (λ entry. entry.piece.at < 2 ^ 29) entries.now }
    requires numbers { All (λ entry. entry.modifier < length prms.now) entries.now }
    ensures { OnOk result (bytes.new ≡ bytes.old ++ flat_map (λ pcd. pcd) (pcds_of entries.now prms.now)) }
{
    for k in 0..entries.len() {
        let entry = entries[k];
        push_pcd(bytes, entry.piece, prms[entry.modifier])?;
    }
    Ok(())
}

/// Appends a Pcd.
fn push_pcd(bytes: &mut Bytes, piece: Piece, prm: u16) -> Result<(), Memory>
    requires { piece.at < 2 ^ 29 }
    ensures { OnOk result (bytes.new ≡ bytes.old ++ pcd_bytes piece prm) }
{
    bytes.push16(0)?;
    bytes.push32(fc_of_piece(piece))?;
    bytes.push16(prm)
}

/// The FcCompressed of a piece.
fn fc_of_piece(piece: Piece) -> u32
    requires { piece.at < 2 ^ 29 }
    ensures { result ≡ fc_number piece }
{
    if piece.wide {
        piece.at
    } else {
        2 * piece.at + F_COMPRESSED
    }
}
