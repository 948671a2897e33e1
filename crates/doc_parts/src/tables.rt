// [MS-DOC] Plc: what is the same for each part that is a table of CPs and entries.
ghost use Rattle.std.specs.Prelude.{◌≡◌, ◌+◌, ◌<◌, ◌++◌, ◌^◌};
ghost use Rattle.std.specs.Prelude.{ℕ, List, length, IfOk, OnOk, OnErr};
ghost use Rattle.doc_parts.specs.Table.{EntryForm, KeepsCp, IsWholePlc, AreReadEntries, StopsAtWrong, printed_entries};

use crate::cps::CpForm;
use doc_bits::{Bytes, Memory, Plc, plc_of};
use std::alloc::Global;

/// A CP of a table with its entry.
pub trait TableEntry: Copy {
    ghost form: { EntryForm Self };

    /// The bytes of an entry beside its CP.
    ghost SIZE: { ℕ };

    const SIZE: usize;

    /// What a CP and the bytes of its entry spell, if anything.
    fn read(cp: u32, bytes: &[u8]) -> Option<Self>
        requires { length bytes.now ≡ form.size }
        ensures { result ≡ form.read_from cp bytes.now };

    /// Its CP.
    fn cp(&self) -> u32
        ensures { result ≡ form.cp_of self.now };

    /// Appends the bytes of the entry.
    fn print(&self, bytes: &mut Bytes) -> Result<(), Memory>
        ensures ok { OnOk result (bytes.new ≡ bytes.old ++ form.bytes_of self.now) }
        ensures err { OnErr result (bytes.new ≡ bytes.old) };

    ghost sized: { SIZE ≡ form.size };

    ghost keeps_cp: { KeepsCp form };
}

/// The entries of a part before the first wrong one, and the place of that one.
#[derive(Drop)]
pub struct Leading<E> {
    pub entries: Vec<E>,
    pub fault: Option<u32>,
}

/// Reads a part as a table that may be empty.
pub(crate) fn read_table<E: TableEntry>(
    alloc: Global,
    part: &[u8],
    at: u32,
    cps: CpForm,
) -> Result<Leading<E>, Memory>
    requires { at + length part.now < 2 ^ 32 }
    ensures { IfOk result (λ read. AreReadEntries E.form cps part.now at read.entries.items read.fault) }
{
    if part.is_empty() {
        return Ok(Leading {
            entries: Vec::new(alloc),
            fault: None,
        });
    }
    match plc_of(part, E::SIZE) {
        Err(_) => Ok(Leading {
            entries: Vec::new(alloc),
            fault: Some(at),
        }),
        Ok(plc) => {
            let entries: Vec<E> = leading_entries(alloc, &plc, cps)?;
            let len = entries.len();
            let fault = if len < plc.len() {
                Some(at + 4 * len as u32)
            } else {
                None
            };
            Ok(Leading { entries, fault })
        }
    }
}

/// The entries of a table before the first wrong one.
fn leading_entries<E: TableEntry>(
    alloc: Global,
    plc: &Plc<'_>,
    cps: CpForm,
) -> Result<Vec<E>, Memory>
    requires size { plc.now.size ≡ E.form.size }
    requires whole { IsWholePlc plc.now }
    ensures { IfOk result (λ list. StopsAtWrong E.form cps plc.now list.items) }
{
    let mut list = Vec::new(alloc);
    for k in 0..plc.len() {
        if !cps.is_kept(plc, k) {
            return Ok(list);
        }
        match E::read(plc.cp(k), plc.entry(k)) {
            Some(entry) => list.push(entry)?,
            None => return Ok(list),
        }
    }
    Ok(list)
}

/// The bytes of a table with these entries and this last CP. No entries are no bytes.
pub(crate) fn print_table<E: TableEntry>(
    alloc: Global,
    entries: &[E],
    end: u32,
) -> Result<Bytes, Memory>
    ensures { IfOk result (λ bytes. bytes ≡ printed_entries E.form entries.now end) }
{
    let mut bytes = Bytes::new(alloc);
    if entries.is_empty() {
        return Ok(bytes);
    }
    for entry in entries {
        bytes.push32(entry.cp())?;
    }
    bytes.push32(end)?;
    for entry in entries {
        entry.print(&mut bytes)?;
    }
    Ok(bytes)
}
