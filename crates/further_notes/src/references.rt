// [MS-DOC] PlcffndRef of comments.
ghost use Rattle.std.specs.Prelude.{◌≡◌, ◌-◌, ◌*◌, ◌≤◌, length, map, IfOk};
ghost use Rattle.doc_parts.specs.Table.{plc_part};
ghost use Rattle.doc_losses.specs.References.{table_cps};
ghost use Rattle.further_notes.specs.NoteFiles.{comment_refs as comment_refs_of, numbered_ref};
ghost use Rattle.further_notes.specs.NoteFiles.{refs_behind as behind_of};

use doc_bits::{Bytes, Memory, get32};
use doc_mends::NoteStory;
use doc_parts::{Refs, print_refs};
use fib_versions::{AnyFib, Further};
use std::alloc::Global;

/// [MS-DOC] PlcfandRef: its pair of the FIB.
pub(crate) const PLCFAND_REF: u16 = 4;

/// [MS-DOC] ATRDPre10: what PlcfandRef has for a comment beside its CP, in bytes.
pub(crate) const ATRD_SIZE: usize = 30;

/// The references that are put behind the table stream, where they are not read where they are.
pub(crate) fn refs_behind(
    alloc: Global,
    story: NoteStory,
    fib: &AnyFib<'_>,
    table: &[u8],
) -> Result<Bytes, Memory>
    ensures { IfOk result (λ refs. refs ≡ behind_of story fib.now table.now) }
{
    match story {
        NoteStory::Endnotes => Ok(Bytes::new(alloc)),
        NoteStory::Comments => comment_refs(alloc, fib, table),
    }
}

/// PlcffndRef of the comments.
fn comment_refs(alloc: Global, fib: &AnyFib<'_>, table: &[u8]) -> Result<Bytes, Memory>
    ensures { IfOk result (λ refs. refs ≡ comment_refs_of fib.now table.now) }
{
    let refs = numbered_refs(alloc, fib.part(table, PLCFAND_REF))?;
    let bytes = print_refs(alloc, &refs, fib.further_start(Further::Comments))?;
    Ok(bytes)
}

/// The CPs of the comments of PlcfandRef, each of a numbered note.
fn numbered_refs(alloc: Global, plc: &[u8]) -> Result<Refs, Memory>
    ensures { IfOk result (λ refs. refs ≡ map numbered_ref (table_cps 30 plc.now)) }
{
    let count = comment_count(plc);
    let mut refs = Refs::new(alloc);
    for k in 0..count {
        refs.add(get32(plc, 4 * k), true)?;
    }
    Ok(refs)
}

/// How many comments PlcfandRef has.
pub(crate) fn comment_count(plc: &[u8]) -> usize
    ensures count { result ≡ (plc_part 30 plc.now).count }
    ensures within { 34 * result ≤ length plc.now - 4 }
{
    plc.len().saturating_sub(4) / (4 + ATRD_SIZE)
}
