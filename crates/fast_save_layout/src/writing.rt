// The file of a save by its new parts: laid out anew, or in the own sectors of the file that is there.
ghost use Rattle.std.specs.Prelude.{◌≡◌, ◌++◌, length, replicate, IfOk, MatchResult};
ghost use Rattle.cfb_streams.specs.Names.{wd_name};
ghost use Rattle.cfb_layout.specs.Faults.{IsLayoutFault};
ghost use Rattle.cfb_layout.specs.Layout.{lengths_of};
ghost use Rattle.cfb_layout.specs.Sectors.{filled};
ghost use Rattle.fast_save_layout.specs.Appended.{least_beside};
ghost use Rattle.fast_save_layout.specs.RenewedStreams.{bytes_named as bytes_of_stream};
ghost use Rattle.fast_save_layout.specs.Bodies.{CanBeWritten, IsWrittenBy, IsWriteFault, CanBeLaidOut, IsLaidOut};
ghost use Rattle.fast_save_layout.specs.Bodies.{streams_by, CanBePutBehind, IsPutBehind, IsPutFault};

use crate::old_streams::bytes_named;
use crate::renewed::renewed_streams;
use crate::saving::SavedFile;
use crate::word_document::renewed_wd;
use cfb_in_place::{Change, appended};
use cfb_layout::{LayoutFault, whole};
use cfb_sectors::CUTOFF;
use cfb_streams::{Container, table_name, word_document};
use doc_bits::{Bytes, Memory, Units, push_zeros};
use std::alloc::Global;

/// What a save writes: the new FIB, what is in `WordDocument` from the added text on, and the table stream.
#[derive(Drop)]
pub(crate) struct NewParts {
    pub(crate) fib: Bytes,
    pub(crate) added: Bytes,
    pub(crate) table: Bytes,
}

/// The table stream with zeros behind it where it is to have sectors of its own, since `WordDocument` has.
pub(crate) fn filled_table(container: &Container, table: Bytes) -> Result<Bytes, Memory>
    ensures { IfOk result (λ stream. stream
        ≡ filled (least_beside (length (bytes_of_stream container.now.streams wd_name))) 0 table) }
{
    let mut table = table;
    let least = least_table(bytes_named(container, word_document()));
    let len = table.as_slice().len();
    push_zeros(&mut table, least.saturating_sub(len))?;
    Ok(table)
}

/// The least length of the table stream beside this `WordDocument`.
fn least_table(wd: &[u8]) -> usize
    ensures { result ≡ least_beside (length wd.now) }
{
    if wd.len() < CUTOFF as usize {
        0
    } else {
        CUTOFF as usize
    }
}

/// The file of the parts. It keeps its own sectors where `WordDocument` has sectors of its own.
pub(crate) fn saved_by(
    alloc: Global,
    old: &SavedFile<'_>,
    base: u32,
    parts: NewParts,
) -> Result<Bytes, LayoutFault>
    requires { CanBeWritten old.now base parts }
    ensures { MatchResult result (IsWrittenBy old.now base parts) (IsWriteFault old.now base parts) }
{
    if bytes_named(old.container, word_document()).len() < CUTOFF as usize {
        saved_anew(alloc, old, base, &parts)
    } else {
        saved_behind(alloc, old, base, parts)
    }
}

/// The file laid out anew.
fn saved_anew(
    alloc: Global,
    old: &SavedFile<'_>,
    base: u32,
    parts: &NewParts,
) -> Result<Bytes, LayoutFault>
    requires { CanBeLaidOut old.now base parts.now }
    ensures { MatchResult result
        (IsLaidOut old.now base parts.now) (IsLayoutFault (lengths_of (streams_by old.now base parts.now))) }
{
    let wd = bytes_named(old.container, word_document());
    let wd = renewed_wd(
        alloc,
        wd,
        parts.fib.as_slice(),
        base,
        parts.added.as_slice(),
    )?;
    let streams = renewed_streams(
        alloc,
        old.container,
        table_name(old.fib.which_table()),
        wd.as_slice(),
        parts.table.as_slice(),
    )?;
    whole(alloc, &streams, old.container.clsid())
}

/// The file in its own sectors: `WordDocument` grows, and the table stream is written anew.
fn saved_behind(
    alloc: Global,
    old: &SavedFile<'_>,
    base: u32,
    parts: NewParts,
) -> Result<Bytes, LayoutFault>
    requires { CanBePutBehind old.now base parts }
    ensures { MatchResult result (IsPutBehind old.now base parts) (IsPutFault old.now base parts) }
{
    let wd = bytes_named(old.container, word_document());
    let more = (base as usize).saturating_sub(wd.len());
    let tail = tail_of(alloc, more, parts.added.as_slice())?;
    let name = Units::from_slice(alloc, table_name(old.fib.which_table()))?;
    let change = Change::new(parts.fib, tail, parts.table, name);
    let saved = appended(alloc, old.container, old.bytes, &change);
    drop(change);
    saved
}

/// What comes behind the old `WordDocument`: so many zeros, and what is added.
fn tail_of(alloc: Global, more: usize, added: &[u8]) -> Result<Bytes, Memory>
    ensures { IfOk result (λ tail. tail ≡ replicate more 0 ++ added.now) }
{
    let mut tail = Bytes::new(alloc);
    push_zeros(&mut tail, more)?;
    tail.push_all(added)?;
    Ok(tail)
}
