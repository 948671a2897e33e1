// The sectors of the file after, part by part.
ghost use Rattle.std.specs.Prelude.{◌≡◌, ◌++◌, ◌+◌, ◌*◌, ◌^◌, ◌<◌, ◌≤◌, OnOk, length};
ghost use Rattle.std.specs.List.{flat_map};
ghost use Rattle.doc_bits.specs.Number.{number_bytes};
ghost use Rattle.cfb_in_place.specs.Sources.{headed, entry_after, four_entries, rest_behind};
ghost use Rattle.cfb_sectors.specs.Header.{sector_len};

use cfb_directory::{ENTRY_LEN, ENTRY_START};
use doc_bits::{Bytes, Memory, push_zeros};
use std::marker::Model;

/// A directory entry with its new start and size.
#[derive(Drop)]
pub(crate) struct NewHead {
    pub(crate) entry: usize,
    pub(crate) start: u32,
    pub(crate) size: u32,
}

impl Model for NewHead {
    ghost use Rattle.cfb_in_place.specs.Sources.{NewHead};

    ghost Value = { NewHead };

    ghost view = { λ h. record { entry = h.entry; start = h.start; size = h.size } };
}

/// Appends entries of a table.
pub(crate) fn push_entries(out: &mut Bytes, entries: &[u32]) -> Result<(), Memory>
    ensures { OnOk result (out.new ≡ out.old ++ flat_map (number_bytes 4) entries.now) }
{
    for entry in entries {
        out.push32(*entry)?;
    }
    Ok(())
}

/// Appends a directory entry with its new start and size.
fn push_head(out: &mut Bytes, bytes: &[u8], head: &NewHead) -> Result<(), Memory>
    requires { length bytes.now ≡ 128 }
    ensures { OnOk result (out.new ≡ out.old ++ headed head.now bytes.now) }
{
    out.push_all(&bytes[..ENTRY_START])?;
    out.push32(head.start)?;
    out.push32(head.size)?;
    out.push32(0)?;
    Ok(())
}

/// Appends a directory entry, which has its new start and size where it is one of these two.
fn push_entry(
    out: &mut Bytes,
    bytes: &[u8],
    entry: usize,
    grown: &NewHead,
    table: &NewHead,
) -> Result<(), Memory>
    requires { length bytes.now ≡ 128 }
    ensures { OnOk result (out.new ≡ out.old ++ entry_after grown.now table.now entry bytes.now) }
{
    if entry == grown.entry {
        push_head(out, bytes, grown)?;
    } else if entry == table.entry {
        push_head(out, bytes, table)?;
    } else {
        out.push_all(bytes)?;
    }
    Ok(())
}

/// Appends a sector of the directory, whose first entry has this number.
pub(crate) fn push_directory(
    out: &mut Bytes,
    bytes: &[u8],
    first: usize,
    grown: &NewHead,
    table: &NewHead,
) -> Result<(), Memory>
    requires whole { length bytes.now ≡ sector_len }
    requires room { first + 4 < 2 ^ 63 }
    ensures { OnOk result (out.new ≡ out.old ++ four_entries grown.now table.now first bytes.now) }
{
    for k in 0..4 {
        let entry = &bytes[ENTRY_LEN * k..ENTRY_LEN * k + ENTRY_LEN];
        push_entry(out, entry, first + k, grown, table)?;
    }
    Ok(())
}

/// Appends what is behind a stream in its sectors: the old bytes there, then zeros in so many added bytes.
pub(crate) fn push_rest(out: &mut Bytes, joined: &[u8], more: usize) -> Result<(), Memory>
    requires within { length out.old ≤ length joined.now + more }
    requires room { length joined.now + more < 2 ^ 63 }
    ensures { OnOk result (out.new ≡ out.old ++ rest_behind (length out.old) joined.now more) }
{
    let len = out.as_slice().len();
    if len <= joined.len() {
        out.push_all(&joined[len..])?;
        push_zeros(out, more)?;
    } else {
        push_zeros(out, joined.len() + more - len)?;
    }
    Ok(())
}
