// Entries of the directory.
ghost use Rattle.std.specs.Prelude.{◌≡◌, ◌++◌, ◌≤◌, OnOk, length};
ghost use Rattle.cfb_layout.specs.Entries.{entry_bytes, entry_name_bytes};

use crate::fields::{Field, push_fields};
use crate::sectors::push_zeros;
use doc_bits::{Bytes, Memory};

/// The length of the field with the name, in bytes.
const NAME_FIELD: usize = 64;

/// The numbers of a directory entry.
#[derive(Clone, Copy)]
pub struct EntryFields {
    /// The length of the name in bytes, with its zero unit.
    pub name_length: u16,
    pub kind: u8,
    pub colour: u8,
    pub left: u32,
    pub right: u32,
    pub child: u32,
    pub start: u32,
    pub size: u32,
}

/// Appends a name, filled up with zeros.
fn push_name(out: &mut Bytes, name: &[u16]) -> Result<(), Memory>
    requires { length name.now ≤ 32 }
    ensures { OnOk result (out.new ≡ out.old ++ entry_name_bytes name.now) }
{
    for unit in name {
        out.push16(*unit)?;
    }
    push_zeros(out, NAME_FIELD - 2 * name.len())?;
    Ok(())
}

/// Appends an entry.
pub(crate) fn push_entry(
    out: &mut Bytes,
    name: &[u16],
    clsid: &[u8],
    fields: &EntryFields,
) -> Result<(), Memory>
    requires { length name.now ≤ 32 }
    ensures { OnOk result (out.new ≡ out.old
        ++ entry_bytes (record { name = name.now; clsid = clsid.now; fields = fields.now })) }
{
    let name_length = Field::Word(fields.name_length);
    let kind = Field::Byte(fields.kind);
    let colour = Field::Byte(fields.colour);
    let left = Field::Long(fields.left);
    let right = Field::Long(fields.right);
    let child = Field::Long(fields.child);
    let start = Field::Long(fields.start);
    let size = Field::Long(fields.size);
    let zero = Field::Long(0);
    push_name(out, name)?;
    push_fields(out, &[name_length, kind, colour, left, right, child])?;
    out.push_all(clsid)?;
    push_fields(out, &[zero, zero, zero, zero, zero, start, size, zero])?;
    Ok(())
}
