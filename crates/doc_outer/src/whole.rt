ghost use Rattle.std.specs.Prelude.{◌≡◌, ◌≤◌, length, IfOk, IsErrOf};
ghost use Rattle.doc_outer.specs.Counts.{Rose, CountGoesOn};
ghost use Rattle.doc_outer.specs.Held.{Told, IsAbsent, HoldsExactly, IsLonger};

use crate::{Shelf, ShelfFault};
use doc_bits::{Bytes, Memory};
use std::alloc::{AllocError, Global};
use thiserror::Error;

/// How many bytes a file has at most: 1 + 109 * 128 sectors of 512 bytes, as many as the FAT sectors
/// that the header of a compound file can name represent.
pub const MAX_FILE_LEN: usize = 7_143_936;

/// How many bytes are asked for at once.
const PART_LEN: usize = 65_536;

/// Why a file is not read.
#[derive(Clone, Copy, Debug, Error)]
pub enum ReadFail {
    #[error("the name is not there")]
    Missing,
    #[error("the read failed")]
    Failed,
    #[error("the file has more than 7143936 bytes")]
    TooLong,
    #[error("out of memory")]
    Memory,
}

impl From<Memory> for ReadFail {
    ghost use Rattle.doc_outer.specs.declared.whole.ReadFail.TheVariants.{Memory};

    ghost from_gives = { λ _ e. e ≡ Memory };

    fn from(_: Memory) -> Self {
        ReadFail::Memory
    }
}

impl From<AllocError> for ReadFail {
    ghost use Rattle.doc_outer.specs.declared.whole.ReadFail.TheVariants.{Memory};

    ghost from_gives = { λ _ e. e ≡ Memory };

    fn from(_: AllocError) -> Self {
        ReadFail::Memory
    }
}

impl From<ShelfFault> for ReadFail {
    ghost use Rattle.doc_outer.specs.Whole.{fail_of};

    ghost from_gives = { λ fault e. e ≡ fail_of fault };

    fn from(fault: ShelfFault) -> Self {
        match fault {
            ShelfFault::Missing => ReadFail::Missing,
            ShelfFault::Failed => ReadFail::Failed,
            ShelfFault::Memory => ReadFail::Memory,
        }
    }
}

/// A buffer of so many bytes.
fn zeros(alloc: Global, len: usize) -> Result<Vec<u8>, AllocError>
    ensures { IfOk result (λ buffer. length buffer.items ≡ len) }
{
    vec![in alloc; 0; len]
}

/// All the bytes of a name, taken in order from the first on, each once.
pub fn read_whole<S: Shelf>(alloc: Global, shelf: &mut S, name: &str) -> Result<Bytes, ReadFail>
    ensures kept { S.held shelf.new ≡ S.held shelf.old }
    ensures whole { IfOk result (λ bytes. Told (S.held shelf.old) name.now (HoldsExactly bytes)) }
    ensures len { IfOk result (λ bytes. length bytes ≤ MAX_FILE_LEN) }
    ensures absent { IsErrOf result ReadFail.Missing → Told (S.held shelf.old) name.now IsAbsent }
    ensures too_long { IsErrOf result ReadFail.TooLong
        → Told (S.held shelf.old) name.now (IsLonger MAX_FILE_LEN) }

    // A refusal by the shelf shows in its count.
    ensures failed { IsErrOf result ReadFail.Failed
        → Rose (S.faults shelf.old) (S.faults shelf.new) }
    ensures missing { IsErrOf result ReadFail.Missing
        → Rose (S.missed shelf.old) (S.missed shelf.new) }
    ensures faults { CountGoesOn (S.faults shelf.old) (S.faults shelf.new) }
    ensures missed { CountGoesOn (S.missed shelf.old) (S.missed shelf.new) }
    ensures put_faults { S.put_faults shelf.new ≡ S.put_faults shelf.old }
{
    let mut bytes = Bytes::new(alloc);
    let mut buffer = zeros(alloc, PART_LEN)?;
    let part = buffer.as_mut_slice();
    let mut taken = 0;
    while taken <= MAX_FILE_LEN {
        let room = PART_LEN.min(MAX_FILE_LEN + 1 - taken);
        let buf = &mut part[..room];
        let count = shelf.read_at(name, taken as u64, buf)?;
        if count == 0 {
            return Ok(bytes);
        }
        bytes.push_all(&buf[..count])?;
        taken += count;
    }
    Err(ReadFail::TooLong)
}
