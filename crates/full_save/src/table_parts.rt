// A table stream that grows part by part, and the pairs that name the parts.
ghost use Rattle.std.specs.Prelude.{◌≡◌, ◌+◌, ◌^◌, ◌<◌, [], length, map, slice_set, OnOk, OnErr};
ghost use Rattle.std.specs.Prelude.{if◌then◌else◌, ◌==◌};
ghost use Rattle.std.specs.Io.{StartsWith};
ghost use Rattle.fib_form.specs.TableParts.{pair_number};
ghost use Rattle.fib_form.specs.TableEntries.{entry};
ghost use Rattle.full_save.specs.TableStream.{entries_bytes, AreWritten, WritesPart, WritesParts, named_entry};

use doc_bits::{Bytes, Memory};
use fib_form::{Pairs, TablePart};
use std::alloc::Global;

/// A table stream, and the pairs of its parts in the FIB.
#[derive(Drop)]
pub struct TableParts {
    pub bytes: Bytes,
    pub pairs: Pairs,
}

impl TableParts {
    /// No parts.
    pub fn new(alloc: Global) -> TableParts
        ensures { AreWritten [] result }
    {
        TableParts {
            bytes: Bytes::new(alloc),
            pairs: Pairs::new(),
        }
    }

    /// Appends a part. Its pair names it where it is not empty.
    pub fn put(&mut self, part: TablePart, bytes: &[u8]) -> Result<(), Memory>
        requires { length self.old.bytes + length bytes.now < 2 ^ 32 }
        ensures part { OnOk result (WritesPart (entry (pair_number part) bytes.now) self.old self.new) }
        ensures count { OnOk result (length self.new.bytes ≡ length self.old.bytes + length bytes.now) }
        ensures err { OnErr result (self.new ≡ self.old) }
    {
        let at = self.bytes.as_slice().len();
        self.bytes.push_all(bytes)?;
        put_pair(&mut self.pairs, part, at as u32, bytes.len() as u32);
        Ok(())
    }

    /// Appends parts by their names, one right behind another. After want of memory some of them may be there.
    pub(crate) fn put_all(&mut self, parts: &[(TablePart, &[u8])]) -> Result<(), Memory>
        requires { length self.old.bytes + length (entries_bytes (map named_entry parts.now)) < 2 ^ 32 }
        ensures { OnOk result (WritesParts (map named_entry parts.now) self.old self.new) }
    {
        for (part, bytes) in parts {
            self.put(*part, bytes)?;
        }
        Ok(())
    }

    /// Appends the lists with their levels, which are right behind them and which no pair names. After want of memory
    /// the pairs are as they were, and the lists may be behind what was there.
    pub fn put_lists(&mut self, lists: &[u8], levels: &[u8]) -> Result<(), Memory>
        requires { length self.old.bytes + length lists.now + length levels.now < 2 ^ 32 }
        ensures part { OnOk result (WritesPart
            (record { number = pair_number TablePart.PlfLst; bytes = lists.now; behind = levels.now })
            self.old self.new) }
        ensures count { OnOk result
            (length self.new.bytes ≡ length self.old.bytes + length lists.now + length levels.now) }
        ensures front { OnErr result (StartsWith self.new.bytes self.old.bytes) }
        ensures err { OnErr result (self.new.pairs ≡ self.old.pairs) }
    {
        let at = self.bytes.as_slice().len();
        self.bytes.push_all(lists)?;
        self.bytes.push_all(levels)?;
        put_pair(
            &mut self.pairs,
            TablePart::PlfLst,
            at as u32,
            lists.len() as u32,
        );
        Ok(())
    }
}

/// Puts the pair of a part that is not empty.
fn put_pair(pairs: &mut Pairs, part: TablePart, at: u32, len: u32)
    ensures { pairs.new ≡ (if len == 0 then pairs.old else slice_set pairs.old (pair_number part) (at, len)) }
{
    if len > 0 {
        pairs.put(part.pair(), at, len);
    }
}
