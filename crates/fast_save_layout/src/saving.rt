// A save behind the stream that is there.
ghost use Rattle.std.specs.Prelude.{◌≡◌, ◌+◌, ◌<◌, true, MatchResult};
ghost use Rattle.fib_form.specs.FibFields.{AreFibCcps, ArePairs};
ghost use Rattle.fast_save_layout.specs.declared.fault.AppendFault.TheVariants.{Sixteenth};
ghost use Rattle.fast_save_layout.specs.Saves.{fast_save_of};
ghost use Rattle.fast_save_layout.specs.Kept.{CanBeFastSaved};
ghost use Rattle.fast_save_layout.specs.Bodies.{AreNewParts};
ghost use Rattle.fast_save_layout.specs.Answers.{IsAppended, IsAppendFault};

use crate::AppendFault;
use crate::added::AddedBody;
use crate::word_document::fib_bytes;
use crate::writing::{NewParts, filled_table, saved_by};
use cfb_layout::LayoutFault;
use cfb_streams::Container;
use doc_bits::Bytes;
use doc_columns::{ColumnDocument, Columns, columns_are_formed};
use fib_form::{Fib, Pairs};
use full_save::write_table;
use piece_table::PieceList;
use save_laws::Ends;
use std::alloc::Global;

/// The file that is there: the FIB of its `WordDocument`, its streams, and its bytes.
#[derive(Drop)]
pub struct SavedFile<'a> {
    pub fib: &'a Fib,
    pub container: &'a Container,
    pub bytes: &'a [u8],
}

/// The text of a document that was edited: its pieces, in the `WordDocument` that is there and in added text; whether
/// marks are behind its stories; the items whose units are added from a byte on; and for each section the place of
/// its properties, or none where they are still to be written.
#[derive(Drop)]
pub struct EditedText<'a> {
    pub pieces: &'a PieceList,
    pub ends: Ends,
    pub base: u32,
    pub added: &'a Columns,
    pub sections: &'a [Option<u32>],
}

/// The FIB after one more quick save, unless there were fifteen.
fn next_fib(fib: &Fib, cb_mac: u32, counts: [u32; 3], pairs: &Pairs) -> Result<Fib, AppendFault>
    requires counts { AreFibCcps counts }
    requires pairs { ArePairs pairs.now }
    ensures { MatchResult result
        (λ made. (fib.now.quick_saves < 15) × (made ≡ record fib.now {
          quick_saves = fib.now.quick_saves + 1;
          complex = true;
          cb_mac = cb_mac;
          ccps = counts;
          pairs = pairs.now;
        }))
        (λ fault. (fault ≡ Sixteenth) × (fib.now.quick_saves ≡ 15)) }
{
    match fib.with_quick_save(cb_mac, counts, pairs) {
        Ok(made) => Ok(made),
        Err(_) => Err(AppendFault::Sixteenth),
    }
}

/// What a save writes: the FIB, the added text with its pages, and the table stream.
fn new_parts(
    alloc: Global,
    old: &SavedFile<'_>,
    document: &ColumnDocument,
    text: &EditedText<'_>,
) -> Result<NewParts, AppendFault>
    requires { CanBeFastSaved (fast_save_of old.now document.now text.now) }
    ensures { MatchResult result
        (AreNewParts (fast_save_of old.now document.now text.now))
        (IsAppendFault (fast_save_of old.now document.now text.now)) }
{
    columns_are_formed(document);
    let body = AddedBody::of(alloc, old, document, text)?;
    let made = write_table(alloc, document, &body.text)?;
    let cb_mac = text.base + body.bytes.as_slice().len() as u32;
    let next = next_fib(old.fib, cb_mac, body.text.counts, &made.pairs)?;
    let fib = fib_bytes(alloc, &next)?;
    let table = filled_table(old.container, made.bytes)?;
    Ok(NewParts {
        fib,
        added: body.bytes,
        table,
    })
}

/// The file of a document that is saved behind the `WordDocument` of a file: its bytes from the FIB on stay, what was
/// added since is behind them, and the FIB keeps its form and counts one more quick save. Where that stream has
/// sectors of its own the file keeps them: each old sector stays but for those of the FIB, of the tables and of the
/// directory.
pub fn append(
    alloc: Global,
    old: &SavedFile<'_>,
    document: &ColumnDocument,
    text: &EditedText<'_>,
) -> Result<Bytes, AppendFault>
    requires { CanBeFastSaved (fast_save_of old.now document.now text.now) }
    ensures { MatchResult result
        (IsAppended (fast_save_of old.now document.now text.now))
        (IsAppendFault (fast_save_of old.now document.now text.now)) }
{
    let parts = new_parts(alloc, old, document, text)?;
    match saved_by(alloc, old, text.base, parts) {
        Ok(file) => Ok(file),
        Err(LayoutFault::TooLarge { sectors }) => Err(AppendFault::TooLarge { sectors }),
        Err(LayoutFault::Memory) => Err(AppendFault::Memory),
    }
}
