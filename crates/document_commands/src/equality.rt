// Whether two documents are equal.
ghost use Rattle.std.specs.Prelude.{IfOk};
ghost use Rattle.document_commands.specs.Replies.{Compares};

use crate::lines::{different_line, equal_line};
use crate::reply::{Refusal, Reply};
use doc_bits::Memory;
use doc_columns::ColumnDocument;
use std::alloc::Global;

/// What comparing two documents comes to.
pub(crate) fn compare(
    alloc: Global,
    first: &ColumnDocument,
    second: &ColumnDocument,
) -> Result<Reply, Memory>
    ensures { IfOk result (Compares first.now second.now) }
{
    if first.equal(second) {
        let text = equal_line(alloc)?;
        return Ok(Reply::Done(text));
    }
    let text = different_line(alloc)?;
    Ok(Reply::Refused {
        why: Refusal::Different,
        text,
    })
}
