// Edits of what is watched: both calls answer alike, and what refuses is what it was.
use doc_bits::Memory;
use edit_ops::{Command, EditFault, Facts};
use row_language::RowFault;
use std::alloc::Global;

/// What commands are tried on and made on: a document, or a session on a file.
pub(crate) trait Edits {
    /// What is seen of it.
    type Seen: Drop;

    /// Begins on a file that is accepted.
    fn begin(alloc: Global, file: &[u8]) -> Result<Self, RowFault>;

    /// What is seen of it now.
    fn seen(&self, alloc: Global) -> Result<Self::Seen, Memory>;

    /// Whether the same is seen of it.
    fn is_still(&self, seen: &Self::Seen) -> Result<bool, Memory>;

    /// Tries a command.
    fn try_edit(
        &self,
        alloc: Global,
        command: &Command,
    ) -> Result<Result<Facts, EditFault>, RowFault>;

    /// Makes a command.
    fn make_edit(
        &mut self,
        alloc: Global,
        command: &Command,
    ) -> Result<Result<(), EditFault>, RowFault>;
}

/// Tries a command and makes it.
pub(crate) fn edit<E: Edits>(
    alloc: Global,
    edited: &mut E,
    command: &Command,
) -> Result<Result<Facts, EditFault>, RowFault> {
    let before = edited.seen(alloc)?;
    let answer = edit_from(alloc, edited, &before, command);
    drop(before);
    answer
}

/// Tries a command and makes it, where this was seen before.
fn edit_from<E: Edits>(
    alloc: Global,
    edited: &mut E,
    before: &E::Seen,
    command: &Command,
) -> Result<Result<Facts, EditFault>, RowFault> {
    let tried = edited.try_edit(alloc, command)?;
    let made = edited.make_edit(alloc, command)?;
    if made.is_err() && !edited.is_still(before)? {
        return Err(RowFault::Changed);
    }
    match (tried, made) {
        (_, Err(EditFault::Memory)) => Err(RowFault::Kept),
        (Err(EditFault::Memory), _) => Err(RowFault::Memory),
        (Ok(_), Ok(())) => Ok(tried),
        (Err(fault), Err(other)) if fault == other => Ok(tried),
        _ => Err(RowFault::TwoAnswers),
    }
}
