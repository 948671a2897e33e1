// A file of any program, as one that docbin accepts: its document is opened and saved, and what is left out and what is
// mended is named.
ghost use Rattle.std.specs.Prelude.{◌≡◌, IfOk, length};
ghost use Rattle.doc_bits.specs.Number.{AreBytes};
ghost use Rattle.plain_doc.specs.Sound.{IsSound};
ghost use Rattle.run_stages.specs.Leaves.{IsCaused, IsOnlyRead};
ghost use Rattle.run_stages.specs.Outcomes.{puts, says};
ghost use Rattle.run_stages.specs.Reading.{FollowsStage};
ghost use Rattle.docfit_run.specs.Lines.{needs_line as needs_of};
ghost use Rattle.docfit_run.specs.Fitted.{CanEnd, EndsOpened, FitsFile, JudgesFit, IsSaved, fit_report};

use crate::lines::{fit_line, needs_line};
use crate::status::STATUS_TOO_LARGE;
use doc_bits::{Bytes, Memory, Text, drop_then};
use doc_columns::columns_are_formed;
use doc_fit::{OpenedAny, OpenedFile, open_file, refusal};
use doc_mends::push_mends;
use doc_outer::Shelf;
use file_mends::{FileMend, push_file_mends};
use full_save::{SaveFault, full_of_columns};
use run_stages::{Ending, FilePut, Stage, take_file};
use std::alloc::Global;

/// Fits the file of a name, for another name.
pub(crate) fn fit_name<S: Shelf>(
    alloc: Global,
    shelf: &mut S,
    name: &str,
    out: &str,
    plain: bool,
) -> Result<Ending, Memory>
    ensures read { IsOnlyRead S.Shelf shelf.old shelf.new }
    ensures ends { IfOk result (λ e. FitsFile plain name.now out.now (S.held shelf.old) e) }
    ensures cause { IfOk result (λ e. IsCaused S.Shelf shelf.old shelf.new e.status) }
{
    let taken = take_file(alloc, shelf, name)?;
    fit_taken(alloc, name, taken, out, plain)
}

/// Fits what was read.
fn fit_taken(
    alloc: Global,
    name: &str,
    taken: Stage<Bytes>,
    out: &str,
    plain: bool,
) -> Result<Ending, Memory>
    ensures { IfOk result (λ e. FollowsStage taken (JudgesFit plain name.now out.now) e) }
{
    match taken {
        Stage::Go(bytes) => fit_file(alloc, name, bytes.as_slice(), out, plain),
        Stage::Stop(ending) => Ok(ending),
    }
}

/// Fits a file.
fn fit_file(
    alloc: Global,
    name: &str,
    file: &[u8],
    out: &str,
    plain: bool,
) -> Result<Ending, Memory>
    ensures judges { IfOk result (λ e. JudgesFit plain name.now out.now file.now e) }
    ensures bytes { AreBytes file.now }
{
    let found = open_file(alloc, file, plain)?;
    let ending = fit_read(alloc, name, file, &found, out);
    drop_then(found, ending)
}

/// Fits what is read in place of a file, which was opened so.
fn fit_read(
    alloc: Global,
    name: &str,
    file: &[u8],
    found: &OpenedFile,
    out: &str,
) -> Result<Ending, Memory>
    requires { CanEnd file.now found.now }
    ensures { IfOk result (EndsOpened name.now out.now file.now found.now) }
{
    match &found.opened {
        Ok(opened) => save(alloc, opened, found.mended.mends(), out),
        Err(fault) => refusal(alloc, name, found.mended.bytes(file), *fault),
    }
}

/// Saves the document that was opened, and names what is left out and what is mended.
fn save(alloc: Global, opened: &OpenedAny, mends: &[FileMend], out: &str) -> Result<Ending, Memory>
    requires { IsSound opened.now.lifted.document }
    ensures { IfOk result (λ e. IsSaved out.now opened.now.lifted.document opened.now.losses
        (record { of_file = mends.now; of_document = opened.now.mends.items }) e) }
{
    let document = &opened.lifted.document;
    columns_are_formed(document);
    match full_of_columns(alloc, document) {
        Ok(bytes) => put_ending(alloc, bytes, opened, mends, out),
        Err(SaveFault::TooLarge { sectors }) => too_large(alloc, sectors),
        Err(SaveFault::Memory) => Err(Memory),
    }
}

/// The ending of a document that fits no file.
fn too_large(alloc: Global, sectors: u64) -> Result<Ending, Memory>
    ensures { IfOk result (λ e. e ≡ says 9 (needs_of sectors)) }
{
    let text = needs_line(alloc, sectors)?;
    Ok(Ending::new(STATUS_TOO_LARGE, text))
}

/// The ending that puts the bytes, and prints what is told of what was opened.
fn put_ending(
    alloc: Global,
    bytes: Bytes,
    opened: &OpenedAny,
    mends: &[FileMend],
    out: &str,
) -> Result<Ending, Memory>
    ensures { IfOk result (λ e. e ≡ puts (fit_report (length bytes) opened.now.losses
        (record { of_file = mends.now; of_document = opened.now.mends.items })) out.now bytes) }
{
    let losses = &opened.losses;
    let mended = mends.len() + opened.mends.len();
    let mut text = fit_line(alloc, bytes.as_slice().len(), losses.len(), mended)?;
    losses.put_behind(&mut text)?;
    push_file_mends(alloc, &mut text, mends)?;
    push_mends(alloc, &mut text, &opened.mends)?;
    let mut name = Text::new(alloc);
    name.push_all(out)?;
    Ok(Ending::with_file(text, FilePut { name, bytes }))
}
