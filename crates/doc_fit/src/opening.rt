// A file of any program is opened: its document is lifted out of it, mended and checked, and what is left out is named.
ghost use Rattle.std.specs.Prelude.{◌≡◌, IfOk, MatchResult};
ghost use Rattle.doc_model.specs.Marks.{HasFormedBookmarks};
ghost use Rattle.plain_doc.specs.Sound.{IsSound};
ghost use Rattle.file_rules.specs.Faults.{IsReadFault};
ghost use Rattle.doc_lift.specs.LiftedFiles.{IsLifted};
ghost use Rattle.doc_fit.specs.Losses.{HasLiftedStreams};
ghost use Rattle.doc_fit.specs.Opened.{HasDeletions, IsOpenedAny, IsReported};
ghost use Rattle.doc_fit.specs.Rules.{fit_rules};

use crate::losses::found_in;
use doc_bits::{Memory, drop_then};
use doc_lift::{Lifted, ReadFault, lift};
use doc_mends::{Mend, mend};
use doc_read::check_document;
use huge_papx::strike_and_define;
use loss_report::LossLines;
use std::alloc::Global;
use std::mem;

/// What was opened: a sound document with the streams of its file, a line for each feature that is left out of it, and
/// what of it was mended.
#[derive(Drop)]
pub struct OpenedAny {
    pub lifted: Lifted,
    pub losses: LossLines,
    pub mends: Vec<Mend>,
}

/// What is told of it.
#[derive(Drop)]
pub(crate) struct Report {
    pub(crate) losses: LossLines,
    pub(crate) mends: Vec<Mend>,
}

/// Opens a file of any program from Word 97 to 2007, or names the first of the rules that are left that it breaks. Its
/// document is mended.
pub fn open_any(alloc: Global, file: &[u8]) -> Result<OpenedAny, ReadFault>
    ensures { MatchResult result (IsOpenedAny file.now) (IsReadFault (fit_rules file.now)) }
{
    match lift(alloc, file) {
        Ok(lifted) => open_lifted(alloc, file, lifted),
        Err(fault) => Err(fault),
    }
}

/// Opens what was lifted out of a file.
pub(crate) fn open_lifted(
    alloc: Global,
    file: &[u8],
    mut lifted: Lifted,
) -> Result<OpenedAny, ReadFault>
    requires { IsLifted file.now lifted }
    ensures { MatchResult result (IsOpenedAny file.now) (IsReadFault (fit_rules file.now)) }
{
    match check_lifted(alloc, file, &mut lifted) {
        Ok(report) => Ok(open_parts(lifted, report)),
        Err(fault) => drop_then(lifted, Err(fault)),
    }
}

/// What was opened, of its parts. It takes no memory.
pub(crate) fn open_parts(lifted: Lifted, report: Report) -> OpenedAny
    ensures { result ≡ record { lifted = lifted; losses = report.losses; mends = report.mends } }
{
    let Report { losses, mends } = report;
    OpenedAny {
        lifted,
        losses,
        mends,
    }
}

/// Mends what was lifted out of a file, and tells of it, where its document is sound then.
fn check_lifted(alloc: Global, file: &[u8], lifted: &mut Lifted) -> Result<Report, ReadFault>
    requires { IsLifted file.now lifted.old }
    ensures { MatchResult result
        (λ report. IsReported lifted.old lifted.new report.losses report.mends.items × IsSound lifted.new.document)
        (IsReadFault (fit_rules file.now)) }
{
    let Ok(report) = mend_lifted(alloc, lifted) else {
        return Err(ReadFault::Memory);
    };
    match check_document(alloc, &lifted.document) {
        Ok(()) => Ok(report),
        Err(fault) => Err(fault),
    }
}

/// Mends what was lifted, and tells of it.
fn mend_lifted(alloc: Global, lifted: &mut Lifted) -> Result<Report, Memory>
    requires streams { HasLiftedStreams lifted.old }
    requires deletions { HasDeletions lifted.old }
    requires formed { HasFormedBookmarks lifted.old.document }
    ensures { IfOk result (λ report. IsReported lifted.old lifted.new report.losses report.mends.items) }
{
    let found = found_in(alloc, lifted)?;
    let deleted = mem::replace(&mut lifted.deleted, Vec::new(alloc));
    let offsets = mem::replace(&mut lifted.offsets, Vec::new(alloc));
    let mut mends = strike_and_define(
        alloc,
        &mut lifted.document,
        found.begins,
        &deleted,
        &offsets,
    )?;
    let others = mend(alloc, &mut lifted.document, &found.marks)?;
    mends.extend_from_slice(&others)?;
    let losses = found.losses;
    Ok(Report { losses, mends })
}
