// The page of a file that breaks a rule: its document is lifted out of what is read in place of it, and what is left out
// and mended is told.
ghost use Rattle.std.specs.Prelude.{◌≡◌, false, None};
ghost use Rattle.file_mends.specs.Mends.{bytes_read};
ghost use Rattle.file_rules.specs.Faults.{IsReadFault};
ghost use Rattle.plain_doc.specs.Sound.{IsSound};
ghost use Rattle.doc_read.specs.Holds.{IsAccepted};
ghost use Rattle.doc_fit.specs.ReadAs.{IsOpenedFile};
ghost use Rattle.doc_fit.specs.Rules.{fit_rules};
ghost use Rattle.docview_run.specs.Endings.{IsOfFile, PrintsPage, RunEnds, ShowsFile, bare_source};
ghost use Rattle.docview_run.specs.Viewed.{IsFaultStatus};

use crate::View;
use crate::run::{show_document, tell, tell_refusal};
use doc_bits::{Memory, Text, drop_then};
use doc_fit::{OpenedAny, OpenedFile, open_file, status_of_rule, why_not_opened};
use doc_mends::push_mends;
use doc_outer::Sink;
use file_mends::{FileMend, push_file_mends};
use file_rules::ReadFault;
use loss_report::LossLines;
use run_stages::{STATUS_DONE, STATUS_MEMORY, reason_of_name};
use std::alloc::Global;

/// A file that was read: its name, its bytes, and what of it is shown.
#[derive(Clone, Copy)]
struct FileView<'a> {
    name: &'a str,
    file: &'a [u8],
    view: View,
}

/// What was lifted out of a file, and the mends of its bytes.
#[derive(Clone, Copy)]
pub(crate) struct MendedDocument<'a> {
    pub(crate) opened: &'a OpenedAny,
    pub(crate) mends: &'a [FileMend],
}

/// Shows the document that is lifted out of a file which breaks a rule.
pub(crate) fn show_lifted<K: Sink, E: Sink>(
    alloc: Global,
    name: &str,
    file: &[u8],
    view: View,
    out: &mut K,
    reasons: &mut E,
) -> u8
    requires refused { ¬ (IsAccepted file.now) }
    requires lifts { view.strict ≡ false }
    ensures ends { RunEnds (ShowsFile view None name.now file.now) K.Sink out.old out.new result }
    ensures after { IsOfFile result }
{
    let Ok(found) = open_file(alloc, file, false) else {
        return STATUS_MEMORY;
    };
    let shown = FileView { name, file, view };
    let status = show_found(alloc, &shown, &found, out, reasons);
    drop_then(found, status)
}

/// Shows what was opened in place of a file, or tells why it was not.
fn show_found<K: Sink, E: Sink>(
    alloc: Global,
    shown: &FileView<'_>,
    found: &OpenedFile,
    out: &mut K,
    reasons: &mut E,
) -> u8
    requires refused { ¬ (IsAccepted shown.now.file.now) }
    requires lifts { shown.now.view.strict ≡ false }
    requires opened { IsOpenedFile false shown.now.file.now found.now }
    ensures ends { RunEnds (ShowsFile shown.now.view None shown.now.name.now shown.now.file.now)
        K.Sink out.old out.new result }
    ensures after { IsOfFile result }
{
    match &found.opened {
        Ok(opened) => {
            let mended = MendedDocument {
                opened,
                mends: found.mended.mends(),
            };
            show_opened(alloc, shown.name, &mended, shown.view, out, reasons)
        }
        Err(fault) => {
            let read = found.mended.bytes(shown.file);
            tell_read_fault(alloc, shown.name, read, *fault, reasons)
        }
    }
}

/// Shows what was opened, and tells what is left out of it and what is mended.
fn show_opened<K: Sink, E: Sink>(
    alloc: Global,
    name: &str,
    mended: &MendedDocument<'_>,
    view: View,
    out: &mut K,
    reasons: &mut E,
) -> u8
    requires { IsSound mended.now.opened.now.lifted.document }
    ensures ends { RunEnds (PrintsPage view (bare_source mended.now.opened.now.lifted.document)) K.Sink out.old out.new
        result }
    ensures after { IsOfFile result }
{
    let Ok(lines) = lines_of(alloc, name, mended) else {
        return STATUS_MEMORY;
    };
    let status = show_document(alloc, &mended.opened.lifted.document, view, out);
    if status == STATUS_DONE {
        lines.tell(reasons, &mended.opened.losses);
    }
    status
}

/// Tells why a file is not opened, and answers the status.
pub(crate) fn tell_read_fault<E: Sink>(
    alloc: Global,
    name: &str,
    read: &[u8],
    fault: ReadFault,
    reasons: &mut E,
) -> u8
    requires { IsReadFault (fit_rules read.now) fault }
    ensures { IsFaultStatus read.now result }
{
    match fault {
        ReadFault::Refused {
            rule,
            place,
            offset,
        } => {
            let why = why_not_opened(rule, read);
            match tell_refusal(alloc, name, rule, (place, offset), why, reasons) {
                Ok(()) => status_of_rule(rule),
                Err(_) => STATUS_MEMORY,
            }
        }
        ReadFault::Memory => STATUS_MEMORY,
    }
}

/// What is told of a document that was lifted out of a file: how lines begin, and the mends.
#[derive(Drop)]
pub(crate) struct LiftedLines {
    left_out: Text,
    mended: Text,
    mends: Text,
}

/// All memory for what is told.
pub(crate) fn lines_of(
    alloc: Global,
    name: &str,
    mended: &MendedDocument<'_>,
) -> Result<LiftedLines, Memory> {
    Ok(LiftedLines {
        left_out: reason_of_name(alloc, name, "left out: ")?,
        mended: reason_of_name(alloc, name, "mended: ")?,
        mends: mend_lines(alloc, mended)?,
    })
}

impl LiftedLines {
    /// Tells what is left out, and the mends.
    pub(crate) fn tell<E: Sink>(&self, reasons: &mut E, losses: &LossLines) {
        tell_losses(reasons, self.left_out.as_str(), losses);
        tell_lines(reasons, self.mended.as_str(), self.mends.as_str());
    }
}

/// The lines of the mends of the bytes, and of those of the document, in one text.
fn mend_lines(alloc: Global, mended: &MendedDocument<'_>) -> Result<Text, Memory> {
    let mut lines = Text::new(alloc);
    push_file_mends(alloc, &mut lines, mended.mends)?;
    push_mends(alloc, &mut lines, &mended.opened.mends)?;
    Ok(lines)
}

/// Tells what is left out, a line each.
fn tell_losses<E: Sink>(reasons: &mut E, front: &str, losses: &LossLines) {
    for i in 0..losses.len() {
        tell(reasons, [front, losses.line(i), ""]);
    }
}

/// Tells each line of a text.
fn tell_lines<E: Sink>(reasons: &mut E, front: &str, lines: &str) {
    let mut rest = lines;
    'turns: while let Some((line, more)) = rest.split_once('\n') {
        tell(reasons, [front, line, "\n"]);
        rest = more;
    }
}
