// What is asked of the bytes of files that were read: they are checked, and what their documents say is the run's end.
ghost use Rattle.std.specs.Prelude.{◌≡◌, IfOk};
ghost use Rattle.doc_bits.specs.Number.{AreBytes};
ghost use Rattle.plain_doc.specs.Sound.{IsSound};
ghost use Rattle.doc_read.specs.Holds.{all_rules};
ghost use Rattle.doc_read.specs.CarriedParts.{AreShortStreams};
ghost use Rattle.document_commands.specs.Tasks.{task_of, out_of, pair_task_of, out_of_two};
ghost use Rattle.document_commands.specs.Replies.{EndsByReply, Replies, RepliesTwo};
ghost use Rattle.run_stages.specs.Judged.{Judges};
ghost use Rattle.document_commands.specs.Judged.{NamesRule, IsJudgedFile, rules_by_place};
ghost use Rattle.document_commands.specs.Answers.{AnswersFile, ListsStreams};

use crate::equality::compare;
use crate::export::export_reply;
use crate::joining::join_reply;
use crate::listing::listing;
use crate::look::{check_reply, outline_reply, props_reply, show_reply, text_reply};
use crate::reply::Reply;
use crate::retitle::{retitle_reply, title_warning};
use crate::save::full_reply;
use crate::summary::title_reply;
use crate::task::{Pair, Task};
use doc_bits::{Memory, Text};
use doc_columns::ColumnDocument;
use doc_read::{ReadFault, open};
use run_stages::{Ending, STATUS_DONE, Stage, rule_broken, why_refused};
use std::alloc::Global;

/// The ending where something is asked of the document of a file that was read whole under a name.
pub fn answer_file(alloc: Global, task: Task<'_>, name: &str, file: &[u8]) -> Result<Ending, Memory>
    ensures judges { IfOk result (λ e.
        Judges (all_rules file.now) name.now (AnswersFile (task_of task.entry) name.now file.now) e) }
    ensures bytes { AreBytes file.now }
{
    match open(alloc, file) {
        Ok(found) => {
            let ending = answer_document(alloc, &task, name, found.document());
            drop(found);
            ending
        }
        Err(fault) => refusal(alloc, name, file, fault),
    }
}

/// The ending where something is asked of the document of a name.
fn answer_document(
    alloc: Global,
    task: &Task<'_>,
    name: &str,
    document: &ColumnDocument,
) -> Result<Ending, Memory>
    requires sound { IsSound document.now }
    requires short { AreShortStreams document.now.carried.streams }
    ensures { IfOk result
        (EndsByReply (out_of (task_of task.now)) (Replies (task_of task.now) name.now document.now)) }
{
    let reply = reply_on(alloc, task, name, document)?;
    let ending = reply.into_ending(alloc, task.out())?;
    let warning = warning_on(alloc, task, name, document)?;
    Ok(with_warnings(ending, warning))
}

/// What is told of a task that is done, for people.
fn warning_on(
    alloc: Global,
    task: &Task<'_>,
    name: &str,
    document: &ColumnDocument,
) -> Result<Option<Text>, Memory>
    requires { AreShortStreams document.now.carried.streams }
{
    match task {
        Task::Retitle { .. } => title_warning(alloc, name, &document.carried.streams),
        _ => Ok(None),
    }
}

/// The ending of a task that is done, with what is told of it.
fn with_warnings(ending: Ending, warning: Option<Text>) -> Ending
    ensures { result ≡ ending }
{
    match warning {
        Some(warning) if ending.status() == STATUS_DONE => ending.because(warning),
        _ => ending,
    }
}

/// What a task on the document of a name comes to.
fn reply_on(
    alloc: Global,
    task: &Task<'_>,
    name: &str,
    document: &ColumnDocument,
) -> Result<Reply, Memory>
    requires sound { IsSound document.now }
    requires short { AreShortStreams document.now.carried.streams }
    ensures { IfOk result (Replies (task_of task.now) name.now document.now) }
{
    match task {
        Task::Text => text_reply(alloc, document),
        Task::Check => check_reply(alloc, document),
        Task::Show => show_reply(alloc, document),
        Task::Props(pos) => props_reply(alloc, *pos, document),
        Task::Outline => outline_reply(alloc, document),
        Task::Full { .. } => full_reply(alloc, document),
        Task::Title => title_reply(alloc, name, &document.carried.streams),
        Task::Retitle { title, .. } => retitle_reply(alloc, title, name, document),
        Task::Export { .. } => export_reply(alloc, document),
    }
}

/// The ending where something is asked of two documents.
pub fn answer_two(
    alloc: Global,
    pair: Pair<'_>,
    first: &ColumnDocument,
    second: &ColumnDocument,
) -> Result<Ending, Memory>
    requires first { IsSound first.now }
    requires second { IsSound second.now }
    ensures { IfOk result
        (EndsByReply (out_of_two (pair_task_of pair.entry)) (RepliesTwo (pair_task_of pair.entry) first.now second.now)) }
{
    let reply = reply_on_two(alloc, pair, first, second)?;
    reply.into_ending(alloc, pair.out())
}

/// What is asked of two documents comes to.
fn reply_on_two(
    alloc: Global,
    pair: Pair<'_>,
    first: &ColumnDocument,
    second: &ColumnDocument,
) -> Result<Reply, Memory>
    requires first { IsSound first.now }
    requires second { IsSound second.now }
    ensures { IfOk result (RepliesTwo (pair_task_of pair.entry) first.now second.now) }
{
    match pair {
        Pair::Compare => compare(alloc, first, second),
        Pair::Join { .. } => join_reply(alloc, first, second),
    }
}

/// The ending where the streams of a file are asked for.
pub fn list_streams(alloc: Global, name: &str, file: &[u8]) -> Result<Ending, Memory>
    ensures judges { IfOk result (λ e. Judges (rules_by_place file.now) name.now (ListsStreams file.now) e) }
    ensures bytes { AreBytes file.now }
{
    match listing(alloc, file) {
        Ok(text) => Ok(Ending::new(STATUS_DONE, text)),
        Err(fault) => refusal(alloc, name, file, fault),
    }
}

/// Opens the document of a file that was read whole under a name.
pub fn open_file(alloc: Global, name: &str, file: &[u8]) -> Result<Stage<ColumnDocument>, Memory>
    ensures is { IfOk result (λ r. IsJudgedFile name.now file.now r) }
    ensures bytes { AreBytes file.now }
{
    match open(alloc, file) {
        Ok(opened) => {
            let parts = opened.into_parts();
            Ok(Stage::Go(parts.0))
        }
        Err(fault) => {
            let ending = refusal(alloc, name, file, fault)?;
            Ok(Stage::Stop(ending))
        }
    }
}

/// The ending of a file that is refused.
pub fn refusal(alloc: Global, name: &str, file: &[u8], fault: ReadFault) -> Result<Ending, Memory>
    ensures { IfOk result (λ e. NamesRule fault name.now e) }
{
    match fault {
        ReadFault::Refused {
            rule,
            place,
            offset,
        } => rule_broken(alloc, name, rule, (place, offset), why_refused(rule, file)),
        ReadFault::Memory => Err(Memory),
    }
}
