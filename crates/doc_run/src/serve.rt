// The endings of a run that reads files: each is read and checked before the next one is looked for.
ghost use Rattle.std.specs.Prelude.{Some, map, IfOk};
ghost use Rattle.doc_bits.specs.Number.{AreBytes};
ghost use Rattle.plain_doc.specs.Sound.{IsSound};
ghost use Rattle.doc_read.specs.Holds.{all_rules};
ghost use Rattle.script_run.specs.States.{starting_state};
ghost use Rattle.script_run.specs.Ends.{IsUnchanged};
ghost use Rattle.document_commands.specs.Tasks.{task_of, pair_task_of};
ghost use Rattle.document_commands.specs.Replies.{EndsByReply};
ghost use Rattle.document_commands.specs.Judged.{rules_by_place};
ghost use Rattle.run_stages.specs.Judged.{Judges};
ghost use Rattle.document_commands.specs.Answers.{ListsStreams, AnswersFile};
ghost use Rattle.document_commands.specs.Imports.{Imports};
ghost use Rattle.run_stages.specs.Leaves.{IsCaused, IsOnlyRead};
ghost use Rattle.run_stages.specs.Stages.{ReadsFile};
ghost use Rattle.run_stages.specs.Reading.{FollowsStage, IsFileStage, stage_status};
ghost use Rattle.doc_run.specs.Reading.{AnswersBeside};
ghost use Rattle.doc_run.specs.Edits.{EditsBy, IsOverlongScript, ReadsScript, EditsFile};
ghost use Rattle.doc_run.specs.Imports.{ReadsJson};
ghost use Rattle.doc_run.specs.Endings.{ReadsSecond};

use crate::edit::{edit_under, overlong_script};
use crate::opening::{begin_taken, open_taken};
use doc_bits::{Bytes, Memory, drop_then, with_result};
use doc_columns::ColumnDocument;
use doc_outer::Shelf;
use document_commands::{
    Pair, Task, answer_file, answer_two, import_file, list_streams, open_file, overlong_json,
};
use edit_guards::Guard;
use fast_save::Session;
use run_stages::{Ending, Stage, take_file, take_whole};
use std::alloc::Global;

/// The ending where the streams of a file are asked for.
pub(crate) fn serve_streams<S: Shelf>(
    alloc: Global,
    shelf: &mut S,
    file: &str,
) -> Result<Ending, Memory>
    ensures read { IsOnlyRead S.Shelf shelf.old shelf.new }
    ensures ends { IfOk result (λ e. ReadsFile file.now (S.held shelf.old) rules_by_place ListsStreams e) }
    ensures cause { IfOk result (λ e. IsCaused S.Shelf shelf.old shelf.new e.status) }
{
    let taken = take_file(alloc, shelf, file)?;
    list_taken(alloc, file, taken)
}

/// The ending where the streams of what was read are asked for.
fn list_taken(alloc: Global, name: &str, taken: Stage<Bytes>) -> Result<Ending, Memory>
    ensures { IfOk result (λ e. FollowsStage taken
        (λ bytes. Judges (rules_by_place bytes) name.now (ListsStreams bytes)) e) }
{
    match taken {
        Stage::Go(bytes) => list_streams(alloc, name, bytes.as_slice()),
        Stage::Stop(ending) => Ok(ending),
    }
}

/// The ending where something is asked of the document of a file.
pub(crate) fn serve_document<S: Shelf>(
    alloc: Global,
    shelf: &mut S,
    task: Task<'_>,
    file: &str,
) -> Result<Ending, Memory>
    ensures read { IsOnlyRead S.Shelf shelf.old shelf.new }
    ensures ends { IfOk result (λ e.
        ReadsFile file.now (S.held shelf.old) all_rules (AnswersFile (task_of task.entry) file.now) e) }
    ensures cause { IfOk result (λ e. IsCaused S.Shelf shelf.old shelf.new e.status) }
{
    let taken = take_file(alloc, shelf, file)?;
    answer_taken(alloc, task, file, taken)
}

/// The ending where something is asked of the document of what was read.
fn answer_taken(
    alloc: Global,
    task: Task<'_>,
    name: &str,
    taken: Stage<Bytes>,
) -> Result<Ending, Memory>
    ensures { IfOk result (λ e. FollowsStage taken
        (λ bytes. Judges (all_rules bytes) name.now (AnswersFile (task_of task.entry) name.now bytes)) e) }
{
    match taken {
        Stage::Go(bytes) => answer_file(alloc, task, name, bytes.as_slice()),
        Stage::Stop(ending) => Ok(ending),
    }
}

/// The ending where something is asked of the documents of two files. The first is checked before the second is looked
/// for.
pub(crate) fn serve_two<S: Shelf>(
    alloc: Global,
    shelf: &mut S,
    pair: Pair<'_>,
    first: &str,
    second: &str,
) -> Result<Ending, Memory>
    ensures read { IsOnlyRead S.Shelf shelf.old shelf.new }
    ensures ends { IfOk result (λ e. ReadsFile first.now (S.held shelf.old) all_rules
        (ReadsSecond (pair_task_of pair.entry) second.now (S.held shelf.old)) e) }
    ensures cause { IfOk result (λ e. IsCaused S.Shelf shelf.old shelf.new e.status) }
{
    let taken = take_file(alloc, shelf, first)?;
    let reached = open_taken(alloc, first, taken)?;
    match reached {
        Stage::Go(document) => {
            let ending = serve_second(alloc, shelf, pair, &document, second);
            drop(document);
            ending
        }
        Stage::Stop(ending) => Ok(ending),
    }
}

/// The ending where something is asked of a document and of that of a file.
fn serve_second<S: Shelf>(
    alloc: Global,
    shelf: &mut S,
    pair: Pair<'_>,
    first: &ColumnDocument,
    second: &str,
) -> Result<Ending, Memory>
    requires { IsSound first.now }
    ensures read { IsOnlyRead S.Shelf shelf.old shelf.new }
    ensures ends { IfOk result (λ e.
        ReadsFile second.now (S.held shelf.old) all_rules (AnswersBeside (pair_task_of pair.entry) first.now) e) }
    ensures cause { IfOk result (λ e. IsCaused S.Shelf shelf.old shelf.new e.status) }
{
    let taken = take_file(alloc, shelf, second)?;
    second_taken(alloc, pair, first, second, taken)
}

/// The ending where something is asked of a document and of that of what was read.
fn second_taken(
    alloc: Global,
    pair: Pair<'_>,
    first: &ColumnDocument,
    name: &str,
    taken: Stage<Bytes>,
) -> Result<Ending, Memory>
    requires { IsSound first.now }
    ensures { IfOk result (λ e. FollowsStage taken
        (λ bytes. Judges (all_rules bytes) name.now (AnswersBeside (pair_task_of pair.entry) first.now bytes)) e) }
{
    match taken {
        Stage::Go(bytes) => answer_second(alloc, pair, first, name, bytes.as_slice()),
        Stage::Stop(ending) => Ok(ending),
    }
}

/// The ending where something is asked of a document and of that of a file that was read whole.
fn answer_second(
    alloc: Global,
    pair: Pair<'_>,
    first: &ColumnDocument,
    name: &str,
    file: &[u8],
) -> Result<Ending, Memory>
    requires { IsSound first.now }
    ensures judges { IfOk result (λ e.
        Judges (all_rules file.now) name.now (AnswersBeside (pair_task_of pair.entry) first.now file.now) e) }
    ensures bytes { AreBytes file.now }
{
    let reached = open_file(alloc, name, file)?;
    match reached {
        Stage::Go(second) => {
            let ending = answer_two(alloc, pair, first, &second);
            drop(second);
            ending
        }
        Stage::Stop(ending) => Ok(ending),
    }
}

/// The ending where the document that is the JSON of a file is saved under a name. No rule of files is checked.
pub(crate) fn serve_import<S: Shelf>(
    alloc: Global,
    shelf: &mut S,
    file: &str,
    out: &str,
) -> Result<Ending, Memory>
    ensures read { IsOnlyRead S.Shelf shelf.old shelf.new }
    ensures ends { IfOk result (λ e. ReadsJson file.now out.now (S.held shelf.old) e) }
    ensures cause { IfOk result (λ e. IsCaused S.Shelf shelf.old shelf.new e.status) }
{
    let overlong = overlong_json(alloc)?;
    let taken = take_whole(alloc, shelf, file, overlong)?;
    import_taken(alloc, taken, out)
}

/// The ending where the document that is the JSON of what was read is saved.
fn import_taken(alloc: Global, taken: Stage<Bytes>, out: &str) -> Result<Ending, Memory>
    ensures { IfOk result (λ e. FollowsStage taken
        (λ bytes. EndsByReply (Some out.now) (Imports bytes)) e) }
{
    match taken {
        Stage::Go(bytes) => import_file(alloc, bytes.as_slice(), out),
        Stage::Stop(ending) => Ok(ending),
    }
}

/// The ending where the document of a file is edited by a script. The file is checked before the script is looked for.
pub(crate) fn serve_edit<S: Shelf>(
    alloc: Global,
    shelf: &mut S,
    file: &str,
    script: &str,
    out: &str,
    guards: &mut [Box<dyn Guard>],
) -> Result<Ending, Memory>
    ensures read { IsOnlyRead S.Shelf shelf.old shelf.new }
    ensures ends { IfOk result (λ e. ReadsFile file.now (S.held shelf.old) all_rules
        (EditsFile (map (λ b. policy b) guards.old) script.now out.now (S.held shelf.old)) e) }
    ensures cause { IfOk result (λ e. IsCaused S.Shelf shelf.old shelf.new e.status) }
{
    let taken = take_file(alloc, shelf, file)?;
    let begun = begin_taken(alloc, file, taken)?;
    match begun {
        Stage::Go(session) => edit_by_name(alloc, shelf, session, script, out, guards),
        Stage::Stop(ending) => Ok(ending),
    }
}

/// The ending where a session is run by the script of a name.
fn edit_by_name<S: Shelf>(
    alloc: Global,
    shelf: &mut S,
    session: Session,
    script: &str,
    out: &str,
    guards: &mut [Box<dyn Guard>],
) -> Result<Ending, Memory>
    requires { IsUnchanged session }
    ensures read { IsOnlyRead S.Shelf shelf.old shelf.new }
    ensures ends { IfOk result (λ e.
        ReadsScript script.now out.now (S.held shelf.old) (starting_state session (map (λ b. policy b) guards.old)) e) }
    ensures cause { IfOk result (λ e. IsCaused S.Shelf shelf.old shelf.new e.status) }
{
    let read = take_script(alloc, shelf, script);
    let (session, taken) = with_result(session, read)?;
    edit_taken(alloc, session, taken, out, guards)
}

/// Reads a script whole.
fn take_script<S: Shelf>(alloc: Global, shelf: &mut S, script: &str) -> Result<Stage<Bytes>, Memory>
    ensures read { IsOnlyRead S.Shelf shelf.old shelf.new }
    ensures is { IfOk result (λ t. IsFileStage script.now (S.held shelf.old) IsOverlongScript t) }
    ensures cause { IfOk result (λ t. IsCaused S.Shelf shelf.old shelf.new (stage_status t)) }
{
    let overlong = overlong_script(alloc)?;
    take_whole(alloc, shelf, script, overlong)
}

/// The ending where a session is run by what was read as a script.
fn edit_taken(
    alloc: Global,
    session: Session,
    taken: Stage<Bytes>,
    out: &str,
    guards: &mut [Box<dyn Guard>],
) -> Result<Ending, Memory>
    requires { IsUnchanged session }
    ensures { IfOk result (λ e. FollowsStage taken
        (λ bytes. EndsByReply (Some out.now) (EditsBy (starting_state session (map (λ b. policy b) guards.old)) bytes))
        e) }
{
    match taken {
        Stage::Go(bytes) => edit_under(alloc, session, bytes.as_slice(), out, guards),
        Stage::Stop(ending) => Ok(drop_then(session, ending)),
    }
}
