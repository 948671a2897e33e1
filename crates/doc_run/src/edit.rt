// The endings of a run that edits a document.
ghost use Rattle.std.specs.Prelude.{◌≡◌, ◌≤◌, Some, length, IfOk, map};
ghost use Rattle.doc_bits.specs.Number.{AreBytes};
ghost use Rattle.edit_script.specs.Laws.{IsScriptCause};
ghost use Rattle.edit_script.specs.Scripts.{EndsWithSave, most_commands};
ghost use Rattle.script_run.specs.States.{starting_state};
ghost use Rattle.script_run.specs.Ends.{IsUnchanged};
ghost use Rattle.document_commands.specs.Replies.{EndsByReply};
ghost use Rattle.document_commands.specs.declared.reply.Reply.TheVariants.{Made, Refused};
ghost use Rattle.document_commands.specs.declared.reply.Refusal.TheVariants.{Script as no_script};
ghost use Rattle.doc_run.specs.EditLines.{script_line as script_of, stop_line as stop_of, edited_line as edited_of};
ghost use Rattle.doc_run.specs.Edits.{refusal_of as why_of, Edits, EditsBy, IsOverlongScript};

use crate::edit_lines::{edited_line, script_line, stop_line};
use doc_bits::{Memory, drop_then};
use document_commands::{Refusal, Reply, STATUS_SCRIPT};
use edit_guards::Guard;
use edit_ops::{Script, ScriptFault, read_script};
use fast_save::Session;
use json_reasons::why_no_script;
use run_stages::Ending;
use script_run::{RunFault, Saved, Stop, run_script};
use std::alloc::Global;

/// The ending where a session is run by the bytes of a script, under the eyes of guards, and its last save is put under
/// a name.
pub(crate) fn edit_under(
    alloc: Global,
    session: Session,
    script: &[u8],
    out: &str,
    guards: &mut [Box<dyn Guard>],
) -> Result<Ending, Memory>
    requires { IsUnchanged session }
    ensures ends { IfOk result (λ e.
        EndsByReply (Some out.now) (EditsBy (starting_state session (map (λ b. policy b) guards.old)) script.now) e) }
    ensures bytes { AreBytes script.now }
{
    let reply = edit_by(alloc, session, script, guards)?;
    let ending = reply.into_ending(alloc, Some(out))?;
    Ok(explain(alloc, ending, script))
}

/// The ending; that of a script that is none tells what of it is wrong.
fn explain(alloc: Global, ending: Ending, script: &[u8]) -> Ending
    ensures { result ≡ ending }
{
    if ending.status() != STATUS_SCRIPT {
        return ending;
    }
    match why_no_script(alloc, script) {
        Some(reason) => ending.because(reason),
        None => ending,
    }
}

/// What running a session by the bytes of a script comes to.
fn edit_by(
    alloc: Global,
    session: Session,
    script: &[u8],
    guards: &mut [Box<dyn Guard>],
) -> Result<Reply, Memory>
    requires { IsUnchanged session }
    ensures { IfOk result (λ r. EditsBy (starting_state session (map (λ b. policy b) guards.old)) script.now r) }
{
    match read_script(alloc, script) {
        Ok(script) => edit(alloc, session, &script, guards),
        Err(fault) => drop_then(session, no_script(alloc, fault)),
    }
}

/// What bytes come to that are no script.
fn no_script(alloc: Global, fault: ScriptFault) -> Result<Reply, Memory>
    ensures { IfOk result (λ r. IsScriptCause fault × (r ≡ Refused no_script (script_of fault))) }
{
    let text = script_line(alloc, fault)?;
    let why = Refusal::Script;
    Ok(Reply::Refused { why, text })
}

/// The ending of a script that has more bytes than any file.
pub(crate) fn overlong_script(alloc: Global) -> Result<Ending, Memory>
    ensures { IfOk result (λ e. IsOverlongScript e) }
{
    let text = script_line(alloc, ScriptFault::TooLong)?;
    Ok(Ending::new(STATUS_SCRIPT, text))
}

/// What running a session by commands comes to.
fn edit(
    alloc: Global,
    session: Session,
    script: &Script,
    guards: &mut [Box<dyn Guard>],
) -> Result<Reply, Memory>
    requires unchanged { IsUnchanged session }
    requires few { length script.now ≤ most_commands }
    requires saved { EndsWithSave script.now }
    ensures { IfOk result (λ r. Edits (starting_state session (map (λ b. policy b) guards.old)) script.now r) }
{
    match run_script(alloc, session, script, guards) {
        Ok(saved) => reply_of_edit(alloc, saved),
        Err(RunFault::Stopped { index, stop }) => reply_of_stop(alloc, index, stop),
        Err(RunFault::Memory) => Err(Memory),
    }
}

/// What a script left.
fn reply_of_edit(alloc: Global, saved: Saved) -> Result<Reply, Memory>
    ensures { IfOk result (λ r.
        r ≡ Made (edited_of saved.commands saved.saves.fast saved.saves.full) saved.image) }
{
    let Saved {
        image,
        commands,
        saves,
    } = saved;
    let text = edited_line(alloc, commands, saves)?;
    Ok(Reply::Made { text, bytes: image })
}

/// What a script comes to that a command stops.
fn reply_of_stop(alloc: Global, index: usize, stop: Stop) -> Result<Reply, Memory>
    ensures { IfOk result (λ r. r ≡ Refused (why_of stop) (stop_of index stop)) }
{
    let text = stop_line(alloc, index, stop)?;
    let why = refusal_of(stop);
    Ok(Reply::Refused { why, text })
}

/// Why a script is refused that a command stops.
fn refusal_of(stop: Stop) -> Refusal
    ensures { result ≡ why_of stop }
{
    match stop {
        Stop::Refused(_) => Refusal::Edit,
        Stop::Guarded { .. } => Refusal::Guarded,
        Stop::Sixteenth { .. } | Stop::TooManyPieces { .. } | Stop::TooLarge { .. } =>
            Refusal::Save,
    }
}
