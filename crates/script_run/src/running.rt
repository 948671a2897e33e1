// Commands run over a session.
ghost use Rattle.std.specs.Prelude.{◌≡◌, ◌<◌, ◌≤◌, ℕ, Some, None, true, false, length, map, IfErr, OnErr};
ghost use Rattle.std.specs.Prelude.{OnOk, MatchResult};
ghost use Rattle.edit_guards.specs.Policies.{AllGrant, IsFirstRefuser};
ghost use Rattle.edit_script.specs.Scripts.{EndsWithSave, most_commands};
ghost use Rattle.edit_ops.specs.Causes.{IsEditFault};
ghost use Rattle.fast_save.specs.Edited.{HasEditRoom, IsPlannedEdit};
ghost use Rattle.fast_save.specs.Fast.{IsSavedFast};
ghost use Rattle.script_run.specs.declared.faults.RunFault.TheVariants.{Stopped};
ghost use Rattle.script_run.specs.declared.faults.Stop.TheVariants.{Guarded};
ghost use Rattle.script_run.specs.Saves.{save_mode};
ghost use Rattle.script_run.specs.States.{RunState, starting_state};
ghost use Rattle.script_run.specs.Commands.{listed};
ghost use Rattle.script_run.specs.Steps.{Makes, Halts, HaltsFull, HaltsFast, IsRunTo, IsFullSave};
ghost use Rattle.script_run.specs.Ends.{StopsEdit, HaltsBy, IsSavedBy, IsUnchanged, end_state};
ghost use Rattle.script_run.specs.Ends.{IsRunFault, AreToldUpTo};

use crate::saves::mode_of;
use crate::source::Source;
use crate::{RunFault, SaveCounts, Stop, count_saves};
use doc_bits::Bytes;
use edit_guards::{Guard, first_refuser, note_all};
use edit_ops::{Command, Edit, EditFault, Facts, Script};
use fast_save::{FastFault, Session};
use full_save::SaveFault;
use std::alloc::Global;

/// What a script leaves.
#[derive(Drop)]
pub struct Saved {
    /// The bytes of the last save.
    pub image: Bytes,
    pub commands: usize,
    pub saves: SaveCounts,
}

/// Runs a script over a session: up to the first command that stops it, or to the bytes of its last save. The guards
/// are told of each edit that is accepted and that all of them allow.
pub fn run_script(
    alloc: Global,
    session: Session,
    script: &Script,
    guards: &mut [Box<dyn Guard>],
) -> Result<Saved, RunFault>
    requires unchanged { IsUnchanged session }
    requires few { length script.now ≤ most_commands }
    requires saved { EndsWithSave script.now }
    ensures ends { MatchResult result
        (IsSavedBy (starting_state session (map (λ b. policy b) guards.old)) script.now)
        (IsRunFault (starting_state session (map (λ b. policy b) guards.old)) (listed script.now)) }

    // What the guards were told of.
    ensures guards { MatchResult result
        (λ _. map (λ b. policy b) guards.new
        ≡ (end_state (starting_state session (map (λ b. policy b) guards.old)) (listed script.now)).policies)
        (λ fault. AreToldUpTo (starting_state session (map (λ b. policy b) guards.old)) (listed script.now) fault
        (map (λ b. policy b) guards.new)) }
{
    let mut session = session;
    let saved = run_on(alloc, &mut session, script, guards);
    drop(session);
    saved
}

/// Runs a script over a session that is lent.
fn run_on(
    alloc: Global,
    session: &mut Session,
    script: &Script,
    guards: &mut [Box<dyn Guard>],
) -> Result<Saved, RunFault>
    requires unchanged { IsUnchanged session.old }
    requires few { length script.now ≤ most_commands }
    requires saved { EndsWithSave script.now }
    ensures ends { MatchResult result
        (IsSavedBy (starting_state session.old (map (λ b. policy b) guards.old)) script.now)
        (IsRunFault (starting_state session.old (map (λ b. policy b) guards.old)) (listed script.now)) }
    ensures guards { MatchResult result
        (λ _. map (λ b. policy b) guards.new
        ≡ (end_state (starting_state session.old (map (λ b. policy b) guards.old)) (listed script.now)).policies)
        (λ fault. AreToldUpTo (starting_state session.old (map (λ b. policy b) guards.old)) (listed script.now) fault
        (map (λ b. policy b) guards.new)) }
{
    run_all(alloc, script, session, guards)?;
    let image = match Bytes::from_slice(alloc, session.bytes()) {
        Ok(image) => image,
        Err(_) => return Err(RunFault::Memory),
    };
    Ok(Saved {
        image,
        commands: script.len(),
        saves: count_saves(script),
    })
}

/// Makes all commands of a source, up to the first one that stops the run.
pub(crate) fn run_all<S: Source>(
    alloc: Global,
    source: &S,
    session: &mut Session,
    guards: &mut [Box<dyn Guard>],
) -> Result<(), RunFault>
    requires unchanged { IsUnchanged session.old }
    requires few { (S.commands source.now).count ≤ most_commands }
    ensures ok { OnOk result
        (IsRunTo (starting_state session.old (map (λ b. policy b) guards.old)) (S.commands source.now)
        (S.commands source.now).count session.new (map (λ b. policy b) guards.new)) }
    ensures err { IfErr result
        (IsRunFault (starting_state session.old (map (λ b. policy b) guards.old)) (S.commands source.now)) }
    ensures told { IfErr result
        (λ fault. AreToldUpTo (starting_state session.old (map (λ b. policy b) guards.old)) (S.commands source.now)
        fault
        (map (λ b. policy b) guards.new)) }
{
    for index in 0..source.count() {
        source.make(alloc, index, session, guards)?;
    }
    Ok(())
}

/// Makes the command of this number.
pub(crate) fn run_command(
    session: &mut Session,
    guards: &mut [Box<dyn Guard>],
    command: &Command,
    index: usize,
) -> Result<(), RunFault>
    requires room { HasEditRoom session.old.counts }
    ensures made { OnOk result
        (Makes command.now session.old (map (λ b. policy b) guards.old)
        session.new (map (λ b. policy b) guards.new)) }
    ensures err { IfErr result (Halts command.now session.old (map (λ b. policy b) guards.old) index) }
    ensures told { OnErr result (map (λ b. policy b) guards.new ≡ map (λ b. policy b) guards.old) }
{
    match mode_of(command) {
        None => edit(session, guards, command, index),
        Some(true) => save_full(session, index),
        Some(false) => save_fast(session, index),
    }
}

/// Makes the edit of this number, where it is accepted and the guards allow it.
fn edit(
    session: &mut Session,
    guards: &mut [Box<dyn Guard>],
    command: &Command,
    index: usize,
) -> Result<(), RunFault>
    requires room { HasEditRoom session.old.counts }
    requires edits { save_mode command.now ≡ None }
    ensures made { OnOk result
        (Makes command.now session.old (map (λ b. policy b) guards.old)
        session.new (map (λ b. policy b) guards.new)) }
    ensures err { IfErr result (Halts command.now session.old (map (λ b. policy b) guards.old) index) }
    ensures told { OnErr result (map (λ b. policy b) guards.new ≡ map (λ b. policy b) guards.old) }
{
    let edit = plan(session, command, index)?;
    let facts = edit.facts;
    let edit = ask_guards(guards, facts, index, edit)?;
    session.make(command, edit)?;
    note_all(guards, facts);
    Ok(())
}

/// The edit, where all guards allow it.
fn ask_guards<E: Drop>(
    guards: &[Box<dyn Guard>],
    facts: Facts,
    index: usize,
    edit: E,
) -> Result<E, RunFault>
    ensures { MatchResult result
        (λ made. (made ≡ edit) × AllGrant (map (λ b. policy b) guards.now) facts)
        (λ fault. (guard : ℕ) × ((fault ≡ Stopped index (Guarded guard))
        × IsFirstRefuser (map (λ b. policy b) guards.now) facts guard)) }
{
    match first_refuser(guards, facts) {
        None => Ok(edit),
        Some(guard) => Err(RunFault::Stopped {
            index,
            stop: Stop::Guarded { guard },
        }),
    }
}

/// The edit of this number, or the end of the run by it.
fn plan(session: &Session, command: &Command, index: usize) -> Result<Edit, RunFault>
    ensures { MatchResult result (IsPlannedEdit session.now.document command.now)
        (λ fault. (state : RunState) → state.document ≡ session.now.document →
        HaltsBy index (StopsEdit state command.now) fault) }
{
    match session.plan(command) {
        Ok(edit) => Ok(edit),
        Err(fault) => Err(refusal(index, fault)),
    }
}

/// The end of a run by an edit that is refused.
fn refusal(index: usize, fault: EditFault) -> RunFault
    ensures { (state : RunState) → (command : Command) → IsEditFault state.document command fault →
        HaltsBy index (StopsEdit state command) result }
{
    match fault {
        EditFault::Memory => RunFault::Memory,
        fault => RunFault::Stopped {
            index,
            stop: Stop::Refused(fault),
        },
    }
}

/// Makes the full save of this number. No guard is asked.
fn save_full(session: &mut Session, index: usize) -> Result<(), RunFault>
    ensures ok { OnOk result (IsFullSave session.old session.new) }
    ensures err { IfErr result (HaltsFull session.old index) }
{
    match session.full() {
        Ok(()) => Ok(()),
        Err(SaveFault::TooLarge { sectors }) => Err(RunFault::Stopped {
            index,
            stop: Stop::TooLarge { sectors },
        }),
        Err(SaveFault::Memory) => Err(RunFault::Memory),
    }
}

/// Makes the fast save of this number. No guard is asked.
fn save_fast(session: &mut Session, index: usize) -> Result<(), RunFault>
    ensures ok { OnOk result (IsSavedFast session.old session.new) }
    ensures err { IfErr result (HaltsFast session.old index) }
{
    match session.fast() {
        Ok(()) => Ok(()),
        Err(FastFault::Sixteenth { count }) => Err(RunFault::Stopped {
            index,
            stop: Stop::Sixteenth { count },
        }),
        Err(FastFault::TooManyPieces { pieces }) => Err(RunFault::Stopped {
            index,
            stop: Stop::TooManyPieces { pieces },
        }),
        Err(FastFault::TooLarge { sectors }) => Err(RunFault::Stopped {
            index,
            stop: Stop::TooLarge { sectors },
        }),
        Err(FastFault::Memory) => Err(RunFault::Memory),
    }
}
