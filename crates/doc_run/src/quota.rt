// A run of the program, whose one guard is a quota.
ghost use Rattle.std.specs.Prelude.{◌≡◌, ◌≢◌, ℕ, List, Some, map};
ghost use Rattle.std.specs.Process.{exit_status};
ghost use Rattle.std.specs.String.{string_bytes};
ghost use Rattle.doc_outer.specs.Counts.{Rose};
ghost use Rattle.doc_outer.specs.Held.{Files, StaysAt};
ghost use Rattle.doc_outer.specs.Written.{Appends, AppendsPrefix};
ghost use Rattle.fast_save.specs.Laws.{EqualFilesHaveOneSave};
ghost use Rattle.run_stages.specs.Outcomes.{Outcome};
ghost use Rattle.doc_run.specs.Commands.{Request, IsCommand, CommandIsOne, PutsUnder};
ghost use Rattle.run_stages.specs.Leaves.{HasCause, IsToldOfPut, LeavesPut};
ghost use Rattle.doc_run.specs.Endings.{IsEnding, EndingIsOne};
ghost use Rattle.doc_run.specs.Completeness.{CanServe};
ghost use Rattle.doc_run.specs.Quota.{program_policies};

use crate::run::{PROGRAM, run_telling};
use doc_outer::{Shelf, Sink};
use edit_guards::{Guard, UnitQuota};
use run_stages::{STATUS_MEMORY, tell_status};
use std::alloc::Global;
use std::process::ExitCode;

/// How many items the edits of a run may add.
pub const QUOTA_UNITS: u64 = 1_000_000;

/// The program: runs the words of a command over the files of a shelf under one guard, a quota on the items that edits
/// add, and answers the exit code of its status. Where there is no memory for the quota, that is the one for want of it.
/// A second sink is told why the run ends so, for people: what it does not take changes nothing.
pub fn program<S: Shelf, K: Sink, E: Sink>(
    alloc: Global,
    words: &[String],
    shelf: &mut S,
    out: &mut K,
    reasons: &mut E,
) -> ExitCode
    // Each clause is that of `docbin_run`, with the policy of the quota.
    ensures kept { (name : List ℕ)
        → ((command : Request) → IsCommand (map string_bytes words.now) command → ¬ (PutsUnder command name))
        → StaysAt name (S.held shelf.old) (S.held shelf.new) }
    ensures unchanged { exit_status result ≢ 0 → exit_status result ≢ 5
        → IsToldOfPut (exit_status result) (S.put_faults shelf.old) (S.put_faults shelf.new)
        → S.held shelf.new ≡ S.held shelf.old }
    ensures ending { exit_status result ≢ 5 → exit_status result ≢ 6 → (outcome : Outcome)
        × ((outcome.status ≡ (exit_status result))
        × (IsEnding program_policies (map string_bytes words.now) (S.held shelf.old) outcome
        × (Appends (K.written out.old) (K.written out.new) outcome.text
        × LeavesPut outcome (S.put_faults shelf.old) (S.put_faults shelf.new) (S.held shelf.old) (S.held shelf.new)))) }
    ensures one_command { CommandIsOne }
    ensures only { EndingIsOne }
    ensures equal_saves { EqualFilesHaveOneSave }
    ensures complete { (command : Request) (files : Files)
        → IsCommand (map string_bytes words.now) command
        → S.held shelf.old ≡ Some files → CanServe program_policies command files
        → ¬ (Rose (S.faults shelf.old) (S.faults shelf.new))
        → ¬ (Rose (K.faults out.old) (K.faults out.new)) → exit_status result ≢ 6 → exit_status result ≡ 0 }

    ensures missing { exit_status result ≡ 3 → Rose (S.missed shelf.old) (S.missed shelf.new) }
    ensures shelf_fault { exit_status result ≡ 4 → Rose (S.faults shelf.old) (S.faults shelf.new) }
    ensures sink_fault { exit_status result ≡ 5 → Rose (K.faults out.old) (K.faults out.new) }
    ensures prefix { exit_status result ≡ 5 → (outcome : Outcome)
        × (IsEnding program_policies (map string_bytes words.now) (S.held shelf.old) outcome
        × (HasCause outcome.status (S.missed shelf.old) (S.missed shelf.new) (S.faults shelf.old) (S.faults shelf.new)
        × (AppendsPrefix (K.written out.old) (K.written out.new) outcome.text
        × LeavesPut outcome (S.put_faults shelf.old) (S.put_faults shelf.new) (S.held shelf.old) (S.held shelf.new)))) }
    ensures nothing { exit_status result ≡ 6 → K.written out.new ≡ K.written out.old }
{
    let mut guards: Vec<Box<dyn Guard>> = Vec::new(alloc);
    let Ok(quota) = Box::new(alloc, UnitQuota::new(QUOTA_UNITS)) else {
        tell_status(reasons, PROGRAM, STATUS_MEMORY);
        return ExitCode::from(STATUS_MEMORY);
    };
    if guards.push(quota).is_err() {
        tell_status(reasons, PROGRAM, STATUS_MEMORY);
        return ExitCode::from(STATUS_MEMORY);
    }
    let status = run_telling(alloc, words, shelf, out, reasons, guards);
    ExitCode::from(status)
}
