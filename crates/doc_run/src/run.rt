// One run of the program: what it prints is made first; then its file is put, and then it is printed.
ghost use Rattle.std.specs.Prelude.{◌≡◌, ◌≢◌, ℕ, List, Some, map, IfOk, OnErr};
ghost use Rattle.std.specs.String.{string_bytes};
ghost use Rattle.doc_outer.specs.Counts.{Rose};
ghost use Rattle.doc_outer.specs.Held.{Files, StaysAt};
ghost use Rattle.doc_outer.specs.Written.{Appends, AppendsPrefix};
ghost use Rattle.fast_save.specs.Laws.{EqualFilesHaveOneSave};
ghost use Rattle.run_stages.specs.Outcomes.{Outcome};
ghost use Rattle.doc_run.specs.Commands.{Request};
ghost use Rattle.doc_run.specs.Commands.{IsCommand, CommandIsOne, PutsUnder};
ghost use Rattle.run_stages.specs.Leaves.{HasCause, IsCaused, IsOnlyRead, IsToldOfPut, LeavesPut};
ghost use Rattle.doc_run.specs.Endings.{IsEnding, EndingIsOne};
ghost use Rattle.doc_run.specs.Completeness.{CanServe};

use crate::command::{Command, command_of};
use crate::generated::generate_under;
use crate::nowhere::Nowhere;
use crate::serve::{serve_document, serve_edit, serve_import, serve_streams, serve_two};
use doc_bits::Memory;
use doc_outer::{PutFault, Shelf, Sink, write_all};
use document_commands::usage_line;
use edit_guards::Guard;
use run_stages::{
    Ending, STATUS_MEMORY, STATUS_SHELF_FAULT, STATUS_SINK_FAULT, STATUS_USAGE, shelf_fault_line,
    tell_reason, tell_status,
};
use std::alloc::Global;

/// The name that each line of a reason begins with.
pub(crate) const PROGRAM: &str = "docbin";

/// Runs the words of a command over the files of a shelf, and answers the status. The guards are asked at each edit of
/// a script, and dropped with the run. Why the run ends so is told to nobody.
pub fn docbin_run<S: Shelf, K: Sink>(
    alloc: Global,
    words: &[String],
    shelf: &mut S,
    out: &mut K,
    guards: Vec<Box<dyn Guard>>,
) -> u8
    // A name that the words put nothing under holds what it held.
    ensures kept { (name : List ℕ)
        → ((command : Request) → IsCommand (map string_bytes words.now) command → ¬ (PutsUnder command name))
        → StaysAt name (S.held shelf.old) (S.held shelf.new) }

    // The shelf changes at the statuses 0 and 5 alone, and at 4 where a put failed.
    ensures unchanged { result ≢ 0 → result ≢ 5
        → IsToldOfPut result (S.put_faults shelf.old) (S.put_faults shelf.new)
        → S.held shelf.new ≡ S.held shelf.old }

    // A run ends in one of the ways that the words, the shelf and the guards decide: with its status, its text printed
    // and its file put. Where a put failed, nothing is said of the name that it was to hold.
    ensures ending { result ≢ 5 → result ≢ 6 → (outcome : Outcome)
        × ((outcome.status ≡ result)
        × (IsEnding (map (λ b. policy b) guards.items) (map string_bytes words.now) (S.held shelf.old) outcome
        × (Appends (K.written out.old) (K.written out.new) outcome.text
        × LeavesPut outcome (S.put_faults shelf.old) (S.put_faults shelf.new) (S.held shelf.old) (S.held shelf.new)))) }

    // Words are one command; words, known files and guards have one outcome, but for the bytes of a fast save.
    ensures one_command { CommandIsOne }
    ensures only { EndingIsOne }

    // Where the documents of two files fit a file, `equal` says whether their full saves are the same bytes.
    ensures equal_saves { EqualFilesHaveOneSave }

    // A command in whose way nothing is is served, unless a fault rose or memory was refused.
    ensures complete { (command : Request) (files : Files)
        → IsCommand (map string_bytes words.now) command
        → S.held shelf.old ≡ Some files → CanServe (map (λ b. policy b) guards.items) command files
        → ¬ (Rose (S.faults shelf.old) (S.faults shelf.new))
        → ¬ (Rose (K.faults out.old) (K.faults out.new)) → result ≢ 6 → result ≡ 0 }

    // A status for what failed outside shows in a count of this run.
    ensures missing { result ≡ 3 → Rose (S.missed shelf.old) (S.missed shelf.new) }
    ensures shelf_fault { result ≡ 4 → Rose (S.faults shelf.old) (S.faults shelf.new) }
    ensures sink_fault { result ≡ 5 → Rose (K.faults out.old) (K.faults out.new) }

    // A sink that fails has taken a prefix of the text of such an outcome, which has its cause; its file was put.
    ensures prefix { result ≡ 5 → (outcome : Outcome)
        × (IsEnding (map (λ b. policy b) guards.items) (map string_bytes words.now) (S.held shelf.old) outcome
        × (HasCause outcome.status (S.missed shelf.old) (S.missed shelf.new) (S.faults shelf.old) (S.faults shelf.new)
        × (AppendsPrefix (K.written out.old) (K.written out.new) outcome.text
        × LeavesPut outcome (S.put_faults shelf.old) (S.put_faults shelf.new) (S.held shelf.old) (S.held shelf.new)))) }

    // Without memory nothing is printed.
    ensures nothing { result ≡ 6 → K.written out.new ≡ K.written out.old }
{
    run_telling(alloc, words, shelf, out, &mut Nowhere, guards)
}

/// Runs the words of a command; a second sink is told why the run ends so, for people. What it does not take changes
/// nothing.
pub(crate) fn run_telling<S: Shelf, K: Sink, E: Sink>(
    alloc: Global,
    words: &[String],
    shelf: &mut S,
    out: &mut K,
    reasons: &mut E,
    guards: Vec<Box<dyn Guard>>,
) -> u8
    // Each clause is that of `docbin_run`.
    ensures kept { (name : List ℕ)
        → ((command : Request) → IsCommand (map string_bytes words.now) command → ¬ (PutsUnder command name))
        → StaysAt name (S.held shelf.old) (S.held shelf.new) }

    ensures unchanged { result ≢ 0 → result ≢ 5
        → IsToldOfPut result (S.put_faults shelf.old) (S.put_faults shelf.new)
        → S.held shelf.new ≡ S.held shelf.old }

    ensures ending { result ≢ 5 → result ≢ 6 → (outcome : Outcome)
        × ((outcome.status ≡ result)
        × (IsEnding (map (λ b. policy b) guards.items) (map string_bytes words.now) (S.held shelf.old) outcome
        × (Appends (K.written out.old) (K.written out.new) outcome.text
        × LeavesPut outcome (S.put_faults shelf.old) (S.put_faults shelf.new) (S.held shelf.old) (S.held shelf.new)))) }

    ensures one_command { CommandIsOne }
    ensures only { EndingIsOne }

    ensures equal_saves { EqualFilesHaveOneSave }

    ensures complete { (command : Request) (files : Files)
        → IsCommand (map string_bytes words.now) command
        → S.held shelf.old ≡ Some files → CanServe (map (λ b. policy b) guards.items) command files
        → ¬ (Rose (S.faults shelf.old) (S.faults shelf.new))
        → ¬ (Rose (K.faults out.old) (K.faults out.new)) → result ≢ 6 → result ≡ 0 }

    ensures missing { result ≡ 3 → Rose (S.missed shelf.old) (S.missed shelf.new) }
    ensures shelf_fault { result ≡ 4 → Rose (S.faults shelf.old) (S.faults shelf.new) }
    ensures sink_fault { result ≡ 5 → Rose (K.faults out.old) (K.faults out.new) }

    ensures prefix { result ≡ 5 → (outcome : Outcome)
        × (IsEnding (map (λ b. policy b) guards.items) (map string_bytes words.now) (S.held shelf.old) outcome
        × (HasCause outcome.status (S.missed shelf.old) (S.missed shelf.new) (S.faults shelf.old) (S.faults shelf.new)
        × (AppendsPrefix (K.written out.old) (K.written out.new) outcome.text
        × LeavesPut outcome (S.put_faults shelf.old) (S.put_faults shelf.new) (S.held shelf.old) (S.held shelf.new)))) }

    ensures nothing { result ≡ 6 → K.written out.new ≡ K.written out.old }
{
    let mut guards = guards;
    let Ok(ending) = ending_after_put(alloc, words, shelf, &mut guards) else {
        tell_status(reasons, PROGRAM, STATUS_MEMORY);
        return STATUS_MEMORY;
    };
    match write_all(out, ending.text().as_bytes()) {
        Ok(()) => {
            tell_reason(reasons, PROGRAM, &ending);
            ending.status()
        }
        Err(_) => STATUS_SINK_FAULT,
    }
}

/// The ending of a run once its file was put, and before anything is printed. All texts are made before
/// the put, so that want of memory leaves the shelf as it was.
#[tactic(auto, using(crate::proofs::PutLemmas::ending_faulted))]
fn ending_after_put<S: Shelf>(
    alloc: Global,
    words: &[String],
    shelf: &mut S,
    guards: &mut [Box<dyn Guard>],
) -> Result<Ending, Memory>
    ensures kept { (name : List ℕ)
        → ((command : Request) → IsCommand (map string_bytes words.now) command → ¬ (PutsUnder command name))
        → StaysAt name (S.held shelf.old) (S.held shelf.new) }
    ensures unchanged { IfOk result (λ e. e.status ≢ 0
        → IsToldOfPut e.status (S.put_faults shelf.old) (S.put_faults shelf.new)
        → S.held shelf.new ≡ S.held shelf.old) }
    ensures memory { OnErr result (S.held shelf.new ≡ S.held shelf.old) }
    ensures ending { IfOk result (λ e.
        IsEnding (map (λ b. policy b) guards.old) (map string_bytes words.now) (S.held shelf.old) e) }
    ensures leaves { IfOk result (λ e.
        LeavesPut e (S.put_faults shelf.old) (S.put_faults shelf.new) (S.held shelf.old) (S.held shelf.new)) }
    ensures status { IfOk result (λ e. (e.status ≢ 5) × (e.status ≢ 6)) }
    ensures cause { IfOk result (λ e. IsCaused S.Shelf shelf.old shelf.new e.status) }
{
    let ending = ending_of(alloc, words, shelf, guards)?;
    let Some(file) = ending.file() else {
        return Ok(ending);
    };
    let failed = Ending::new(STATUS_SHELF_FAULT, shelf_fault_line(alloc)?);
    match shelf.put(file.name.as_str(), file.bytes.as_slice()) {
        Ok(()) => Ok(ending),
        Err(PutFault::Failed) => Ok(failed),
        Err(PutFault::Memory) => Err(Memory),
    }
}

/// The ending of a run, before anything is put or printed.
pub fn ending_of<S: Shelf>(
    alloc: Global,
    words: &[String],
    shelf: &mut S,
    guards: &mut [Box<dyn Guard>],
) -> Result<Ending, Memory>
    ensures read { IsOnlyRead S.Shelf shelf.old shelf.new }
    ensures ending { IfOk result (λ e.
        IsEnding (map (λ b. policy b) guards.old) (map string_bytes words.now) (S.held shelf.old) e) }
    ensures cause { IfOk result (λ e. IsCaused S.Shelf shelf.old shelf.new e.status) }
{
    match command_of(words) {
        Some(Command::Streams { file }) => serve_streams(alloc, shelf, file),
        Some(Command::OnDocument { task, file }) => serve_document(alloc, shelf, task, file),
        Some(
            Command::OnTwo {
                pair,
                first,
                second,
            },
        ) => serve_two(alloc, shelf, pair, first, second),
        Some(Command::Edit { file, script, out }) => serve_edit(
            alloc, shelf, file, script, out, guards,
        ),
        Some(Command::Import { file, out }) => serve_import(alloc, shelf, file, out),
        Some(Command::Gen { seed, out }) => generate_under(alloc, seed, out),
        None => {
            let text = usage_line(alloc)?;
            Ok(Ending::new(STATUS_USAGE, text))
        }
    }
}
