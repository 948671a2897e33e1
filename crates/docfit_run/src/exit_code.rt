// A run of the program, with the exit code of its status.
ghost use Rattle.std.specs.Prelude.{◌≡◌, ◌≢◌, ◌↔◌, ℕ, Bool, List, map, None, Some};
ghost use Rattle.std.specs.Process.{exit_status};
ghost use Rattle.std.specs.String.{string_bytes};
ghost use Rattle.doc_outer.specs.Counts.{Rose};
ghost use Rattle.doc_outer.specs.Held.{Files, StaysAt, file_at};
ghost use Rattle.doc_outer.specs.Written.{Appends, AppendsPrefix};
ghost use Rattle.doc_read.specs.Holds.{IsAccepted};
ghost use Rattle.run_stages.specs.Leaves.{HasCause, IsToldOfPut, LeavesPut};
ghost use Rattle.run_stages.specs.Outcomes.{Outcome};
ghost use Rattle.docfit_run.specs.Requests.{fit, requested, WordsPutUnder};
ghost use Rattle.docfit_run.specs.Endings.{IsEnding};
ghost use Rattle.docfit_run.specs.Laws.{FitIsOne, FitsAreFixed, FitsAreHeld, FitsSaveAccepted, IsAcceptedStatus};
ghost use Rattle.docfit_run.specs.Completeness.{CanFit};

use crate::run::docfit_run;
use doc_outer::{Shelf, Sink};
use std::alloc::Global;
use std::process::ExitCode;

/// The program: runs the words over the files of a shelf, and answers the exit code of its status. Why the run ends so
/// is told to `reasons`, whose faults change nothing.
pub fn program<S: Shelf, K: Sink, E: Sink>(
    alloc: Global,
    words: &[String],
    shelf: &mut S,
    out: &mut K,
    reasons: &mut E,
) -> ExitCode
    // Each clause is that of `docfit_run`.
    ensures kept { (name : List ℕ) → ¬ (WordsPutUnder (map string_bytes words.now) name)
        → StaysAt name (S.held shelf.old) (S.held shelf.new) }
    ensures unchanged { exit_status result ≢ 0 → exit_status result ≢ 5
        → IsToldOfPut (exit_status result) (S.put_faults shelf.old) (S.put_faults shelf.new)
        → S.held shelf.new ≡ S.held shelf.old }
    ensures ending { exit_status result ≢ 5 → exit_status result ≢ 6 → (outcome : Outcome)
        × ((outcome.status ≡ (exit_status result))
        × (IsEnding (map string_bytes words.now) (S.held shelf.old) outcome
        × (Appends (K.written out.old) (K.written out.new) outcome.text
        × LeavesPut outcome (S.put_faults shelf.old) (S.put_faults shelf.new) (S.held shelf.old) (S.held shelf.new)))) }
    ensures usage { exit_status result ≢ 5 → exit_status result ≢ 6
        → (exit_status result ≡ 2 ↔ requested (map string_bytes words.now) ≡ None) }
    ensures held { FitsAreHeld }
    ensures only { FitIsOne }
    ensures accepted { FitsSaveAccepted }
    ensures unrefused { (plain : Bool) (file name : List ℕ) (files : Files) (bytes : List ℕ)
        → requested (map string_bytes words.now) ≡ Some (fit plain file name)
        → S.held shelf.old ≡ Some files → file_at files file ≡ Some bytes → IsAccepted bytes
        → IsAcceptedStatus (exit_status result) }
    ensures fixed { FitsAreFixed }
    ensures complete { (plain : Bool) (file name : List ℕ) (files : Files)
        → requested (map string_bytes words.now) ≡ Some (fit plain file name)
        → S.held shelf.old ≡ Some files → CanFit files file
        → ¬ (Rose (S.faults shelf.old) (S.faults shelf.new))
        → ¬ (Rose (K.faults out.old) (K.faults out.new)) → exit_status result ≢ 6 → exit_status result ≡ 0 }

    ensures missing { exit_status result ≡ 3 → Rose (S.missed shelf.old) (S.missed shelf.new) }
    ensures shelf_fault { exit_status result ≡ 4 → Rose (S.faults shelf.old) (S.faults shelf.new) }
    ensures sink_fault { exit_status result ≡ 5 → Rose (K.faults out.old) (K.faults out.new) }
    ensures prefix { exit_status result ≡ 5 → (outcome : Outcome)
        × (IsEnding (map string_bytes words.now) (S.held shelf.old) outcome
        × (HasCause outcome.status (S.missed shelf.old) (S.missed shelf.new) (S.faults shelf.old) (S.faults shelf.new)
        × (AppendsPrefix (K.written out.old) (K.written out.new) outcome.text
        × LeavesPut outcome (S.put_faults shelf.old) (S.put_faults shelf.new) (S.held shelf.old) (S.held shelf.new)))) }
    ensures nothing { exit_status result ≡ 6 → K.written out.new ≡ K.written out.old }
{
    let status = docfit_run(alloc, words, shelf, out, reasons);
    ExitCode::from(status)
}
