// One run of docfit: what it prints is made first; then its file is put, and then it is printed.
ghost use Rattle.std.specs.Prelude.{◌≡◌, ◌≢◌, ◌↔◌, ℕ, Bool, List, map, None, Some, IfOk, OnErr};
ghost use Rattle.std.specs.String.{string_bytes};
ghost use Rattle.doc_outer.specs.Counts.{Rose};
ghost use Rattle.doc_outer.specs.Held.{Files, StaysAt, file_at};
ghost use Rattle.doc_outer.specs.Written.{Appends, AppendsPrefix};
ghost use Rattle.doc_read.specs.Holds.{IsAccepted};
ghost use Rattle.run_stages.specs.Leaves.{HasCause, IsCaused, IsOnlyRead, IsToldOfPut, LeavesPut};
ghost use Rattle.run_stages.specs.Outcomes.{Outcome, says};
ghost use Rattle.docfit_run.specs.Requests.{fit, requested, WordsPutUnder};
ghost use Rattle.docfit_run.specs.Endings.{IsEnding};
ghost use Rattle.docfit_run.specs.Laws.{FitIsOne, FitsAreFixed, FitsAreHeld, FitsSaveAccepted, IsAcceptedStatus};
ghost use Rattle.docfit_run.specs.Completeness.{CanFit};

use crate::fitting::fit_name;
use crate::words::{Asked, asked_by};
use doc_bits::{Memory, Text};
use doc_outer::{PutFault, Shelf, Sink, write_all};
use run_stages::{
    Ending, STATUS_DONE, STATUS_MEMORY, STATUS_SHELF_FAULT, STATUS_SINK_FAULT, STATUS_USAGE,
    shelf_fault_line, tell_reason, tell_status,
};
use std::alloc::Global;

/// The name that each line of a reason begins with.
pub const PROGRAM: &str = "docfit";

/// How the program is called.
pub const HELP: &str =
    "usage: docfit [--plain] IN OUT\n\nReads IN, a document of Word 97 to 2007, and puts its document under OUT as a file that docbin accepts. Its endnotes\nand comments become notes. Prints a line for each stream, storage, part and story that is left out, and for each mend.\nOUT may be IN.\n  --plain    endnotes and comments are left out\n  --help     this text\n  --version  the version\n";

pub const VERSION: &str = "docfit 1.0.0\n";

const USAGE: &str = "usage: docfit [--plain] IN OUT | --help | --version\n";

/// Runs the words over the files of a shelf, and answers the status. Why the run ends so is told to `reasons`, whose
/// faults change nothing.
pub fn docfit_run<S: Shelf, K: Sink, E: Sink>(
    alloc: Global,
    words: &[String],
    shelf: &mut S,
    out: &mut K,
    reasons: &mut E,
) -> u8
    // A name that the words put nothing under holds what it held.
    ensures kept { (name : List ℕ) → ¬ (WordsPutUnder (map string_bytes words.now) name)
        → StaysAt name (S.held shelf.old) (S.held shelf.new) }

    // The shelf changes at the statuses 0 and 5 alone, and at 4 where a put failed.
    ensures unchanged { result ≢ 0 → result ≢ 5
        → IsToldOfPut result (S.put_faults shelf.old) (S.put_faults shelf.new)
        → S.held shelf.new ≡ S.held shelf.old }

    // A run ends in one of the ways that the words and the shelf decide: with its status, its text printed and its file
    // put. Where a put failed, nothing is said of the name that it was to hold.
    ensures ending { result ≢ 5 → result ≢ 6 → (outcome : Outcome)
        × ((outcome.status ≡ result)
        × (IsEnding (map string_bytes words.now) (S.held shelf.old) outcome
        × (Appends (K.written out.old) (K.written out.new) outcome.text
        × LeavesPut outcome (S.put_faults shelf.old) (S.put_faults shelf.new) (S.held shelf.old) (S.held shelf.new)))) }

    // The status of words that ask for nothing is theirs alone.
    ensures usage { result ≢ 5 → result ≢ 6
        → (result ≡ 2 ↔ requested (map string_bytes words.now) ≡ None) }

    // What is put is accepted, and holds the mended document of what the file means, with its further stories as notes where
    // they can be, unless it is to be plain.
    ensures held { FitsAreHeld }

    // Words and known files have one outcome, unless the shelf fails.
    ensures only { FitIsOne }

    // Where a file is accepted, its fit is the full save of the document that it holds.
    ensures accepted { FitsSaveAccepted }

    // Such a file is not refused: it is fitted, or needs too many sectors, unless something fails.
    ensures unrefused { (plain : Bool) (file name : List ℕ) (files : Files) (bytes : List ℕ)
        → requested (map string_bytes words.now) ≡ Some (fit plain file name)
        → S.held shelf.old ≡ Some files → file_at files file ≡ Some bytes → IsAccepted bytes
        → IsAcceptedStatus result }

    // The fit of a fit is the same bytes.
    ensures fixed { FitsAreFixed }

    // A file in whose way nothing is is fitted, unless a fault rose or memory was refused.
    ensures complete { (plain : Bool) (file name : List ℕ) (files : Files)
        → requested (map string_bytes words.now) ≡ Some (fit plain file name)
        → S.held shelf.old ≡ Some files → CanFit files file
        → ¬ (Rose (S.faults shelf.old) (S.faults shelf.new))
        → ¬ (Rose (K.faults out.old) (K.faults out.new)) → result ≢ 6 → result ≡ 0 }

    // A status for what failed outside shows in a count of this run.
    ensures missing { result ≡ 3 → Rose (S.missed shelf.old) (S.missed shelf.new) }
    ensures shelf_fault { result ≡ 4 → Rose (S.faults shelf.old) (S.faults shelf.new) }
    ensures sink_fault { result ≡ 5 → Rose (K.faults out.old) (K.faults out.new) }

    // A sink that fails has taken a prefix of the text of such an outcome, which has its cause; its file was put.
    ensures prefix { result ≡ 5 → (outcome : Outcome)
        × (IsEnding (map string_bytes words.now) (S.held shelf.old) outcome
        × (HasCause outcome.status (S.missed shelf.old) (S.missed shelf.new) (S.faults shelf.old) (S.faults shelf.new)
        × (AppendsPrefix (K.written out.old) (K.written out.new) outcome.text
        × LeavesPut outcome (S.put_faults shelf.old) (S.put_faults shelf.new) (S.held shelf.old) (S.held shelf.new)))) }

    // Without memory nothing is printed.
    ensures nothing { result ≡ 6 → K.written out.new ≡ K.written out.old }
{
    let Ok(ending) = ending_after_put(alloc, words, shelf) else {
        tell_status(reasons, PROGRAM, STATUS_MEMORY);
        return STATUS_MEMORY;
    };
    match write_all(out, ending.text().as_bytes()) {
        Ok(()) => {
            tell_reason(reasons, PROGRAM, &ending);
            ending.status()
        }
        Err(_) => STATUS_SINK_FAULT,
    }
}

/// The ending of a run once its file was put, and before anything is printed. All texts are made before
/// the put, so that want of memory leaves the shelf as it was.
#[tactic(auto, using(crate::proofs::PutLemmas::ending_faulted))]
fn ending_after_put<S: Shelf>(
    alloc: Global,
    words: &[String],
    shelf: &mut S,
) -> Result<Ending, Memory>
    ensures kept { (name : List ℕ) → ¬ (WordsPutUnder (map string_bytes words.now) name)
        → StaysAt name (S.held shelf.old) (S.held shelf.new) }
    ensures unchanged { IfOk result (λ e. e.status ≢ 0
        → IsToldOfPut e.status (S.put_faults shelf.old) (S.put_faults shelf.new)
        → S.held shelf.new ≡ S.held shelf.old) }
    ensures memory { OnErr result (S.held shelf.new ≡ S.held shelf.old) }
    ensures ending { IfOk result (λ e. IsEnding (map string_bytes words.now) (S.held shelf.old) e) }
    ensures leaves { IfOk result (λ e.
        LeavesPut e (S.put_faults shelf.old) (S.put_faults shelf.new) (S.held shelf.old) (S.held shelf.new)) }
    ensures status { IfOk result (λ e. (e.status ≢ 5) × (e.status ≢ 6)) }
    ensures cause { IfOk result (λ e. IsCaused S.Shelf shelf.old shelf.new e.status) }
{
    let ending = ending_of(alloc, words, shelf)?;
    let Some(file) = ending.file() else {
        return Ok(ending);
    };
    let failed = Ending::new(STATUS_SHELF_FAULT, shelf_fault_line(alloc)?);
    match shelf.put(file.name.as_str(), file.bytes.as_slice()) {
        Ok(()) => Ok(ending),
        Err(PutFault::Failed) => Ok(failed),
        Err(PutFault::Memory) => Err(Memory),
    }
}

/// The ending of a run, before anything is put or printed.
pub fn ending_of<S: Shelf>(alloc: Global, words: &[String], shelf: &mut S) -> Result<Ending, Memory>
    ensures read { IsOnlyRead S.Shelf shelf.old shelf.new }
    ensures ending { IfOk result (λ e. IsEnding (map string_bytes words.now) (S.held shelf.old) e) }
    ensures cause { IfOk result (λ e. IsCaused S.Shelf shelf.old shelf.new e.status) }
{
    match asked_by(words) {
        Some(Asked::Fit { plain, file, out }) => fit_name(alloc, shelf, file, out, plain),
        Some(Asked::Help) => print_ending(alloc, STATUS_DONE, HELP),
        Some(Asked::Version) => print_ending(alloc, STATUS_DONE, VERSION),
        None => print_ending(alloc, STATUS_USAGE, USAGE),
    }
}

/// The ending that prints a text.
fn print_ending(alloc: Global, status: u8, text: &str) -> Result<Ending, Memory>
    ensures { IfOk result (λ ending. ending ≡ says status text.now) }
{
    let mut said = Text::new(alloc);
    said.push_all(text)?;
    Ok(Ending::new(status, said))
}
