// A run of the program, with the exit code of its status.
ghost use Rattle.std.specs.Prelude.{◌≡◌, ◌↔◌, ℕ, List, map, None, Some};
ghost use Rattle.std.specs.Process.{exit_status};
ghost use Rattle.std.specs.String.{string_bytes};
ghost use Rattle.doc_outer.specs.Written.{Appends};
ghost use Rattle.run_stages.specs.Leaves.{IsCaused};
ghost use Rattle.docview_run.specs.Endings.{IsEnding, RunEnds};
ghost use Rattle.docview_run.specs.Pictured.{Leaves};
ghost use Rattle.docview_run.specs.Requests.{requested, shown_folder, shown_view};
ghost use Rattle.docview_run.specs.Safe.{IsSafePage};
ghost use Rattle.docview_run.specs.declared.view.View.{View};

use crate::run::docview_run;
use doc_outer::{Shelf, Sink};
use std::alloc::Global;
use std::process::ExitCode;

/// The program: runs the words over the files of a shelf, and answers the exit code of its status. The page goes to
/// `out`, and to `reasons`, whose faults change nothing, why there is none, or what of a file is left out of it.
pub fn program<S: Shelf, K: Sink, E: Sink>(
    alloc: Global,
    words: &[String],
    shelf: &mut S,
    out: &mut K,
    reasons: &mut E,
) -> ExitCode
    // Each clause is that of `docview_run`.
    ensures leaves { Leaves S.Shelf (requested (map string_bytes words.now)) (exit_status result) shelf.old shelf.new }
    ensures ends { RunEnds (IsEnding (map string_bytes words.now) (S.held shelf.old)) K.Sink out.old out.new
        (exit_status result) }
    ensures safe { exit_status result ≡ 0 → (view : View)
        → shown_view (requested (map string_bytes words.now)) ≡ Some view
        → (bytes : List ℕ) × (IsSafePage view (shown_folder (requested (map string_bytes words.now))) bytes
        × Appends (K.written out.old) (K.written out.new) bytes) }
    ensures usage { exit_status result ≡ 2 ↔ requested (map string_bytes words.now) ≡ None }
    ensures cause { IsCaused S.Shelf shelf.old shelf.new (exit_status result) }
{
    let status = docview_run(alloc, words, shelf, out, reasons);
    ExitCode::from(status)
}
