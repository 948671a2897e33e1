// The stages that open what was read of a name: they end the run, or hand its document on, or a session on its file.
ghost use Rattle.std.specs.Prelude.{IfOk};
ghost use Rattle.doc_bits.specs.Number.{AreBytes};
ghost use Rattle.doc_run.specs.Reading.{IsOpenedStage, IsBegun, IsBegunOn};

use doc_bits::{Bytes, Memory};
use doc_columns::ColumnDocument;
use document_commands::{open_file, refusal};
use fast_save::Session;
use run_stages::Stage;
use std::alloc::Global;

/// Opens the document of what was read of a name.
pub(crate) fn open_taken(
    alloc: Global,
    name: &str,
    taken: Stage<Bytes>,
) -> Result<Stage<ColumnDocument>, Memory>
    ensures { IfOk result (λ r. IsOpenedStage name.now taken r) }
{
    match taken {
        Stage::Go(bytes) => open_file(alloc, name, bytes.as_slice()),
        Stage::Stop(ending) => Ok(Stage::Stop(ending)),
    }
}

/// Begins a session on what was read of a name.
pub(crate) fn begin_taken(
    alloc: Global,
    name: &str,
    taken: Stage<Bytes>,
) -> Result<Stage<Session>, Memory>
    ensures { IfOk result (λ b. IsBegun name.now taken b) }
{
    match taken {
        Stage::Go(bytes) => begin_on(alloc, name, bytes.as_slice()),
        Stage::Stop(ending) => Ok(Stage::Stop(ending)),
    }
}

/// Begins a session on a file that was read whole.
fn begin_on(alloc: Global, name: &str, file: &[u8]) -> Result<Stage<Session>, Memory>
    ensures is { IfOk result (λ b. IsBegunOn name.now file.now b) }
    ensures bytes { AreBytes file.now }
{
    match Session::start(alloc, file) {
        Ok(session) => Ok(Stage::Go(session)),
        Err(fault) => {
            let ending = refusal(alloc, name, file, fault)?;
            Ok(Stage::Stop(ending))
        }
    }
}
