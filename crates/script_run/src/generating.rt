// A run of the generator.
ghost use Rattle.std.specs.Prelude.{◌≡◌, ◌^◌, ◌<◌, ◌≤◌, IfOk, OnOk, true, false, replicate};
ghost use Rattle.run_lists.specs.Spread.{expanded, total_len};
ghost use Rattle.doc_model.specs.Blank.{blank_document};
ghost use Rattle.full_save.specs.Layout.{full_save_image};
ghost use Rattle.fast_save.specs.Started.{IsStarted};
ghost use Rattle.script_run.specs.States.{session_in_full};
ghost use Rattle.script_run.specs.Saves.{save_count};
ghost use Rattle.script_run.specs.Generated.{generated};
ghost use Rattle.script_run.specs.GeneratedRuns.{IsGeneratedRun, IsGeneratedBy};
ghost use Rattle.script_run.specs.GeneratedRuns.{most_seed, generator_start, commands_run, mark_count, marks_beside};

use crate::generated::Generator;
use crate::running::run_all;
use crate::{RunFault, SaveCounts};
use doc_bits::{Bytes, Memory};
use doc_columns::{Attached, Columns, all_items};
use doc_read::ReadFault;
use edit_generator::{SAVES_IN_TURN, generated_count};
use edit_guards::Guard;
use fast_save::Session;
use full_save::{SaveFault, full};
use plain_doc::{Document, blank};
use run_lists::Run;
use std::alloc::Global;

/// What the generator leaves.
#[derive(Drop)]
pub struct Generated {
    /// The bytes of the last save.
    pub image: Bytes,
    /// The items of all texts.
    pub units: u128,
    /// The marks of the main text.
    pub paragraphs: usize,
    pub saves: SaveCounts,
}

/// The greatest seed.
pub const MAX_SEED: u32 = 4_000;

/// Makes the commands from a seed, on the full save of the blank document. None of them is refused, and no guard is
/// asked.
pub fn generate(alloc: Global, seed: u32) -> Result<Generated, Memory>
    requires { seed ≤ most_seed }
    ensures { IfOk result (λ made. IsGeneratedBy seed made) }
{
    let mut session = blank_session(alloc)?;
    let made = generate_on(alloc, seed, &mut session);
    drop(session);
    made
}

/// Saves the blank document once more in full, and makes the commands from a seed.
fn generate_on(alloc: Global, seed: u32, session: &mut Session) -> Result<Generated, Memory>
    requires few { seed ≤ most_seed }
    requires started { IsStarted (full_save_image blank_document) session.old }
    ensures { IfOk result (λ made. IsGeneratedBy seed made) }
{
    save_blank(session)?;
    let mut guards: Vec<Box<dyn Guard>> = Vec::new(alloc);
    match run_all(alloc, &Generator { seed }, session, &mut guards) {
        Ok(()) => left_by(alloc, seed, session),
        Err(RunFault::Stopped { .. }) => unreachable!(),
        Err(RunFault::Memory) => Err(Memory),
    }
}

/// What the commands from a seed have left.
fn left_by(alloc: Global, seed: u32, session: &Session) -> Result<Generated, Memory>
    requires few { seed ≤ most_seed }
    requires run { IsGeneratedRun seed session.now }
    ensures { IfOk result (λ made. IsGeneratedBy seed made) }
{
    let document = session.columns();
    let units = all_items(document);
    let paragraphs = marks_in(&document.main);
    Ok(Generated {
        image: Bytes::from_slice(alloc, session.bytes())?,
        units,
        paragraphs,
        saves: generated_saves(seed),
    })
}

/// A session on the full save of the blank document.
fn blank_session(alloc: Global) -> Result<Session, Memory>
    ensures { IfOk result (IsStarted (full_save_image blank_document)) }
{
    let file = blank_file(alloc)?;
    match Session::start(alloc, file.as_slice()) {
        Ok(session) => Ok(session),
        Err(ReadFault::Refused { .. }) => unreachable!(),
        Err(ReadFault::Memory) => Err(Memory),
    }
}

/// The full save of the blank document.
fn blank_file(alloc: Global) -> Result<Bytes, Memory>
    ensures { IfOk result (λ file. file ≡ full_save_image blank_document) }
{
    let document = blank(alloc)?;
    let file = saved_blank(alloc, &document);
    drop(document);
    file
}

/// The full save of a document that is the blank one.
fn saved_blank(alloc: Global, document: &Document) -> Result<Bytes, Memory>
    requires { document.now ≡ blank_document }
    ensures { IfOk result (λ file. file ≡ full_save_image blank_document) }
{
    match full(alloc, document) {
        Ok(file) => Ok(file),
        Err(SaveFault::TooLarge { .. }) => unreachable!(),
        Err(SaveFault::Memory) => Err(Memory),
    }
}

/// Saves in full on a session that was started on that file.
fn save_blank(session: &mut Session) -> Result<(), Memory>
    requires { IsStarted (full_save_image blank_document) session.old }
    ensures { OnOk result (session.new ≡ session_in_full blank_document) }
{
    match session.full() {
        Ok(()) => Ok(()),
        Err(SaveFault::TooLarge { .. }) => unreachable!(),
        Err(SaveFault::Memory) => Err(Memory),
    }
}

/// How many items have a mark. It goes over the runs of what is beside them.
fn marks_in(text: &Columns) -> usize
    ensures { result ≡ mark_count text.now }
{
    let _len = text.len();
    count_marks(text.attachments())
}

/// How many marks there are in runs of what is beside items.
fn count_marks(attachments: &[Run<Attached>]) -> usize
    requires { total_len attachments.now < 2 ^ 32 }
    ensures { result ≡ marks_beside (expanded attachments.now) }
{
    let mut count = 0;
    for run in attachments {
        count += marks_of(run);
    }
    count
}

/// How many marks a run has.
fn marks_of(run: &Run<Attached>) -> usize
    ensures { result ≡ marks_beside (replicate run.now.count run.now.value) }
{
    if run.value.mark.is_some() {
        run.count as usize
    } else {
        0
    }
}

/// The saves among the commands from a seed: each eighth is full.
fn generated_saves(seed: u32) -> SaveCounts
    requires { seed ≤ most_seed }
    ensures fast { result.fast ≡ save_count false (commands_run generator_start (generated seed)) }
    ensures full { result.full ≡ save_count true (commands_run generator_start (generated seed)) }
{
    let saves = generated_count(seed) - seed as usize;
    let full = saves / SAVES_IN_TURN;
    SaveCounts {
        fast: saves - full,
        full,
    }
}
