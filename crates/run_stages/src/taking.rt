// The stages that read a name: they hand its bytes on, or end the run.
ghost use Rattle.std.specs.Prelude.{◌≡◌, IfOk};
ghost use Rattle.run_stages.specs.Outcomes.{says, IsAfterReading};
ghost use Rattle.run_stages.specs.Lines.{rule_line as rule_of, missing_line as missing_of};
ghost use Rattle.run_stages.specs.Lines.{shelf_fault_line as shelf_fault_of};
ghost use Rattle.run_stages.specs.Leaves.{IsCaused, IsOnlyRead};
ghost use Rattle.run_stages.specs.Stages.{BreaksLengthRule};
ghost use Rattle.run_stages.specs.Reading.{IsFileStage, stage_status};
ghost use Rattle.run_stages.specs.declared.stage.Stage.TheVariants.{Stop};

use crate::ending::Ending;
use crate::lines::{missing_line, rule_line, shelf_fault_line};
use crate::reasons::{reason_of_name, reason_of_rule};
use crate::stage::Stage;
use crate::status::{STATUS_MISSING, STATUS_REFUSED, STATUS_SHELF_FAULT};
use doc_bits::{Bytes, Memory, Where};
use doc_outer::{MAX_FILE_LEN, ReadFail, Shelf, read_whole};
use std::alloc::Global;

const RULE_LENGTH: u8 = 1;

/// What a file is that has more bytes than any.
const OVERLONG: &str = "larger than 7,143,936 bytes";

/// Reads a name whole. The run ends where it is not there, where the shelf failed, and by `overlong` where it has more
/// bytes than any file.
pub fn take_whole<S: Shelf>(
    alloc: Global,
    shelf: &mut S,
    name: &str,
    overlong: Ending,
) -> Result<Stage<Bytes>, Memory>
    requires { IsAfterReading overlong.status }
    ensures read { IsOnlyRead S.Shelf shelf.old shelf.new }
    ensures is { IfOk result (λ t. IsFileStage name.now (S.held shelf.old) (λ o. o ≡ overlong) t) }
    ensures cause { IfOk result (λ t. IsCaused S.Shelf shelf.old shelf.new (stage_status t)) }
{
    match read_whole(alloc, shelf, name) {
        Ok(bytes) => Ok(Stage::Go(bytes)),
        Err(ReadFail::TooLong) => Ok(Stage::Stop(overlong)),
        Err(ReadFail::Missing) => missing(alloc, name),
        Err(ReadFail::Failed) => shelf_failure(alloc),
        Err(ReadFail::Memory) => Err(Memory),
    }
}

/// The end of a run by a name that is not there.
fn missing(alloc: Global, name: &str) -> Result<Stage<Bytes>, Memory>
    ensures { IfOk result (λ t. t ≡ Stop (says 3 (missing_of name.now))) }
{
    let text = missing_line(alloc, name)?;
    let reason = reason_of_name(alloc, name, "no such file")?;
    Ok(Stage::Stop(Ending::new(STATUS_MISSING, text).because(reason)))
}

/// The end of a run by a shelf that failed, which says why by itself.
fn shelf_failure(alloc: Global) -> Result<Stage<Bytes>, Memory>
    ensures { IfOk result (λ t. t ≡ Stop (says 4 shelf_fault_of)) }
{
    let text = shelf_fault_line(alloc)?;
    Ok(Stage::Stop(Ending::new(STATUS_SHELF_FAULT, text)))
}

/// Reads a document's file whole: one that has more bytes than any file breaks rule 1.
pub fn take_file<S: Shelf>(alloc: Global, shelf: &mut S, name: &str) -> Result<Stage<Bytes>, Memory>
    ensures read { IsOnlyRead S.Shelf shelf.old shelf.new }
    ensures is { IfOk result (λ t. IsFileStage name.now (S.held shelf.old) (BreaksLengthRule name.now) t) }
    ensures cause { IfOk result (λ t. IsCaused S.Shelf shelf.old shelf.new (stage_status t)) }
{
    let overlong = overlong_file(alloc, name)?;
    take_whole(alloc, shelf, name, overlong)
}

/// The ending of a file that has more bytes than any.
fn overlong_file(alloc: Global, name: &str) -> Result<Ending, Memory>
    ensures { IfOk result (λ e. BreaksLengthRule name.now e) }
{
    let len = MAX_FILE_LEN as u32 + 1;
    let text = rule_line(alloc, name, RULE_LENGTH, Where::File, len)?;
    let reason = reason_of_rule(alloc, name, RULE_LENGTH, OVERLONG)?;
    Ok(Ending::new(STATUS_REFUSED, text).because(reason))
}

/// The ending of a file that breaks a rule, and what the file is (`why_refused`).
pub fn rule_broken(
    alloc: Global,
    name: &str,
    rule: u8,
    place: (Where, u32),
    why: &str,
) -> Result<Ending, Memory>
    ensures { IfOk result (λ e. e ≡ says 1 (rule_of name.now rule place)) }
{
    let text = rule_line(alloc, name, rule, place.0, place.1)?;
    let reason = reason_of_rule(alloc, name, rule, why)?;
    Ok(Ending::new(STATUS_REFUSED, text).because(reason))
}
