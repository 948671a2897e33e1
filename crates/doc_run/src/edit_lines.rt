// The lines of a run that edits a document.
ghost use Rattle.std.specs.Prelude.{◌≡◌, IfOk};
ghost use Rattle.std.specs.String.{string_bytes};
ghost use Rattle.edit_script.specs.declared.faults.ScriptFault.TheVariants.{Shape};
ghost use Rattle.edit_script.specs.Laws.{IsScriptCause};
ghost use Rattle.script_run.specs.declared.faults.Stop.TheVariants.{Refused, Guarded, Sixteenth, TooManyPieces};
ghost use Rattle.script_run.specs.declared.faults.Stop.TheVariants.{TooLarge};
ghost use Rattle.doc_run.specs.EditLines.{script_line as script_of, rule_text as rule_of, cause_text as cause_of};
ghost use Rattle.doc_run.specs.EditLines.{stop_line as stop_of, edited_line as edited_of};

use doc_bits::{Memory, Text, Where};
use edit_ops::{EditFault, ScriptFault};
use run_stages::part_name;
use script_run::{SaveCounts, Stop};
use std::alloc::Global;

/// The line that says why bytes are no script.
pub(crate) fn script_line(alloc: Global, fault: ScriptFault) -> Result<Text, Memory>
    ensures { IfOk result (λ text. IsScriptCause fault × (text ≡ script_of fault)) }
{
    match fault {
        ScriptFault::Json => {
            let line = String::from_str(alloc, "script: not JSON\n")?;
            Ok(Text::from_string(line))
        }
        ScriptFault::Shape { index } => {
            let line = shape_line(alloc, index as usize)?;
            Ok(line)
        }
        ScriptFault::TooLong => {
            let line = String::from_str(alloc, "script: too long\n")?;
            Ok(Text::from_string(line))
        }
        ScriptFault::Memory => Err(Memory),
    }
}

/// The line for a command of a script that has a wrong shape.
fn shape_line(alloc: Global, index: usize) -> Result<Text, Memory>
    ensures { IfOk result (λ text. text ≡ script_of (Shape index)) }
{
    let line = format!(in alloc; "script: command {index} has a wrong shape\n")?;
    Ok(Text::from_string(line))
}

/// The line for a command that stops its script.
pub(crate) fn stop_line(alloc: Global, index: usize, stop: Stop) -> Result<Text, Memory>
    ensures { IfOk result (λ text. text ≡ stop_of index stop) }
{
    match stop {
        Stop::Refused(fault) => refused_line(alloc, index, fault),
        Stop::Guarded { guard } => guarded_line(alloc, index, guard),
        Stop::Sixteenth { count } => sixteenth_line(alloc, index, count),
        Stop::TooManyPieces { pieces } => many_pieces_line(alloc, index, pieces),
        Stop::TooLarge { sectors } => large_save_line(alloc, index, sectors),
    }
}

/// The line for an edit that is refused.
fn refused_line(alloc: Global, index: usize, fault: EditFault) -> Result<Text, Memory>
    ensures { IfOk result (λ text. text ≡ stop_of index (Refused fault)) }
{
    let cause = cause_text(alloc, fault)?;
    let line = format!(in alloc; "edit {index}: {cause}\n")?;
    Ok(Text::from_string(line))
}

/// The line for an edit that a guard does not allow.
fn guarded_line(alloc: Global, index: usize, guard: usize) -> Result<Text, Memory>
    ensures { IfOk result (λ text. text ≡ stop_of index (Guarded guard)) }
{
    let line = format!(in alloc; "edit {index}: guard {guard}\n")?;
    Ok(Text::from_string(line))
}

/// The line for a fast save behind fifteen others.
fn sixteenth_line(alloc: Global, index: usize, count: u8) -> Result<Text, Memory>
    ensures { IfOk result (λ text. text ≡ stop_of index (Sixteenth count)) }
{
    let line = format!(in alloc; "save {index}: sixteenth, count {count}\n")?;
    Ok(Text::from_string(line))
}

/// The line for a fast save of too many pieces.
fn many_pieces_line(alloc: Global, index: usize, pieces: u64) -> Result<Text, Memory>
    ensures { IfOk result (λ text. text ≡ stop_of index (TooManyPieces pieces)) }
{
    let line = format!(in alloc; "save {index}: pieces {pieces}\n")?;
    Ok(Text::from_string(line))
}

/// The line for a save that needs more sectors than a file has.
fn large_save_line(alloc: Global, index: usize, sectors: u64) -> Result<Text, Memory>
    ensures { IfOk result (λ text. text ≡ stop_of index (TooLarge sectors)) }
{
    let line = format!(in alloc; "save {index}: too large, needs {sectors} sectors\n")?;
    Ok(Text::from_string(line))
}

/// Why an edit is refused; want of memory is no such cause.
fn cause_text(alloc: Global, fault: EditFault) -> Result<String, Memory>
    ensures { IfOk result (λ text. string_bytes text ≡ cause_of fault) }
{
    match fault {
        EditFault::Range => {
            let text = String::from_str(alloc, "range")?;
            Ok(text)
        }
        EditFault::Code => {
            let text = String::from_str(alloc, "code")?;
            Ok(text)
        }
        EditFault::Rule { rule, place, at } => rule_text(alloc, rule, place, at),
        EditFault::Limit { rule, place, at } => rule_text(alloc, rule, place, at),
        EditFault::Memory => Err(Memory),
    }
}

/// A rule that is broken, and the place.
fn rule_text(alloc: Global, rule: u8, part: Where, at: u32) -> Result<String, Memory>
    ensures { IfOk result (λ text. string_bytes text ≡ rule_of rule (part, at)) }
{
    let part = part_name(alloc, part)?;
    let text = format!(in alloc; "rule {rule} {part} {at}")?;
    Ok(text)
}

/// The line for a script that was run: its commands, and its saves of each mode.
pub(crate) fn edited_line(alloc: Global, commands: usize, saves: SaveCounts) -> Result<Text, Memory>
    ensures { IfOk result (λ text. text ≡ edited_of commands saves.fast saves.full) }
{
    let SaveCounts { fast, full } = saves;
    let line = format!(in alloc; "edit: {commands} commands, fast {fast}, full {full}\n")?;
    Ok(Text::from_string(line))
}
