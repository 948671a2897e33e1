// The lines on what came of a command.
use doc_bits::Where;
use edit_ops::{EditFault, Facts};
use fast_save::{FastFault, Ledgers};
use row_language::RowFault;
use std::alloc::Global;

/// The line on an answer.
pub(crate) fn shown(alloc: Global, answer: Result<Facts, EditFault>) -> Result<String, RowFault> {
    match answer {
        Ok(facts) => shown_facts(alloc, facts),
        Err(EditFault::Range) => made(String::from_str(alloc, "range\n")),
        Err(EditFault::Code) => made(String::from_str(alloc, "code\n")),
        Err(EditFault::Rule { rule, place, at }) => refused(alloc, "rule", rule, place, at),
        Err(EditFault::Limit { rule, place, at }) => refused(alloc, "limit", rule, place, at),
        Err(EditFault::Memory) => Err(RowFault::Memory),
    }
}

/// A text that was made, where there was memory.
fn made<E: Drop>(text: Result<String, E>) -> Result<String, RowFault> {
    match text {
        Ok(text) => Ok(text),
        Err(_) => Err(RowFault::Memory),
    }
}

/// The line on the facts of an edit.
fn shown_facts(alloc: Global, facts: Facts) -> Result<String, RowFault> {
    made(format!(in alloc;
        "kind {}, {} in, {} out, style {}\n",
        facts.kind, facts.units_in, facts.units_out, facts.style
    ))
}

/// The rule that would be broken, and where.
fn refused(
    alloc: Global,
    cause: &str,
    rule: u8,
    place: Where,
    at: u32,
) -> Result<String, RowFault> {
    match place {
        Where::Main => made(format!(in alloc; "{cause} {rule} Main {at}\n")),
        Where::Note(number) => made(format!(in alloc; "{cause} {rule} Note {number} {at}\n")),
        Where::Head(number) => made(format!(in alloc; "{cause} {rule} Head {number} {at}\n")),
        Where::Sheet => made(format!(in alloc; "{cause} {rule} Sheet {at}\n")),
        Where::File | Where::Wd | Where::Table => Err(RowFault::NoPlace),
    }
}

/// The line on the ledgers of a session.
pub(crate) fn shown_ledgers(alloc: Global, ledgers: &Ledgers) -> Result<String, RowFault> {
    let text = format!(in alloc;
        "pieces {}, modifiers {}, sectors {}, bin tables {}, ",
        ledgers.pieces, ledgers.modifier_bytes, ledgers.sectors, ledgers.bin_bytes
    )?;
    let shown = with_counts(alloc, text.as_str(), ledgers);
    drop(text);
    shown
}

/// A text, and the ledgers of what was added.
fn with_counts(alloc: Global, text: &str, ledgers: &Ledgers) -> Result<String, RowFault> {
    made(format!(in alloc;
        "{text}units {}, sections {}, runs {}, table {}\n",
        ledgers.units, ledgers.sections, ledgers.runs, ledgers.table_bytes
    ))
}

/// The line on a save.
pub(crate) fn shown_save(alloc: Global, answer: Result<(), FastFault>) -> Result<String, RowFault> {
    match answer {
        Ok(()) => made(String::from_str(alloc, "saved\n")),
        Err(FastFault::Sixteenth { count }) => {
            made(format!(in alloc; "sixteenth, count {count}\n"))
        }
        Err(FastFault::TooManyPieces { pieces }) => made(format!(in alloc; "{pieces} pieces\n")),
        Err(FastFault::TooLarge { sectors }) => {
            made(format!(in alloc; "too large, {sectors} sectors\n"))
        }
        Err(FastFault::Memory) => Err(RowFault::Memory),
    }
}
