// The lines that all programs over files print.
ghost use Rattle.std.specs.Prelude.{◌≡◌, IfOk};
ghost use Rattle.std.specs.String.{string_bytes};
ghost use Rattle.run_stages.specs.Lines.{rule_line as rule_of, missing_line as missing_of};
ghost use Rattle.run_stages.specs.Lines.{shelf_fault_line as shelf_fault_of, place_name};

use doc_bits::{Memory, Text, Where};
use std::alloc::Global;

/// The line that names a broken rule and its place.
pub fn rule_line(
    alloc: Global,
    name: &str,
    rule: u8,
    part: Where,
    offset: u32,
) -> Result<Text, Memory>
    ensures { IfOk result (λ text. text ≡ rule_of name.now rule (part, offset)) }
{
    let part = part_name(alloc, part)?;
    let line = format!(in alloc; "{name}: rule {rule} {part} {offset}\n")?;
    Ok(Text::from_string(line))
}

/// How a place is named, without its offset.
pub fn part_name(alloc: Global, part: Where) -> Result<String, Memory>
    ensures { IfOk result (λ text. string_bytes text ≡ place_name part) }
{
    let text = match part {
        Where::File => String::from_str(alloc, "File")?,
        Where::Wd => String::from_str(alloc, "WordDocument")?,
        Where::Table => String::from_str(alloc, "Table")?,
        Where::Sheet => String::from_str(alloc, "Sheet")?,
        Where::Main => String::from_str(alloc, "Main")?,
        Where::Note(number) => format!(in alloc; "Note {number}")?,
        Where::Head(number) => format!(in alloc; "Head {number}")?,
    };
    Ok(text)
}

/// The line for a name that is not there.
pub fn missing_line(alloc: Global, name: &str) -> Result<Text, Memory>
    ensures { IfOk result (λ text. text ≡ missing_of name.now) }
{
    let line = format!(in alloc; "{name}: missing\n")?;
    Ok(Text::from_string(line))
}

/// The line for a failing outside.
pub fn shelf_fault_line(alloc: Global) -> Result<Text, Memory>
    ensures { IfOk result (λ text. text ≡ shelf_fault_of) }
{
    let line = String::from_str(alloc, "shelf fault\n")?;
    Ok(Text::from_string(line))
}
