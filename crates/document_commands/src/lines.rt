// The lines that a run prints.
ghost use Rattle.std.specs.Prelude.{◌≡◌, IfOk};
ghost use Rattle.document_commands.specs.Lines.{usage_line as usage_of};
ghost use Rattle.document_commands.specs.Lines.{position_line as position_of};
ghost use Rattle.document_commands.specs.Lines.{bytes_line as bytes_of, needs_sectors_line as needs_of};
ghost use Rattle.document_commands.specs.Lines.{equal_line as equal_of, different_line as different_of};

use doc_bits::{Memory, Text};
use std::alloc::Global;

/// The line that names the commands.
pub fn usage_line(alloc: Global) -> Result<Text, Memory>
    ensures { IfOk result (λ text. text ≡ usage_of) }
{
    let line = String::from_str(
        alloc,
        "usage: docbin text FILE | streams FILE | check FILE | show FILE | props FILE POS | full FILE OUT \
         | equal A B | edit FILE SCRIPT OUT | gen N OUT | outline FILE | title FILE | retitle FILE TEXT OUT \
         | export FILE OUT | import FILE OUT | join A B OUT\n",
    )?;
    Ok(Text::from_string(line))
}

/// The line for a position beyond the main text of `len` items.
pub(crate) fn position_line(alloc: Global, pos: u32, len: usize) -> Result<Text, Memory>
    ensures { IfOk result (λ text. text ≡ position_of pos len) }
{
    let line = format!(in alloc; "position {pos} of {len}\n")?;
    Ok(Text::from_string(line))
}

/// The line of a command that made so many bytes: `word` is the command's.
pub fn bytes_line(alloc: Global, word: &str, count: usize) -> Result<Text, Memory>
    ensures { IfOk result (λ text. text ≡ bytes_of word.now count) }
{
    let line = format!(in alloc; "{word}: {count} bytes\n")?;
    Ok(Text::from_string(line))
}

/// The line of a command whose bytes would need more sectors than a file has.
pub fn needs_line(alloc: Global, word: &str, sectors: u64) -> Result<Text, Memory>
    ensures { IfOk result (λ text. text ≡ needs_of word.now sectors) }
{
    let line = format!(in alloc; "{word}: too large, needs {sectors} sectors\n")?;
    Ok(Text::from_string(line))
}

/// The line for two documents that are equal.
pub(crate) fn equal_line(alloc: Global) -> Result<Text, Memory>
    ensures { IfOk result (λ text. text ≡ equal_of) }
{
    let line = String::from_str(alloc, "equal\n")?;
    Ok(Text::from_string(line))
}

/// The line for two documents that are not.
pub(crate) fn different_line(alloc: Global) -> Result<Text, Memory>
    ensures { IfOk result (λ text. text ≡ different_of) }
{
    let line = String::from_str(alloc, "different\n")?;
    Ok(Text::from_string(line))
}
