// What docfit prints.
ghost use Rattle.std.specs.Prelude.{◌≡◌, IfOk};
ghost use Rattle.docfit_run.specs.Lines.{fit_line as fit_of, needs_line as needs_of};

use doc_bits::{Memory, Text};
use std::alloc::Global;

/// The line of a file that was made: its bytes, what is left out, and what is mended.
pub(crate) fn fit_line(
    alloc: Global,
    bytes: usize,
    left_out: usize,
    mended: usize,
) -> Result<Text, Memory>
    ensures { IfOk result (λ text. text ≡ fit_of bytes left_out mended) }
{
    let line = format!(in alloc; "fit: {bytes} bytes, left out {left_out}, mended {mended}\n")?;
    Ok(Text::from_string(line))
}

/// The line of a document that fits no file.
pub(crate) fn needs_line(alloc: Global, sectors: u64) -> Result<Text, Memory>
    ensures { IfOk result (λ text. text ≡ needs_of sectors) }
{
    let line = format!(in alloc; "fit: needs {sectors} sectors\n")?;
    Ok(Text::from_string(line))
}
