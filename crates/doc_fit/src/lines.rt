// The lines on files that are not opened.
ghost use Rattle.std.specs.Prelude.{◌≡◌, IfOk};
ghost use Rattle.doc_fit.specs.Lines.{encrypted_line as encrypted_of, not_word_line as not_word_of};

use doc_bits::{Memory, Text};
use std::alloc::Global;
use text_codes::push_word;

/// The line of a file of another program, by its FIB's wIdent and nFib.
pub(crate) fn not_word_line(
    alloc: Global,
    name: &str,
    ident: u16,
    version: u16,
) -> Result<Text, Memory>
    ensures { IfOk result (λ text. text ≡ not_word_of name.now ident version) }
{
    let mut line = Text::new(alloc);
    line.push_all(name)?;
    line.push_all(": not of Word 97 to 2007: wIdent ")?;
    push_word(&mut line, ident)?;
    line.push_all(" nFib ")?;
    push_word(&mut line, version)?;
    line.push_all("\n")?;
    Ok(line)
}

/// The line of an encrypted file.
pub(crate) fn encrypted_line(alloc: Global, name: &str) -> Result<Text, Memory>
    ensures { IfOk result (λ text. text ≡ encrypted_of name.now) }
{
    let line = format!(in alloc; "{name}: encrypted\n")?;
    Ok(Text::from_string(line))
}
