// The words of a call.
ghost use Rattle.std.specs.Prelude.{◌≡◌, map, IfOk};
ghost use Rattle.std.specs.String.{string_bytes};

use doc_bits::Memory;
use std::alloc::Global;

/// Texts as words of a command.
pub(crate) fn words_of(alloc: Global, texts: &[&str]) -> Result<Vec<String>, Memory>
    ensures { IfOk result (λ words. map string_bytes words.items ≡ map (λ text. text.now) texts.now) }
{
    let mut words = Vec::new(alloc);
    for text in texts {
        let word = String::from_str(alloc, text)?;
        words.push(word)?;
    }
    Ok(words)
}
