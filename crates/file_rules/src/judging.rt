// A file is checked layer by layer. Each layer's first broken rule is named in its part.
ghost use Rattle.std.specs.Prelude.{MatchResult};
ghost use Rattle.doc_bits.specs.Rules.{Hold};
ghost use Rattle.file_rules.specs.Faults.{IsReadFault};
ghost use Rattle.file_rules.specs.PartRules.{part_rules};
ghost use Rattle.file_rules.specs.FileRules.{AreSmall, contents_rules, file_rules, doc_source_of};

use crate::fault::refused_container;
use crate::{LoadedText, ReadFault, Source, load_text, read_parts};
use cfb_streams::Container;
use std::alloc::Global;

/// Checks a file by the rules on its parts and on all that is below them.
pub fn check(alloc: Global, file: &[u8]) -> Result<(), ReadFault>
    ensures { MatchResult result
        (λ _. Hold (file_rules file.now))
        (IsReadFault (file_rules file.now)) }
{
    match Container::load(alloc, file) {
        Ok(container) => check_contents(alloc, &container),
        Err(fault) => Err(refused_container(fault)),
    }
}

/// Checks the streams of a file.
fn check_contents(alloc: Global, container: &Container) -> Result<(), ReadFault>
    requires { AreSmall container.now }
    ensures { MatchResult result
        (λ _. Hold (contents_rules container.now))
        (IsReadFault (contents_rules container.now)) }
{
    let text = load_text(alloc, container)?;
    let judged = check_text(alloc, &text);
    drop(text);
    judged
}

/// Checks a text by the rules on its parts.
fn check_text(alloc: Global, text: &LoadedText<'_>) -> Result<(), ReadFault>
    ensures { MatchResult result
        (λ _. Hold (part_rules (doc_source_of text.now)))
        (IsReadFault (part_rules (doc_source_of text.now))) }
{
    let source = text.source();
    check_parts(alloc, &source)
}

/// Checks the parts of a text. What they hold is let go.
fn check_parts(alloc: Global, source: &Source<'_>) -> Result<(), ReadFault>
    ensures { MatchResult result
        (λ _. Hold (part_rules source.now))
        (IsReadFault (part_rules source.now)) }
{
    let parts = read_parts(alloc, source)?;
    drop(parts);
    Ok(())
}
