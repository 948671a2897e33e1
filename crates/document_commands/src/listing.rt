// The streams of a file, one on each line.
ghost use Rattle.std.specs.Prelude.{◌≡◌, IfOk, MatchResult};
ghost use Rattle.doc_bits.specs.declared.places.Where.TheVariants.{File};
ghost use Rattle.doc_bits.specs.Rules.{Hold};
ghost use Rattle.doc_bits.specs.Places.{rules_in};
ghost use Rattle.cfb_streams.specs.Container.{container_rules};
ghost use Rattle.document_commands.specs.Lines.{stream_lines};
ghost use Rattle.document_commands.specs.Answers.{IsListingOf};
ghost use Rattle.file_rules.specs.Faults.{IsReadFault};

use cfb_streams::Container;
use doc_bits::{Memory, Text};
use file_rules::{ReadFault, refused_container};
use std::alloc::Global;
use text_codes::show_units;

/// A line for each stream of a file, in the order of their names.
pub(crate) fn listing(alloc: Global, file: &[u8]) -> Result<Text, ReadFault>
    ensures { MatchResult result
        (λ text. Hold (rules_in File (container_rules file.now)) × IsListingOf file.now text)
        (IsReadFault (rules_in File (container_rules file.now))) }
{
    let container = match Container::load(alloc, file) {
        Ok(container) => container,
        Err(fault) => return Err(refused_container(fault)),
    };
    let text = stream_text(alloc, &container)?;
    Ok(text)
}

/// The line of each stream: its size, and its name as it is shown.
fn stream_text(alloc: Global, container: &Container) -> Result<Text, Memory>
    ensures { IfOk result (λ text. text ≡ stream_lines container.now.streams) }
{
    let mut text = Text::new(alloc);
    for i in 0..container.count() {
        let size = container.bytes(i).len();
        let name = show_units(alloc, container.name(i))?;
        let name = name.as_str();
        let line = format!(in alloc; "{size} {name}\n")?;
        text.push_all(line.as_str())?;
    }
    Ok(text)
}
