// The properties of a file, whatever is in it: the container alone is checked.
ghost use Rattle.std.specs.Prelude.{◌≡◌, ◌≢◌, MatchResult};
ghost use Rattle.doc_bits.specs.Number.{AreBytes};
ghost use Rattle.doc_bits.specs.Rules.{Hold};
ghost use Rattle.file_rules.specs.Faults.{IsReadFault};
ghost use Rattle.property_text.specs.Printable.{HasNoControls};
ghost use Rattle.run_stages.specs.Leaves.{IsCaused, IsOnlyRead};
ghost use Rattle.docview_run.specs.Endings.{IsOfFile, RunEnds};
ghost use Rattle.docview_run.specs.FileProperties.{PropertiesOf, ShowsProperties, rules_in_file};

use crate::run::{PROGRAM, print, tell_refusal};
use cfb_streams::Container;
use doc_bits::Text;
use doc_outer::{Shelf, Sink};
use file_rules::{ReadFault, refused_container};
use property_text::{PropertyForm, SummaryStreams, property_page};
use run_stages::{STATUS_MEMORY, STATUS_REFUSED, Stage, take_file, tell_reason, why_refused};
use std::alloc::Global;

/// [MS-OLEPS] `\u0005SummaryInformation`
const SUMMARY_INFORMATION: [u16; 19] = [
    5, 83, 117, 109, 109, 97, 114, 121, 73, 110, 102, 111, 114, 109, 97, 116, 105, 111, 110,
];

/// [MS-OSHARED] `\u0005DocumentSummaryInformation`
const DOCUMENT_SUMMARY_INFORMATION: [u16; 27] = [
    5, 68, 111, 99, 117, 109, 101, 110, 116, 83, 117, 109, 109, 97, 114, 121, 73, 110, 102, 111,
    114, 109, 97, 116, 105, 111, 110,
];

/// Shows the properties of the file of a name.
pub(crate) fn show_properties<S: Shelf, K: Sink, E: Sink>(
    alloc: Global,
    shelf: &mut S,
    name: &str,
    form: PropertyForm,
    out: &mut K,
    reasons: &mut E,
) -> u8
    ensures read { IsOnlyRead S.Shelf shelf.old shelf.new }
    ensures ends { RunEnds (ShowsProperties name.now (S.held shelf.old)) K.Sink out.old out.new result }
    ensures cause { IsCaused S.Shelf shelf.old shelf.new result }
    ensures asked { result ≢ 2 }
{
    match take_file(alloc, shelf, name) {
        Ok(Stage::Go(bytes)) => show_taken(alloc, name, bytes.as_slice(), form, out, reasons),
        Ok(Stage::Stop(ending)) => {
            tell_reason(reasons, PROGRAM, &ending);
            ending.status()
        }
        Err(_) => STATUS_MEMORY,
    }
}

/// Shows the properties of a file.
fn show_taken<K: Sink, E: Sink>(
    alloc: Global,
    name: &str,
    file: &[u8],
    form: PropertyForm,
    out: &mut K,
    reasons: &mut E,
) -> u8
    ensures ends { RunEnds (PropertiesOf name.now file.now) K.Sink out.old out.new result }
    ensures bytes { AreBytes file.now }
    ensures after { IsOfFile result }
{
    match page_of(alloc, file, form) {
        Ok(page) => print(out, page.as_str()),
        Err(ReadFault::Memory) => STATUS_MEMORY,
        Err(
            ReadFault::Refused {
                rule,
                place,
                offset,
            },
        ) => {
            let why = why_refused(rule, file);
            match tell_refusal(alloc, name, rule, (place, offset), why, reasons) {
                Ok(()) => STATUS_REFUSED,
                Err(_) => STATUS_MEMORY,
            }
        }
    }
}

/// The page of the properties of a file.
fn page_of(alloc: Global, file: &[u8], form: PropertyForm) -> Result<Text, ReadFault>
    ensures { MatchResult result
        (λ text. Hold (rules_in_file file.now) × HasNoControls text)
        (IsReadFault (rules_in_file file.now)) }
{
    let container = match Container::load(alloc, file) {
        Ok(container) => container,
        Err(fault) => return Err(refused_container(fault)),
    };
    let streams = SummaryStreams {
        summary: container.stream(&SUMMARY_INFORMATION),
        document: container.stream(&DOCUMENT_SUMMARY_INFORMATION),
    };
    let page = property_page(alloc, streams, form)?;
    Ok(page)
}
