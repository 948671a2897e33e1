// The summary of a document: the carried stream that is asked for its title.
ghost use Rattle.std.specs.Prelude.{◌≡◌, ◌≤◌, length, IfOk};
ghost use Rattle.cfb_streams.specs.Names.{is_same_name};
ghost use Rattle.doc_read.specs.CarriedParts.{AreShortStreams};
ghost use Rattle.document_commands.specs.Summaries.{summary_name, summary_place as place_of, HasNoSummary};
ghost use Rattle.document_commands.specs.Summaries.{HasWrongSummary};
ghost use Rattle.document_commands.specs.Summaries.{ShowsSummary, TellsTitle};
ghost use Rattle.document_commands.specs.SummaryLines.{wrong_summary_line as wrong_of};
ghost use Rattle.document_commands.specs.declared.reply.Reply.TheVariants.{Refused};
ghost use Rattle.document_commands.specs.declared.reply.Refusal.TheVariants.{WrongSummary};

use crate::reply::{Refusal, Reply};
use crate::summary_lines::{fields_lines, no_summary_line, wrong_summary_line};
use cfb_streams::{Streams, equal_names};
use doc_bits::Memory;
use std::alloc::Global;
use summary_set::{SetFault, fields};

/// [MS-OLEPS] `\u0005SummaryInformation`
const SUMMARY_INFORMATION: [u16; 19] = [
    5, 83, 117, 109, 109, 97, 114, 121, 73, 110, 102, 111, 114, 109, 97, 116, 105, 111, 110,
];

/// The place of the summary among the carried streams, or how many these are.
pub(crate) fn summary_place(streams: &Streams) -> usize
    ensures { result ≡ place_of streams.now }
{
    let count = streams.count();
    for i in 0..count {
        if is_summary(streams.name(i)) {
            return i;
        }
    }
    count
}

/// Whether it is the name of a summary.
fn is_summary(name: &[u16]) -> bool
    ensures { result ≡ is_same_name name.now summary_name }
{
    equal_names(name, &SUMMARY_INFORMATION)
}

/// The lines on the summary of the document of a name.
pub(crate) fn title_reply(alloc: Global, name: &str, streams: &Streams) -> Result<Reply, Memory>
    requires { AreShortStreams streams.now }
    ensures { IfOk result (TellsTitle name.now streams.now) }
{
    let place = summary_place(streams);
    let count = streams.count();
    if place >= count {
        return no_summary(alloc, name);
    }
    shown_summary(alloc, name, streams.bytes(place))
}

/// The lines on a summary.
fn shown_summary(alloc: Global, name: &str, stream: &[u8]) -> Result<Reply, Memory>
    requires { length stream.now ≤ 7143936 }
    ensures { IfOk result (ShowsSummary name.now stream.now) }
{
    match fields(alloc, stream) {
        Ok(fields) => {
            let text = fields_lines(alloc, &fields)?;
            Ok(Reply::Done(text))
        }
        Err(SetFault::Form { at }) => wrong_summary(alloc, name, at),
        Err(SetFault::Memory) => Err(Memory),
    }
}

/// The reply where there is no summary.
pub(crate) fn no_summary(alloc: Global, name: &str) -> Result<Reply, Memory>
    ensures { IfOk result (HasNoSummary name.now) }
{
    let text = no_summary_line(alloc, name)?;
    Ok(Reply::Refused {
        why: Refusal::NoSummary,
        text,
    })
}

/// The reply where it is no property set.
pub(crate) fn wrong_summary(alloc: Global, name: &str, place: u32) -> Result<Reply, Memory>
    ensures { IfOk result (λ r. r ≡ Refused WrongSummary (wrong_of name.now place)) }
{
    let text = wrong_summary_line(alloc, name, place)?;
    Ok(Reply::Refused {
        why: Refusal::WrongSummary,
        text,
    })
}
