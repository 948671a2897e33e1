// JSON as a document.
ghost use Rattle.std.specs.Prelude.{◌≡◌, ℕ, List, IfOk, Some, codes};
ghost use Rattle.doc_bits.specs.Number.{AreBytes};
ghost use Rattle.document_commands.specs.declared.reply.Reply.TheVariants.{Refused};
ghost use Rattle.document_commands.specs.declared.reply.Refusal.TheVariants.{Json, Unsound};
ghost use Rattle.document_commands.specs.Imports.{not_json_line as not_json_of, wrong_shape_line as wrong_shape_of};
ghost use Rattle.document_commands.specs.Imports.{Imports};
ghost use Rattle.document_commands.specs.Imports.{overlong_json_line as overlong_of};
ghost use Rattle.run_stages.specs.Lines.{rule_line as rule_of};
ghost use Rattle.run_stages.specs.Outcomes.{says};
ghost use Rattle.document_commands.specs.Replies.{EndsByReply};
ghost use Rattle.json_doc.specs.Reading.{IsJsonFault};

use crate::reply::{Refusal, Reply};
use crate::save::save_reply;
use crate::status::STATUS_JSON;
use doc_bits::{Memory, Text, Where};
use json_doc::{JsonFault, from_json_of_columns};
use json_reasons::why_no_document;
use run_stages::{Ending, rule_line};
use std::alloc::Global;

/// The ending where the bytes of a file are to be a document as JSON, which is saved for a name.
pub fn import_file(alloc: Global, file: &[u8], out: &str) -> Result<Ending, Memory>
    ensures ends { IfOk result (EndsByReply (Some out.now) (Imports file.now)) }
    ensures bytes { AreBytes file.now }
{
    let reply = import_reply(alloc, file)?;
    let ending = reply.into_ending(alloc, Some(out))?;
    Ok(explain(alloc, ending, file))
}

/// The ending; that of bytes that are no document tells what of them is wrong.
fn explain(alloc: Global, ending: Ending, file: &[u8]) -> Ending
    ensures { result ≡ ending }
{
    if ending.status() != STATUS_JSON {
        return ending;
    }
    match why_no_document(alloc, file) {
        Some(reason) => ending.because(reason),
        None => ending,
    }
}

/// The full save of the document that the bytes of a file spell.
fn import_reply(alloc: Global, file: &[u8]) -> Result<Reply, Memory>
    ensures { IfOk result (Imports file.now) }
{
    match from_json_of_columns(alloc, file) {
        Ok(document) => {
            let reply = save_reply(alloc, "import", &document);
            drop(document);
            reply
        }
        Err(fault) => not_read(alloc, fault),
    }
}

/// The reply of bytes that are not read as a document.
fn not_read(alloc: Global, fault: JsonFault) -> Result<Reply, Memory>
    ensures { IfOk result (λ reply. (bytes : List ℕ) → IsJsonFault bytes fault → Imports bytes reply) }
{
    match fault {
        JsonFault::Json => not_json(alloc),
        JsonFault::Shape => wrong_shape(alloc),
        JsonFault::Unsound { rule, place, at } => unsound(alloc, rule, place, at),
        JsonFault::Memory => Err(Memory),
    }
}

/// The reply of bytes that are no JSON.
fn not_json(alloc: Global) -> Result<Reply, Memory>
    ensures { IfOk result (λ r. r ≡ Refused Json not_json_of) }
{
    let line = String::from_str(alloc, "import: not JSON\n")?;
    Ok(Reply::Refused {
        why: Refusal::Json,
        text: Text::from_string(line),
    })
}

/// The reply of JSON that no document has.
fn wrong_shape(alloc: Global) -> Result<Reply, Memory>
    ensures { IfOk result (λ r. r ≡ Refused Json wrong_shape_of) }
{
    let line = String::from_str(alloc, "import: wrong shape\n")?;
    Ok(Reply::Refused {
        why: Refusal::Json,
        text: Text::from_string(line),
    })
}

/// The reply of a document that breaks a rule.
fn unsound(alloc: Global, rule: u8, part: Where, at: u32) -> Result<Reply, Memory>
    ensures { IfOk result (λ r. r ≡ Refused Unsound (rule_of (codes "import") rule (part, at))) }
{
    let text = rule_line(alloc, "import", rule, part, at)?;
    Ok(Reply::Refused {
        why: Refusal::Unsound,
        text,
    })
}

/// The ending where a file has more bytes than are read.
pub fn overlong_json(alloc: Global) -> Result<Ending, Memory>
    ensures { IfOk result (λ e. e ≡ says 7 overlong_of) }
{
    let line = String::from_str(alloc, "import: too long\n")?;
    Ok(Ending::new(STATUS_JSON, Text::from_string(line)))
}
