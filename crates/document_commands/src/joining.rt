// One document after another.
ghost use Rattle.std.specs.Prelude.{◌≡◌, IfOk, codes};
ghost use Rattle.plain_doc.specs.Sound.{IsSound};
ghost use Rattle.document_commands.specs.declared.reply.Reply.TheVariants.{Refused};
ghost use Rattle.document_commands.specs.declared.reply.Refusal.TheVariants.{Styles, Unsound};
ghost use Rattle.run_stages.specs.Lines.{rule_line as rule_of};
ghost use Rattle.document_commands.specs.Joins.{styles_line as styles_of, Joins};

use crate::reply::{Refusal, Reply};
use crate::save::save_reply;
use doc_bits::{Memory, Text, Where};
use doc_columns::ColumnDocument;
use doc_join::{JoinFault, join_of_columns};
use run_stages::rule_line;
use std::alloc::Global;

/// The full save of one document with another behind it.
pub(crate) fn join_reply(
    alloc: Global,
    first: &ColumnDocument,
    second: &ColumnDocument,
) -> Result<Reply, Memory>
    requires first { IsSound first.now }
    requires second { IsSound second.now }
    ensures { IfOk result (Joins first.now second.now) }
{
    match join_of_columns(alloc, first, second) {
        Ok(made) => {
            let reply = save_reply(alloc, "join", &made);
            drop(made);
            reply
        }
        Err(JoinFault::Styles { slots }) => too_many_styles(alloc, slots),
        Err(JoinFault::Unsound { rule, place, at }) => unsound(alloc, rule, place, at),
        Err(JoinFault::Memory) => Err(Memory),
    }
}

/// The reply of two documents with more styles together than a sheet has.
fn too_many_styles(alloc: Global, slots: u32) -> Result<Reply, Memory>
    ensures { IfOk result (λ r. r ≡ Refused Styles (styles_of slots)) }
{
    let text = styles_line(alloc, slots)?;
    Ok(Reply::Refused {
        why: Refusal::Styles,
        text,
    })
}

/// The line of the slots of both sheets.
fn styles_line(alloc: Global, slots: u32) -> Result<Text, Memory>
    ensures { IfOk result (λ text. text ≡ styles_of slots) }
{
    let line = format!(in alloc; "join: styles {slots}\n")?;
    Ok(Text::from_string(line))
}

/// The reply of a joined document that breaks a rule.
fn unsound(alloc: Global, rule: u8, part: Where, at: u32) -> Result<Reply, Memory>
    ensures { IfOk result (λ r. r ≡ Refused Unsound (rule_of (codes "join") rule (part, at))) }
{
    let text = rule_line(alloc, "join", rule, part, at)?;
    Ok(Reply::Refused {
        why: Refusal::Unsound,
        text,
    })
}
