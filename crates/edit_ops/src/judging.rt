// A changed document checked.
ghost use Rattle.std.specs.Prelude.{◌↔◌, IsTrue, MatchResult};
ghost use Rattle.doc_model.specs.declared.document.Document.{Document};
ghost use Rattle.doc_model.specs.Marks.{HasFormedBookmarks};
ghost use Rattle.plain_doc.specs.Sound.{IsSound, NamesFirstRule, document_rules};
ghost use Rattle.edit_ops.specs.Causes.{IsLimit, IsNamedRule};

use crate::EditFault;
use doc_columns::{CheckFault, ColumnDocument, check};
use plain_doc::{DocFault, RULE_ITEMS, RULE_SETTINGS, RULE_STD};
use std::alloc::Global;

/// Checks a changed document.
pub(crate) fn check_edited(alloc: Global, document: &ColumnDocument) -> Result<(), EditFault>
    requires { HasFormedBookmarks document.now }
    ensures { MatchResult result (λ _. IsSound document.now) (IsNamedRule document.now) }
{
    match check(alloc, document) {
        Ok(()) => Ok(()),
        Err(CheckFault::Rule(fault)) => Err(edit_fault(fault)),
        Err(CheckFault::Memory) => Err(EditFault::Memory),
    }
}

/// The fault of an edit whose document breaks this rule first.
fn edit_fault(fault: DocFault) -> EditFault
    ensures { (document : Document) → NamesFirstRule (document_rules document) fault → IsNamedRule document result }
{
    let DocFault { rule, place, at } = fault;
    if is_limit(rule) {
        EditFault::Limit { rule, place, at }
    } else {
        EditFault::Rule { rule, place, at }
    }
}

/// Whether the rule is one on sizes.
fn is_limit(rule: u8) -> bool
    ensures { IsTrue result ↔ IsLimit rule }
{
    rule == RULE_ITEMS || rule == RULE_SETTINGS || rule == RULE_STD
}
