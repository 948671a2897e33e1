// Edits tried and made. A copy is changed, run by run, and checked.
ghost use Rattle.std.specs.Prelude.{◌≡◌, Err, IfErr, IfOk, OnOk, MatchResult};
ghost use Rattle.plain_doc.specs.Sound.{IsSound};
ghost use Rattle.edit_ops.specs.Causes.{CanBeTried, IsAcceptedEdit, IsEditFault};
ghost use Rattle.edit_ops.specs.EditFacts.{edit_facts};
ghost use Rattle.edit_ops.specs.Edits.{changes_of as changes_by, document_after};

use crate::facts::facts_of;
use crate::judging::check_edited;
use crate::planning::changes_of;
use crate::{Changes, Command, EditFault, Facts, has_valid_codes, is_in_range};
use doc_bits::{Memory, drop_then, keep_if_ok};
use doc_columns::ColumnDocument;
use doc_patch::make_all;
use plain_doc::Document;
use std::alloc::Global;
use std::mem;

/// An edit that is accepted: its changes, the document after them, and what they do.
#[derive(Drop)]
pub struct Edit {
    pub changes: Changes,
    pub document: ColumnDocument,
    pub facts: Facts,
}

/// Tries an edit: what it does, or why it is refused. The document stays as it is.
pub fn test(alloc: Global, document: &Document, command: &Command) -> Result<Facts, EditFault>
    requires { IsSound document.now }
    ensures { MatchResult result
        (λ facts. IsAcceptedEdit document.now command.now × (facts ≡ edit_facts document.now command.now))
        (IsEditFault document.now command.now) }
{
    let columns = ColumnDocument::from_document(alloc, document)?;
    let told = facts_or_fault(alloc, &columns, command);
    drop_then(columns, told)
}

/// What an edit of a document by columns does, or why it is refused. The document stays as it is.
fn facts_or_fault(
    alloc: Global,
    document: &ColumnDocument,
    command: &Command,
) -> Result<Facts, EditFault>
    requires { IsSound document.now }
    ensures { MatchResult result
        (λ facts. IsAcceptedEdit document.now command.now × (facts ≡ edit_facts document.now command.now))
        (IsEditFault document.now command.now) }
{
    let edit = edit_of(alloc, document, command)?;
    let facts = edit.facts;
    drop_then(edit, Ok(facts))
}

/// Makes an edit. A save changes nothing.
pub fn apply_plain(
    alloc: Global,
    document: &mut Document,
    command: &Command,
) -> Result<(), EditFault>
    requires { IsSound document.old }
    ensures ok { OnOk result
        (IsAcceptedEdit document.old command.now × (document.new ≡ document_after document.old command.now)) }
    ensures err { IfErr result
        (λ fault. (document.new ≡ document.old) × IsEditFault document.old command.now fault) }
    ensures sound { IsSound document.new }
{
    let made = document_after_edit(alloc, document, command)?;
    drop_then(mem::replace(document, made), Ok(()))
}

/// The document after an edit, item by item, or why it is refused. The document stays as it is.
fn document_after_edit(
    alloc: Global,
    document: &Document,
    command: &Command,
) -> Result<Document, EditFault>
    requires { IsSound document.now }
    ensures { MatchResult result
        (λ made. IsAcceptedEdit document.now command.now × (made ≡ document_after document.now command.now))
        (IsEditFault document.now command.now) }
{
    let columns = ColumnDocument::from_document(alloc, document)?;
    let made = items_after_edit(alloc, &columns, command);
    drop_then(columns, made)
}

/// The document by columns after an edit, item by item, or why it is refused.
fn items_after_edit(
    alloc: Global,
    document: &ColumnDocument,
    command: &Command,
) -> Result<Document, EditFault>
    requires { IsSound document.now }
    ensures { MatchResult result
        (λ made. IsAcceptedEdit document.now command.now × (made ≡ document_after document.now command.now))
        (IsEditFault document.now command.now) }
{
    let edit = edit_of(alloc, document, command)?;
    let items = edit.document.expand(alloc);
    let made = drop_then(edit, items)?;
    Ok(made)
}

/// The edit of a command: its changes, the document after it and what it does, or why it is refused. The document stays
/// as it is.
pub fn edit_of(
    alloc: Global,
    document: &ColumnDocument,
    command: &Command,
) -> Result<Edit, EditFault>
    requires { IsSound document.now }
    ensures { MatchResult result
        (λ edit. IsAcceptedEdit document.now command.now
        × ((edit.changes ≡ changes_by document.now command.now)
        × ((edit.document ≡ document_after document.now command.now)
        × (edit.facts ≡ edit_facts document.now command.now))))
        (IsEditFault document.now command.now) }
{
    if !is_in_range(document, command) {
        return Err(EditFault::Range);
    }
    if !has_valid_codes(command) {
        return Err(EditFault::Code);
    }
    let edit = plan(alloc, document, command)?;
    let verdict = check_edited(alloc, &edit.document);
    keep_if_ok(edit, verdict)
}

/// The edit of a command, before the document after it is checked.
fn plan(alloc: Global, document: &ColumnDocument, command: &Command) -> Result<Edit, Memory>
    requires sound { IsSound document.now }
    requires tried { CanBeTried document.now command.now }
    ensures changes { IfOk result (λ edit. edit.changes ≡ changes_by document.now command.now) }
    ensures document { IfOk result (λ edit. edit.document ≡ document_after document.now command.now) }
    ensures facts { IfOk result (λ edit. edit.facts ≡ edit_facts document.now command.now) }
{
    let changes = changes_of(alloc, document, command)?;
    let facts = facts_of(document, command, &changes);
    let copy = document.copy(alloc)?;
    let made = make_all(alloc, copy, &changes)?;
    Ok(Edit {
        changes,
        document: made,
        facts,
    })
}
