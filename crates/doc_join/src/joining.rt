// One document after another.
ghost use Rattle.std.specs.Prelude.{◌≡◌, ◌≤◌, IfOk, MatchResult};
ghost use Rattle.doc_model.specs.Marks.{HasFormedBookmarks};
ghost use Rattle.plain_doc.specs.Sound.{IsSound, NamesFirstRule, document_rules};
ghost use Rattle.doc_join.specs.Join.{document_join, slots_together, most_slots};
ghost use Rattle.doc_join.specs.Faults.{IsJoinedDocument, IsJoinFault, IsUnsoundJoin};

use crate::JoinFault;
use crate::kept_maps::KeptMaps;
use crate::marks::join_bookmarks;
use crate::renumbering::Renumbering;
use crate::sheets::join_sheets;
use crate::texts::{join_main, join_texts};
use doc_bits::{Memory, keep_if_ok};
use doc_columns::{CheckFault, ColumnDocument, check};
use plain_doc::{DocFault, Document, SEPARATORS};
use std::alloc::Global;

/// [MS-DOC] Stshif: the most slots of a sheet.
const MAX_SLOTS: usize = 4_094;

/// The first document and then the second, where their styles fit one sheet and what they make is sound. Both are put
/// by columns first.
pub fn join(alloc: Global, a: &Document, b: &Document) -> Result<Document, JoinFault>
    requires first { IsSound a.now }
    requires second { IsSound b.now }
    ensures { MatchResult result (IsJoinedDocument a.now b.now) (IsJoinFault a.now b.now) }
{
    let first = ColumnDocument::from_document(alloc, a)?;
    let made = join_behind(alloc, &first, b);
    drop(first);
    made
}

/// The first document, which is there by columns, and then the second.
fn join_behind(alloc: Global, a: &ColumnDocument, b: &Document) -> Result<Document, JoinFault>
    requires first { IsSound a.now }
    requires second { IsSound b.now }
    ensures { MatchResult result (IsJoinedDocument a.now b.now) (IsJoinFault a.now b.now) }
{
    let second = ColumnDocument::from_document(alloc, b)?;
    let made = joined_items(alloc, a, &second);
    drop(second);
    made
}

/// The first document and then the second, both by columns.
fn joined_items(
    alloc: Global,
    a: &ColumnDocument,
    b: &ColumnDocument,
) -> Result<Document, JoinFault>
    requires first { IsSound a.now }
    requires second { IsSound b.now }
    ensures { MatchResult result (IsJoinedDocument a.now b.now) (IsJoinFault a.now b.now) }
{
    let made = join_of_columns(alloc, a, b)?;
    let items = made.expand(alloc);
    drop(made);
    Ok(items?)
}

/// The first document and then the second, where their styles fit one sheet, by columns.
pub fn join_of_columns(
    alloc: Global,
    a: &ColumnDocument,
    b: &ColumnDocument,
) -> Result<ColumnDocument, JoinFault>
    requires first { IsSound a.now }
    requires second { IsSound b.now }
    ensures { MatchResult result (IsJoinedDocument a.now b.now) (IsJoinFault a.now b.now) }
{
    let slots = a.sheet.slots() + b.sheet.slots();
    if slots > MAX_SLOTS {
        return Err(JoinFault::Styles {
            slots: slots as u32,
        });
    }
    let made = join_unchecked(alloc, a, b)?;
    let verdict = check_joined(alloc, &made);
    keep_if_ok(made, verdict)
}

/// The joined document, sound or not.
fn join_unchecked(
    alloc: Global,
    a: &ColumnDocument,
    b: &ColumnDocument,
) -> Result<ColumnDocument, Memory>
    requires first { IsSound a.now }
    requires second { IsSound b.now }
    requires fits { slots_together a.now b.now ≤ most_slots }
    ensures { IfOk result (λ made. made ≡ document_join a.now b.now) }
{
    let before = a.sheet.slots() as u16;
    let mut first_maps = KeptMaps::new(
        alloc,
        Renumbering {
            before: 0,
            slots: before,
        },
    );
    let mut second_maps = KeptMaps::new(
        alloc,
        Renumbering {
            before,
            slots: b.sheet.slots() as u16,
        },
    );
    Ok(ColumnDocument {
        main: join_main(alloc, &a.main, &mut first_maps, &b.main, &mut second_maps)?,
        notes: join_texts(
            alloc,
            0,
            &a.notes,
            &mut first_maps,
            &b.notes,
            &mut second_maps,
        )?,
        heads: join_texts(
            alloc,
            SEPARATORS,
            &a.heads,
            &mut first_maps,
            &b.heads,
            &mut second_maps,
        )?,
        sheet: join_sheets(alloc, &a.sheet, &mut first_maps, &b.sheet, &mut second_maps)?,
        carried: a.carried.copy(alloc)?,
        bookmarks: join_bookmarks(alloc, &a.bookmarks, a.main.len(), &b.bookmarks)?,
    })
}

/// Whether a document is sound, or its first broken rule.
fn check_joined(alloc: Global, made: &ColumnDocument) -> Result<(), JoinFault>
    requires { HasFormedBookmarks made.now }
    ensures { MatchResult result (λ _. IsSound made.now) (IsUnsoundJoin made.now) }
{
    match check(alloc, made) {
        Ok(()) => Ok(()),
        Err(CheckFault::Rule(DocFault { rule, place, at })) => {
            Err(JoinFault::Unsound { rule, place, at })
        }
        Err(CheckFault::Memory) => Err(JoinFault::Memory),
    }
}
