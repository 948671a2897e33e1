// A document by columns checked by the rules on documents.
ghost use Rattle.std.specs.Prelude.{IfOk, MatchResult};
ghost use Rattle.doc_bits.specs.Rules.{Hold, LeastOrNone};
ghost use Rattle.doc_model.specs.Marks.{AreWrongBookmarks};
ghost use Rattle.plain_doc.specs.Sound.{document_rules};
ghost use Rattle.doc_columns.specs.Checking.{IsCheckFault};

use crate::{ColumnDocument, is_sound};
use doc_bits::{Memory, drop_then};
use document_bookmarks::Bookmarks;
use plain_doc::{DocFault, Document, MAX_BOOKMARKS, check_with};
use std::alloc::Global;

/// Why a document is refused.
#[derive(Debug)]
pub enum CheckFault {
    /// The first rule that it breaks, 60 to 71, at its least place.
    Rule(DocFault),
    /// Out of memory.
    Memory,
}

impl From<Memory> for CheckFault {
    ghost use Rattle.std.specs.Prelude.{◌≡◌};
    ghost use Rattle.doc_columns.specs.declared.checking.CheckFault.TheVariants.{Memory};

    ghost from_gives = { λ _ e. e ≡ Memory };

    fn from(_: Memory) -> Self {
        CheckFault::Memory
    }
}

/// Checks a document by the rules 60 to 71. Its bookmarks may be in any order. Where its columns do not tell, its
/// items are put one by one.
pub fn check(alloc: Global, document: &ColumnDocument) -> Result<(), CheckFault>
    ensures { MatchResult result (λ _. Hold (document_rules document.now)) (IsCheckFault document.now) }
{
    if is_sound(alloc, document)? {
        return Ok(());
    }
    let wrong = wrong_bookmarks(alloc, &document.bookmarks)?;
    let items = document.expand(alloc)?;
    let verdict = check_items(&items, wrong);
    drop_then(items, verdict)
}

/// Where the number of bookmarks or their names are wrong: at 0 where there are too many.
fn wrong_bookmarks(alloc: Global, bookmarks: &Bookmarks) -> Result<Option<u32>, Memory>
    ensures { IfOk result (LeastOrNone (AreWrongBookmarks bookmarks.now)) }
{
    if bookmarks.len() > MAX_BOOKMARKS {
        return Ok(Some(0));
    }
    let same = bookmarks.find_same_name(alloc)?;
    Ok(same)
}

/// Checks a document item by item, where it is known at which place its bookmarks are wrong.
fn check_items(document: &Document, wrong: Option<u32>) -> Result<(), CheckFault>
    requires { LeastOrNone (AreWrongBookmarks document.now.bookmarks) wrong }
    ensures { MatchResult result (λ _. Hold (document_rules document.now)) (IsCheckFault document.now) }
{
    match check_with(document, wrong) {
        Ok(()) => Ok(()),
        Err(fault) => Err(CheckFault::Rule(fault)),
    }
}
