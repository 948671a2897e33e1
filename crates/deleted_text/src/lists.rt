// [MS-DOC] sprmCFRMarkDel: what a list says of whether a reviser deleted its text.
ghost use Rattle.std.specs.Prelude.{◌≡◌, ◌↔◌, IsTrue, List, false, [], ◌∷◌};
ghost use Rattle.sprm_table.specs.Sprm.{Prl, SpellsSprmList, IsAcceptedList};
ghost use Rattle.deleted_text.specs.Deletions.{SaysDeleted, deleted_by, LacksCode};

use doc_bits::get16;
use sprm_table::{Code, SprmIter, list_fault};

/// [MS-DOC] sprmCFRMarkDel.
const DELETED: Code = Code(0x0800);

/// Whether a list says that its text was deleted. One that is cut short does not.
pub(crate) fn says_deleted(list: &[u8]) -> bool
    ensures { IsTrue result ↔ SaysDeleted list.now }
{
    if lacks_code(list) {
        return false;
    }
    match list_fault(list, 0) {
        None => last_says(list),
        Some(_) => false,
    }
}

/// Whether no word of a list is sprmCFRMarkDel.
fn lacks_code(list: &[u8]) -> bool
    ensures { IsTrue result → LacksCode list.now }
{
    for k in 1..list.len() {
        if get16(list, k - 1) == DELETED.0 {
            return false;
        }
    }
    true
}

/// What the last such sprm of a list says.
fn last_says(list: &[u8]) -> bool
    requires { IsAcceptedList list.now 0 }
    ensures { (prls : List Prl) → SpellsSprmList list.now prls → result ≡ deleted_by false prls }
{
    let mut deleted = false;
    let mut prls = SprmIter::new(list);
    while let Some((code, from, to)) = prls.next() {
        deleted = after_sprm(code, &list[from..to], deleted);
    }
    deleted
}

/// What is said behind a sprm.
fn after_sprm(code: Code, value: &[u8], before: bool) -> bool
    ensures { result ≡ deleted_by before ((code.0, value.now) ∷ []) }
{
    if code != DELETED {
        return before;
    }
    0 < value.len() && value[0] != 0
}
