// The document that a script makes of the blank one.
ghost use Rattle.std.specs.Prelude.{IsTrue};
ghost use Rattle.doc_bits.specs.Rules.{Hold};
ghost use Rattle.doc_model.specs.Marks.{HasFormedBookmarks};
ghost use Rattle.plain_doc.specs.Sound.{IsSound, document_rules};

use crate::lent::is_made;
use doc_bits::Memory;
use doc_columns::ColumnDocument;
use edit_ops::{Command, apply_plain};
use edit_script::{Script, read_script};
use plain_doc::{Document, blank, check, equal};
use std::alloc::Global;

/// An edit of each kind, on texts, notes, header texts, styles and bookmarks, and some that are refused.
pub const EACH: &str = "[\
    {\"do\":\"insert\",\"story\":\"main\",\"at\":0,\"text\":\"Hello world, dear Bob\"},\
    {\"do\":\"char\",\"story\":\"main\",\"from\":3,\"to\":9,\"set\":{\"0835\":\"01\"}},\
    {\"do\":\"split\",\"story\":\"main\",\"at\":5},\
    {\"do\":\"para\",\"story\":\"main\",\"at\":2,\"set\":{\"2461\":\"01\"}},\
    {\"do\":\"bookmark\",\"name\":\"dear\",\"from\":14,\"to\":18},\
    {\"do\":\"note\",\"at\":4,\"text\":\"A note\"},\
    {\"do\":\"note\",\"at\":12,\"text\":\"Another\"},\
    {\"do\":\"char\",\"story\":\"note:1\",\"from\":2,\"to\":5,\"set\":{\"0836\":\"01\"}},\
    {\"do\":\"bookmark\",\"name\":\"field\",\"from\":7,\"to\":7},\
    {\"do\":\"field\",\"story\":\"main\",\"at\":7,\"type\":33,\"code\":\"PAGE\",\"result\":\"1\"},\
    {\"do\":\"sect\",\"at\":9,\"new\":false,\"set\":{\"5026\":\"0200\"}},\
    {\"do\":\"sect\",\"at\":3,\"new\":true,\"set\":{\"5026\":\"0200\"}},\
    {\"do\":\"insert\",\"story\":\"head:6\",\"at\":0,\"text\":\"Head\"},\
    {\"do\":\"insert\",\"story\":\"head:6\",\"at\":2,\"text\":\"XY\"},\
    {\"do\":\"row\",\"story\":\"main\",\"at\":0,\"width\":500,\"cells\":[\"ab\",\"\",\"c\"]},\
    {\"do\":\"plain\",\"story\":\"main\",\"from\":8,\"to\":20},\
    {\"do\":\"style\",\"story\":\"main\",\"at\":12,\"istd\":1},\
    {\"do\":\"stylechar\",\"istd\":0,\"set\":{\"0835\":\"01\"}},\
    {\"do\":\"stylepara\",\"istd\":1,\"set\":{\"2461\":\"01\"}},\
    {\"do\":\"merge\",\"story\":\"main\",\"at\":14},\
    {\"do\":\"unmark\",\"name\":\"field\"},\
    {\"do\":\"unmark\",\"name\":\"field\"},\
    {\"do\":\"bookmark\",\"name\":\"dear\",\"from\":0,\"to\":1},\
    {\"do\":\"erase\",\"story\":\"main\",\"from\":9,\"to\":16},\
    {\"do\":\"erase\",\"story\":\"main\",\"from\":9,\"to\":1600},\
    {\"do\":\"erase\",\"story\":\"note:0\",\"from\":2,\"to\":3},\
    {\"do\":\"erase\",\"story\":\"main\",\"from\":0,\"to\":30},\
    {\"do\":\"erase\",\"story\":\"main\",\"from\":8,\"to\":12},\
    {\"do\":\"save\",\"mode\":\"full\"}]";

/// Whether a test holds of the blank document after the commands of a script. Those that are refused change nothing.
pub fn is_edited<F: FnOnce(&Document) -> Result<bool, Memory>>(
    alloc: Global,
    json: &str,
    test: F,
) -> Result<bool, Memory>
    requires { F.IsAlwaysCallable test }
{
    is_made(edited(alloc, json), test)
}

/// The blank document after the commands of a script.
fn edited(alloc: Global, json: &str) -> Result<Document, Memory> {
    let mut document = blank(alloc)?;
    edit(alloc, &mut document, json);
    Ok(document)
}

/// Makes the commands of a script, where it is one.
fn edit(alloc: Global, document: &mut Document, json: &str) {
    let script = read_script(alloc, json.as_bytes());
    if let Ok(script) = &script {
        run(alloc, document, script);
    }
}

/// Makes each command in order.
fn run(alloc: Global, document: &mut Document, script: &Script) {
    for k in 0..script.len() {
        make(alloc, document, script.get(k));
    }
}

/// Makes a command, where the document is known to be sound.
fn make(alloc: Global, document: &mut Document, command: &Command) {
    if breaks_none(document) {
        let _ = apply_plain(alloc, document, command);
    }
}

/// Whether a document is known to be sound.
pub fn breaks_none(document: &Document) -> bool
    ensures { IsTrue result → IsSound document.now }
{
    if !has_formed_bookmarks(document) {
        return false;
    }
    keeps_rules(document)
}

/// Whether the bookmarks of a document are formed.
fn has_formed_bookmarks(document: &Document) -> bool
    ensures { IsTrue result → HasFormedBookmarks document.now }
{
    document.bookmarks.are_formed(document.main.len())
}

/// Whether a document breaks no rule.
fn keeps_rules(document: &Document) -> bool
    ensures { IsTrue result → Hold (document_rules document.now) }
{
    match check(document) {
        Ok(()) => true,
        Err(_) => false,
    }
}

/// Whether a document by columns has the items and all else of a plain one.
pub fn is_same(alloc: Global, columns: &ColumnDocument, plain: &Document) -> Result<bool, Memory> {
    is_made(
        columns.expand(alloc),
        |expanded: &Document| -> Result<bool, Memory> { Ok(equal(plain, expanded)) },
    )
}
