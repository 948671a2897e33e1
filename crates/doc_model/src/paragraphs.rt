// Where paragraphs end.
ghost use Rattle.std.specs.Prelude.{MatchOption};
ghost use Rattle.doc_model.specs.Paragraphs.{IsParagraphEnd, HasNoParagraphEnd};

use crate::Item;

/// The index of the first item from `at` on that has a mark. It takes no memory.
pub fn paragraph_end(items: &[Item], at: usize) -> Option<usize>
    ensures { MatchOption result (HasNoParagraphEnd items.now at) (IsParagraphEnd items.now at) }
{
    for i in at..items.len() {
        if items[i].mark.is_some() {
            return Some(i);
        }
    }
    None
}
