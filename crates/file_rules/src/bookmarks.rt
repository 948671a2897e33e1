// The rule on bookmarks, which alone checks the pairs of their parts.
ghost use Rattle.std.specs.Prelude.{MatchResult};
ghost use Rattle.doc_bits.specs.Rules.{Hold, LeastOrNone};
ghost use Rattle.file_rules.specs.Faults.{IsReadFault};
ghost use Rattle.file_rules.specs.BookmarkRules.{IsLeavingPair, HasLeavingPair, rules_of_bookmarks, HasBookmarks};

use crate::fault::refused_part;
use crate::pair_rules::{FIRST_PAIR, PAIR_LEN};
use crate::{ReadFault, Source};
use doc_bits::{Where, lesser};
use doc_parts::{Bookmarks, RULE_BOOKMARKS, bookmarks};
use fib_form::{StoryKind, TablePart};
use std::alloc::Global;

/// The bytes of an SttbfBkmk without names.
const NO_NAMES: u32 = 6;

/// Reads the bookmarks that are kept, in their order.
pub fn read_bookmarks(alloc: Global, source: &Source<'_>) -> Result<Bookmarks, ReadFault>
    ensures { MatchResult result
        (λ list. Hold (rules_of_bookmarks source.now) × HasBookmarks source.now list)
        (IsReadFault (rules_of_bookmarks source.now)) }
{
    if source.pair(TablePart::SttbfBkmk).1 <= NO_NAMES {
        return Ok(Bookmarks::new(alloc));
    }
    if let Some(offset) = leaving_pair(source) {
        return Err(ReadFault::Refused {
            rule: RULE_BOOKMARKS,
            place: Where::Wd,
            offset,
        });
    }
    let names = source.part(TablePart::SttbfBkmk);
    let starts = source.part(TablePart::PlcfBkf);
    let ends = source.part(TablePart::PlcfBkl);
    let at = [
        source.place(TablePart::SttbfBkmk),
        source.place(TablePart::PlcfBkf),
        source.place(TablePart::PlcfBkl),
    ];
    match bookmarks(
        alloc,
        names,
        starts,
        ends,
        at,
        source.story_len(StoryKind::Main),
    ) {
        Ok(list) => Ok(list),
        Err(fault) => Err(refused_part(fault)),
    }
}

/// The first pair of the three parts that leaves the table stream, by its place in `WordDocument`.
fn leaving_pair(source: &Source<'_>) -> Option<u32>
    ensures { LeastOrNone (HasLeavingPair source.now) result }
{
    let names = if_leaving(source, TablePart::SttbfBkmk);
    let starts = if_leaving(source, TablePart::PlcfBkf);
    let ends = if_leaving(source, TablePart::PlcfBkl);
    lesser(names, lesser(starts, ends))
}

/// The pair of a part, by its place, where it leaves the table stream.
fn if_leaving(source: &Source<'_>, part: TablePart) -> Option<u32>
    ensures { LeastOrNone (IsLeavingPair source.now part) result }
{
    let (fc, lcb) = source.pair(part);
    if source.table().len() < fc as usize + lcb as usize {
        Some(FIRST_PAIR + PAIR_LEN * part.pair() as u32)
    } else {
        None
    }
}
