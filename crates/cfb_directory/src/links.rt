// Rules 8 and 10: the links between entries, and the types of the entries.
ghost use Rattle.std.specs.Prelude.{◌≡◌, ℕ, ◌+◌, ◌*◌, ◌<◌, ◌≤◌, ◌↔◌, IsTrue, IfOk, length, slice_index};
ghost use Rattle.doc_bits.specs.Rules.{LeastOrNone};
ghost use Rattle.cfb_sectors.specs.Chain.{AreSectorsOf};
ghost use Rattle.cfb_directory.specs.Reach.{entry_count, ListsReached, IsNamedBefore, IsWrongLink, BreaksLink};
ghost use Rattle.cfb_directory.specs.Reach.{BreaksTree, AmongReached, IsWrongType, IsWrongStorage, BreaksStorage};
ghost use Rattle.cfb_directory.specs.Links.{ListsLinks, IsFirstNamed, IsWrongLinkAt};
ghost use Rattle.doc_bits.specs.Number.{u32_at};

use crate::directory::{
    CHILD, ENTRY_TYPE, LEFT, NOSTREAM, RIGHT, TYPE_STORAGE, TYPE_STREAM, entry_place,
};
use doc_bits::{Memory, get32, lesser};
use std::alloc::Global;

/// The places of the links that are checked: the root's child, and left and right of the entries
/// that are reached.
fn list_links(
    alloc: Global,
    file: &[u8],
    directory: &[u32],
    order: &[u32],
) -> Result<Vec<u32>, Memory>
    requires sectors { AreSectorsOf file.now directory.now }
    requires there { 0 < length directory.now }
    requires lists { ListsReached file.now directory.now order.now }
    ensures { IfOk result (λ links. ListsLinks file.now directory.now links.items) }
{
    let mut links = Vec::new(alloc);
    let root = entry_place(file, directory, 0);
    links.push((root + CHILD) as u32)?;
    for entry in order {
        let at = entry_place(file, directory, *entry as usize);
        links.push((at + LEFT) as u32)?;
        links.push((at + RIGHT) as u32)?;
    }
    Ok(links)
}

/// Notes for each entry the least place of a link that names it.
fn note_first(file: &[u8], links: &[u32], first: &mut [u32])
    requires inside { (i : ℕ) → i < length links.now → slice_index links.now i + 4 ≤ length file.now }
    requires none { IsFirstNamed file.now links.now 0 first.old }
    ensures { IsFirstNamed file.now links.now (length links.now) first.new }
{
    for link in links {
        let entry = get32(file, *link as usize) as usize;
        if entry < first.len() && *link < first[entry] {
            first[entry] = *link;
        }
    }
}

/// Whether a link at a lower offset names the entry that a link names.
fn is_named_before(file: &[u8], directory: &[u32], links: &[u32], first: &[u32], link: u32) -> bool
    requires lists { ListsLinks file.now directory.now links.now }
    requires named { IsFirstNamed file.now links.now (length links.now) first.now }
    requires there { u32_at file.now link < length first.now }
    requires inside { link + 4 ≤ length file.now }
    ensures { IsTrue result ↔ IsNamedBefore file.now directory.now link }
{
    let _sectors = directory;
    let _links = links;
    let entry = get32(file, link as usize);
    first[entry as usize] < link
}

/// Whether a link is wrong: it names entry 0, an entry that is not there, or one that a link at a
/// lower offset names.
fn is_wrong_link(file: &[u8], directory: &[u32], links: &[u32], first: &[u32], link: u32) -> bool
    requires lists { ListsLinks file.now directory.now links.now }
    requires named { IsFirstNamed file.now links.now (length links.now) first.now }
    requires count { length first.now ≡ entry_count directory.now }
    requires inside { link + 4 ≤ length file.now }
    ensures { IsTrue result ↔ IsWrongLink file.now directory.now link }
{
    let entry = get32(file, link as usize);
    if entry == NOSTREAM {
        return false;
    }
    if entry == 0 || entry as usize >= first.len() {
        return true;
    }
    is_named_before(file, directory, links, first, link)
}

/// The place of a link that is wrong.
fn wrong_link(
    file: &[u8],
    directory: &[u32],
    links: &[u32],
    first: &[u32],
    link: u32,
) -> Option<u32>
    requires lists { ListsLinks file.now directory.now links.now }
    requires named { IsFirstNamed file.now links.now (length links.now) first.now }
    requires count { length first.now ≡ entry_count directory.now }
    requires inside { link + 4 ≤ length file.now }
    ensures { LeastOrNone (IsWrongLinkAt file.now directory.now link) result }
{
    if is_wrong_link(file, directory, links, first, link) {
        Some(link)
    } else {
        None
    }
}

/// The least link that is wrong.
fn wrong_links(file: &[u8], directory: &[u32], links: &[u32], first: &[u32]) -> Option<u32>
    requires lists { ListsLinks file.now directory.now links.now }
    requires named { IsFirstNamed file.now links.now (length links.now) first.now }
    requires count { length first.now ≡ entry_count directory.now }
    ensures { LeastOrNone (BreaksLink file.now directory.now) result }
{
    let mut least = None;
    for link in links {
        least = lesser(least, wrong_link(file, directory, links, first, *link));
    }
    least
}

/// The type byte of an entry that is neither a storage nor a stream.
fn wrong_type(file: &[u8], directory: &[u32], entry: u32) -> Option<u32>
    requires sectors { AreSectorsOf file.now directory.now }
    requires there { entry < entry_count directory.now }
    ensures { LeastOrNone (IsWrongType file.now directory.now entry) result }
{
    let at = entry_place(file, directory, entry as usize) + ENTRY_TYPE;
    if file[at] != TYPE_STORAGE && file[at] != TYPE_STREAM {
        Some(at as u32)
    } else {
        None
    }
}

/// The least type byte that is wrong.
fn wrong_types(file: &[u8], directory: &[u32], order: &[u32]) -> Option<u32>
    requires sectors { AreSectorsOf file.now directory.now }
    requires lists { ListsReached file.now directory.now order.now }
    ensures { LeastOrNone (AmongReached file.now directory.now (IsWrongType file.now directory.now)) result }
{
    let mut least = None;
    for entry in order {
        least = lesser(least, wrong_type(file, directory, *entry));
    }
    least
}

/// The child field of a storage that has a child.
fn wrong_storage(file: &[u8], directory: &[u32], entry: u32) -> Option<u32>
    requires sectors { AreSectorsOf file.now directory.now }
    requires there { entry < entry_count directory.now }
    ensures { LeastOrNone (IsWrongStorage file.now directory.now entry) result }
{
    let at = entry_place(file, directory, entry as usize);
    if file[at + ENTRY_TYPE] == TYPE_STORAGE && get32(file, at + CHILD) != NOSTREAM {
        Some((at + CHILD) as u32)
    } else {
        None
    }
}

/// The least place at which a storage has a child.
pub(crate) fn wrong_storages(file: &[u8], directory: &[u32], order: &[u32]) -> Option<u32>
    requires sectors { AreSectorsOf file.now directory.now }
    requires lists { ListsReached file.now directory.now order.now }
    ensures { LeastOrNone (BreaksStorage file.now directory.now) result }
{
    let mut least = None;
    for entry in order {
        least = lesser(least, wrong_storage(file, directory, *entry));
    }
    least
}

/// The least place at which a link or a type is wrong.
pub(crate) fn wrong_tree(
    alloc: Global,
    file: &[u8],
    directory: &[u32],
    order: &[u32],
) -> Result<Option<u32>, Memory>
    requires sectors { AreSectorsOf file.now directory.now }
    requires there { 0 < length directory.now }
    requires few { length directory.now ≤ 256 }
    requires lists { ListsReached file.now directory.now order.now }
    ensures { IfOk result (LeastOrNone (BreaksTree file.now directory.now)) }
{
    let links = list_links(alloc, file, directory, order)?;
    let mut first = vec![in alloc; u32::MAX; 4 * directory.len()]?;
    note_first(file, &links, &mut first);
    let link = wrong_links(file, directory, &links, &first);
    Ok(lesser(link, wrong_types(file, directory, order)))
}
