// The lists that are open at a paragraph.
ghost use Rattle.std.specs.Prelude.{◌≡◌, ◌+◌, ◌≤◌, ◌++◌, length};
ghost use Rattle.doc_places.specs.Lists.{frame_at, frame_elements, item_frame, list_elements, lists_after};
ghost use Rattle.doc_places.specs.Lists.{no_open_lists};
ghost use Rattle.doc_places.specs.Lists.{level_frame, with_item};
ghost use Rattle.view_places.specs.Same.{equal};

use view_paths::{MAX_DEPTH, Path};
use view_places::{Element, List};

/// How many levels of lists a page has.
const LEVELS: usize = 6;

/// A list that is open: the numbers of its first paragraph and of its last one, and whether its items have numbers.
#[derive(Clone, Copy)]
pub struct Frame {
    pub first: usize,
    pub is_ordered: bool,
    pub item: usize,
}

/// The item of a list that a paragraph is: its level, and whether it has a number and no bullet.
#[derive(Clone, Copy)]
pub struct ListItem {
    pub level: u8,
    pub is_ordered: bool,
}

/// The lists that are open, by their levels.
#[derive(Clone, Copy)]
pub struct Lists {
    pub frames: [Option<Frame>; LEVELS],
}

impl Lists {
    /// None.
    pub fn none() -> Lists
        ensures { result ≡ no_open_lists }
    {
        Lists {
            frames: [None; LEVELS],
        }
    }

    /// Those behind a paragraph with this number, which is an item or not, and of which something is shown or not.
    pub fn behind(self, item: Option<ListItem>, number: usize, is_here: bool) -> Lists
        ensures { result ≡ lists_after self item number is_here }
    {
        match item {
            None => { if is_here { Lists::none() } else { self } }
            Some(item) => self.with_item(item, number),
        }
    }

    /// Those of an item that is the paragraph with this number: lists of lower levels stay open.
    pub(crate) fn with_item(self, item: ListItem, number: usize) -> Lists
        ensures { result ≡ with_item self item number }
    {
        Lists {
            frames: [
                self.level_frame(0, item, number),
                self.level_frame(1, item, number),
                self.level_frame(2, item, number),
                self.level_frame(3, item, number),
                self.level_frame(4, item, number),
                self.level_frame(5, item, number),
            ],
        }
    }

    /// That of a level.
    fn level_frame(self, level: usize, item: ListItem, number: usize) -> Option<Frame>
        ensures { result ≡ level_frame self level item number }
    {
        let own = item.level as usize;
        if level > own {
            return None;
        }
        let frame = self.at(level);
        if level < own {
            frame
        } else {
            Some(item_of(frame, item.is_ordered, number))
        }
    }

    /// The list that is open at a level.
    fn at(self, level: usize) -> Option<Frame>
        ensures { result ≡ frame_at self level }
    {
        match self.frames.get(level) {
            None => None,
            Some(frame) => *frame,
        }
    }

    /// Puts the lists and their items inside of a path.
    pub(crate) fn push(self, path: &mut Path<Element>)
        requires { length path.old + 12 ≤ MAX_DEPTH }
        ensures is { path.new ≡ path.old ++ list_elements self }
        ensures few { length path.new ≤ length path.old + 12 }
    {
        for level in 0..LEVELS {
            push_frame(path, self.at(level));
        }
    }
}

/// Whether both are so or neither is.
fn is_same(one: bool, other: bool) -> bool
    ensures { result ≡ equal one other }
{
    if one { other } else { !other }
}

/// The list of an item behind the one that is open at its level.
fn item_of(frame: Option<Frame>, is_ordered: bool, number: usize) -> Frame
    ensures { result ≡ item_frame frame is_ordered number }
{
    let first = match frame {
        None => number,
        Some(frame) => {
            if is_same(frame.is_ordered, is_ordered) {
                frame.first
            } else {
                number
            }
        }
    };
    Frame {
        first,
        is_ordered,
        item: number,
    }
}

/// Puts a list and its item.
fn push_frame(path: &mut Path<Element>, frame: Option<Frame>)
    requires { length path.old + 2 ≤ MAX_DEPTH }
    ensures is { path.new ≡ path.old ++ frame_elements frame }
    ensures few { length path.new ≤ length path.old + 2 }
{
    match frame {
        None => {}
        Some(frame) => {
            path.push(Element::List(List {
                first: frame.first,
                is_ordered: frame.is_ordered,
            }));
            path.push(Element::Item(frame.item));
        }
    }
}
