// A walk over a list.
ghost use Rattle.std.specs.Prelude.{◌≡◌, ◌<◌, length, slice_get, Some};

use crate::places::Mark;
use crate::row::Row;
use crate::{BlockList, Measured};
use std::marker::Model;

/// A walk over the items of a list: the item behind the last one that was asked for is found at once.
#[derive(Drop)]
pub struct Walk<'a, T: Measured> {
    row: &'a Row<T>,
    mark: Mark,
}

impl<'a, T: Measured> Model for Walk<'a, T> {
    ghost use Rattle.std.specs.Prelude.{List};
    ghost use Rattle.std.specs.Coded.{coded_list};
    ghost use Rattle.chunked_list.specs.Blocks.{joined, IsAtMark};

    ghost Value = { List T };

    ghost coded = { coded_list T.code };

    ghost view = { λ w. joined w.row.now.blocks };

    ghost invariant = { λ w. IsAtMark w.row.now.blocks w.mark };
}

impl<T: Measured> BlockList<T> {
    /// A walk from the first item on.
    pub fn walk(&self) -> Walk<'_, T>
        ensures { result ≡ self.now.items }
    {
        Walk {
            row: &self.row,
            mark: Mark {
                block: 0,
                before: 0,
            },
        }
    }
}

impl<'a, T: Measured> Walk<'a, T> {
    /// An item by its number.
    pub fn get(&mut self, i: usize) -> T
        requires { i < length self.old }
        ensures value { slice_get self.old i ≡ Some result }
        ensures same { self.new ≡ self.old }
    {
        let mark = self.row.reach(self.mark, i);
        self.mark = mark;
        self.row.get(mark.block, i - mark.before)
    }
}
