// The three parts of the table stream that hold bookmarks.
ghost use Rattle.std.specs.Prelude.{IfOk};
ghost use Rattle.full_save.specs.TableText.{FitParts};
ghost use Rattle.full_save.specs.Made.{AreMarkParts};

use doc_bits::{Bytes, Memory};
use doc_parts::{Bookmarks, print_ends, print_names, print_starts};
use std::alloc::Global;

/// Their names, where they begin, and where they end.
#[derive(Drop)]
pub(crate) struct MarkParts {
    pub(crate) names: Bytes,
    pub(crate) starts: Bytes,
    pub(crate) ends: Bytes,
}

impl MarkParts {
    /// Those of bookmarks in a main text of `end` units; empty where there are none.
    pub(crate) fn of(alloc: Global, bookmarks: &Bookmarks, end: u32) -> Result<MarkParts, Memory>
        requires { FitParts bookmarks.now }
        ensures { IfOk result (AreMarkParts bookmarks.now end) }
    {
        Ok(MarkParts {
            names: print_names(alloc, bookmarks)?,
            starts: print_starts(alloc, bookmarks, end)?,
            ends: print_ends(alloc, bookmarks, end)?,
        })
    }
}
