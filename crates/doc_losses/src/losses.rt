// What of a file is left out by its bookmarks and its style sheet.
ghost use Rattle.std.specs.Prelude.{◌≡◌, ◌++◌, IfOk, OnOk};
ghost use Rattle.fib_form.specs.Fib.{fib_ccp_text};
ghost use Rattle.doc_losses.specs.Bookmarks.{bookmark_features, file_bookmark_parts};
ghost use Rattle.doc_losses.specs.Losses.{lost_features, losses};

use crate::bookmarks::{BookmarkBytes, add_bookmarks};
use crate::sheet::add_sheet;
use doc_bits::Memory;
use fib_versions::AnyFib;
use std::alloc::Global;
use text_losses::TextFeature;

/// The pair of the style sheet.
const STSHF: u16 = 1;

/// The pairs of the names, the starts and the ends of bookmarks.
const STTBF_BKMK: u16 = 21;

const PLCF_BKF: u16 = 22;

const PLCF_BKL: u16 = 23;

/// The features of a file that are left out: bookmarks that do not fit its main text, and bytes of its style sheet.
pub fn doc_losses(alloc: Global, fib: &AnyFib<'_>, table: &[u8]) -> Result<Vec<TextFeature>, Memory>
    ensures { IfOk result (λ list. list.items ≡ losses (record { wd = fib.now; table = table.now })) }
{
    let mut list = Vec::new(alloc);
    add_file_bookmarks(alloc, fib, table, &mut list)?;
    add_sheet(fib.part(table, STSHF), &mut list)?;
    Ok(list)
}

/// Appends the bookmarks of a file that do not fit its main text.
fn add_file_bookmarks(
    alloc: Global,
    fib: &AnyFib<'_>,
    table: &[u8],
    list: &mut Vec<TextFeature>,
) -> Result<(), Memory>
    ensures { OnOk result (list.new.items ≡ list.old.items ++ lost_features (fib_ccp_text fib.now)
        (bookmark_features (file_bookmark_parts fib.now table.now))) }
{
    let parts = BookmarkBytes {
        names: fib.part(table, STTBF_BKMK),
        starts: fib.part(table, PLCF_BKF),
        ends: fib.part(table, PLCF_BKL),
    };
    add_bookmarks(alloc, parts, fib.ccps()[0], list)
}
