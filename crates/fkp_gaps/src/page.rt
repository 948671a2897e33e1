// The page of one run without properties, behind a stream.
ghost use Rattle.std.specs.Prelude.{◌≡◌, ◌≤◌, OnOk, length};
ghost use Rattle.fkp_gaps.specs.Filled.{next_page, with_empty_run};

use doc_bits::Memory;
use fkp_pages::{COUNT_AT, PAGE_LEN};

/// The bytes of an fc.
const FC_LEN: usize = 4;

/// The byte of which the fc behind all places is made.
const FC_BYTE: u8 = 0xFF;

/// The number of the first page that is behind a stream.
pub fn next_page_of(wd: &[u8]) -> usize
    requires { length wd.now ≤ 1073741824 }
    ensures { result ≡ next_page wd.now }
{
    (wd.len() + PAGE_LEN - 1) / PAGE_LEN
}

/// Puts that page behind a stream: one run of all places, which has no properties.
pub fn push_empty_run(wd: &mut Vec<u8>) -> Result<(), Memory>
    requires { length wd.old.items ≤ 1073741824 }
    ensures { OnOk result (wd.new.items ≡ with_empty_run wd.old.items) }
{
    let at = PAGE_LEN * next_page_of(wd);
    wd.resize(at, 0)?;
    wd.resize(at + FC_LEN, 0)?;
    wd.resize(at + 2 * FC_LEN, FC_BYTE)?;
    wd.resize(at + COUNT_AT, 0)?;
    wd.push(1)?;
    Ok(())
}
