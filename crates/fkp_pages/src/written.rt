// What a page holds for a run: its Chpx or Papx.
ghost use Rattle.std.specs.Prelude.{◌≡◌, ◌+◌, ◌≤◌, ◌++◌, length, IfOk, OnOk};
ghost use Rattle.fkp_pages.specs.Fkp.{least_list, spelled_list};
ghost use Rattle.fkp_pages.specs.Runs.{most_printed, run_list, IsWritableRun};
ghost use Rattle.fkp_pages.specs.Written.{is_bare_run, run_bytes_written};

use crate::kind::PageKind;
use crate::lists::Run;
use doc_bits::{Bytes, Memory};
use std::alloc::Global;

/// The bytes of a style number.
pub const ISTD_LEN: usize = 2;

/// The bytes that are written for a run.
pub(crate) fn write_run(alloc: Global, run: &Run, kind: PageKind) -> Result<Bytes, Memory>
    requires { IsWritableRun kind run.now }
    ensures { IfOk result (λ bytes. bytes ≡ run_bytes_written kind run.now) }
{
    let mut bytes = Bytes::new(alloc);
    if is_bare(run, kind) {
        return Ok(bytes);
    }
    let list = list_of(alloc, run, kind)?;
    push_list(&mut bytes, list.as_slice(), kind)?;
    Ok(bytes)
}

/// How many bytes are written for a run.
pub(crate) fn written_len(run: &Run, kind: PageKind) -> usize
    requires { IsWritableRun kind run.now }
    ensures { result ≡ length (run_bytes_written kind run.now) }
{
    if is_bare(run, kind) {
        return 0;
    }
    let len = run.map.printed_len() as usize;
    match kind {
        PageKind::Chpx => 1 + len,
        PageKind::Papx => {
            // One byte of head for an odd number of bytes, two for an even one.
            let odd = (ISTD_LEN + len) % 2;
            ISTD_LEN + len + 2 - odd
        }
    }
}

/// Whether nothing is written for a run.
fn is_bare(run: &Run, kind: PageKind) -> bool
    ensures { result ≡ is_bare_run kind run.now }
{
    match kind {
        PageKind::Chpx => run.map.is_empty(),
        PageKind::Papx => run.istd == 0 && run.map.is_empty(),
    }
}

/// The list of a run; a paragraph's begins with the style number.
fn list_of(alloc: Global, run: &Run, kind: PageKind) -> Result<Bytes, Memory>
    requires { IsWritableRun kind run.now }
    ensures { IfOk result (λ list. list ≡ run_list kind run.now) }
{
    let printed = run.map.print(alloc)?;
    match kind {
        PageKind::Chpx => Ok(printed),
        PageKind::Papx => {
            let mut list = Bytes::new(alloc);
            list.push16(run.istd)?;
            list.push_all(printed.as_slice())?;
            Ok(list)
        }
    }
}

/// Appends a list as a page has it, with the number of its bytes before it.
fn push_list(bytes: &mut Bytes, list: &[u8], kind: PageKind) -> Result<(), Memory>
    requires { length list.now ≤ least_list kind + most_printed kind }
    ensures { OnOk result (bytes.new ≡ bytes.old ++ spelled_list kind list.now) }
{
    let len = list.len();
    match kind {
        PageKind::Chpx => bytes.push_all(&[len as u8])?,
        PageKind::Papx => {
            if len % 2 == 1 {
                bytes.push_all(&[((len + 1) / 2) as u8])?;
            } else {
                bytes.push_all(&[0, (len / 2) as u8])?;
            }
        }
    }
    bytes.push_all(list)
}
