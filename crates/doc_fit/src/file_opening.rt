// A file is opened as it is, or with mends of its bytes: its last sector is filled where it is cut, changes of tab stops
// get the code that docbin reads, a part that breaks its own rule is emptied, and so is a slot of the style sheet.
ghost use Rattle.std.specs.Prelude.{◌≡◌, ◌↔◌, Err, IfOk, IsTrue, MatchOption, MatchResult, Ok};
ghost use Rattle.doc_bits.specs.Number.{AreBytes};
ghost use Rattle.doc_read.specs.Holds.{IsAccepted};
ghost use Rattle.file_rules.specs.Faults.{IsReadFault};
ghost use Rattle.file_mends.specs.Mends.{bytes_read};
ghost use Rattle.file_mends.specs.Sectors.{FillsSector};
ghost use Rattle.doc_fit.specs.Noted.{IsOpenedFit};
ghost use Rattle.doc_fit.specs.ReadAs.{IsGiven, IsMendedOn, IsOpenedFile, MendsCopyFirst, StaysFirst};
ghost use Rattle.doc_fit.specs.Rules.{fit_rules};

use crate::noting::open_fit;
use crate::opening::OpenedAny;
use doc_bits::Memory;
use doc_lift::ReadFault;
use doc_read::open;
use file_mends::{FileMend, MendedFile, fill_sector, mend_rule, with_stops_read};
use std::alloc::Global;

/// How many parts and slots of the style sheet are mended at most.
const MEND_COUNT: usize = 16;

/// A file that was read, with the mends of its bytes: what was opened, or the first broken rule of what was read.
#[derive(Drop)]
pub struct OpenedFile {
    pub mended: MendedFile,
    pub opened: Result<OpenedAny, ReadFault>,
}

/// Opens a file of any program from Word 97 to 2007, as it is or with its bytes mended: with its endnotes and comments as
/// notes, where they can be, unless it is to be plain.
pub fn open_file(alloc: Global, file: &[u8], plain: bool) -> Result<OpenedFile, Memory>
    ensures { IfOk result (IsOpenedFile plain file.now) }
{
    let filled = fill_sector(alloc, file)?;
    let mended = read_stops(alloc, file, filled)?;
    match open_bytes(alloc, mended.bytes(file), plain) {
        Ok(opened) => Ok(opened_file(mended, opened)),
        Err(fault) => open_refused(alloc, file, mended, fault, plain),
    }
}

/// The file with its changes of tab stops that delete none read, where docbin does not accept it.
fn read_stops(alloc: Global, file: &[u8], mut mended: MendedFile) -> Result<MendedFile, Memory>
    requires { FillsSector file.now mended.mends (bytes_read file.now mended) }
    ensures { IfOk result (λ given. IsGiven file.now given.mends (bytes_read file.now given)) }
{
    let found = with_stops_read(alloc, mended.bytes(file))?;
    let Some(made) = found else {
        return Ok(mended);
    };
    let accepted = is_accepted(alloc, file)?;
    if accepted {
        return Ok(mended);
    }
    let mend = made.mend;
    mended.renew(made.copy, mend)?;
    Ok(mended)
}

/// What was opened, as it was read. It takes no memory.
fn opened_file(mended: MendedFile, opened: OpenedAny) -> OpenedFile
    ensures { result ≡ record { mended = mended; opened = Ok opened } }
{
    OpenedFile {
        mended,
        opened: Ok(opened),
    }
}

/// What was refused, as it was read. It takes no memory.
fn refused_file(mended: MendedFile, fault: ReadFault) -> OpenedFile
    ensures { result ≡ record { mended = mended; opened = Err fault } }
{
    OpenedFile {
        mended,
        opened: Err(fault),
    }
}

/// Opens a file, which is a list of bytes.
fn open_bytes(alloc: Global, file: &[u8], plain: bool) -> Result<OpenedAny, ReadFault>
    ensures opened { MatchResult result (IsOpenedFit plain file.now) (IsReadFault (fit_rules file.now)) }
    ensures bytes { AreBytes file.now }
{
    open_fit(alloc, file, plain)
}

/// Opens a file that is refused, once its first broken rules are mended. A file that docbin accepts is not mended.
fn open_refused(
    alloc: Global,
    file: &[u8],
    mended: MendedFile,
    fault: ReadFault,
    plain: bool,
) -> Result<OpenedFile, Memory>
    requires given { IsGiven file.now mended.mends (bytes_read file.now mended) }
    requires bytes { AreBytes (bytes_read file.now mended) }
    requires refused { IsReadFault (fit_rules (bytes_read file.now mended)) fault }
    ensures { IfOk result (IsOpenedFile plain file.now) }
{
    let accepted = is_accepted(alloc, file)?;
    if accepted {
        return Ok(refused_file(mended, fault));
    }
    open_mended(alloc, file, mended, fault, plain, MEND_COUNT)
}

/// Whether docbin accepts a file.
fn is_accepted(alloc: Global, file: &[u8]) -> Result<bool, Memory>
    ensures { IfOk result (λ is. IsTrue is ↔ IsAccepted file.now) }
{
    match open(alloc, file) {
        Ok(opened) => {
            drop(opened);
            Ok(true)
        }
        Err(ReadFault::Refused { .. }) => Ok(false),
        Err(ReadFault::Memory) => Err(Memory),
    }
}

/// Mends the first broken rule of what is read, and opens that; so on, at most so many times.
fn open_mended(
    alloc: Global,
    file: &[u8],
    mut mended: MendedFile,
    fault: ReadFault,
    plain: bool,
    most: usize,
) -> Result<OpenedFile, Memory>
    requires bytes { AreBytes (bytes_read file.now mended) }
    requires refused { IsReadFault (fit_rules (bytes_read file.now mended)) fault }
    ensures { IfOk result (IsMendedOn plain file.now most mended) }
{
    if most == 0 {
        return Ok(refused_file(mended, fault));
    }
    let mend = mend_first(alloc, file, &mut mended, fault)?;
    let Some(_) = mend else {
        return Ok(refused_file(mended, fault));
    };
    match open_bytes(alloc, mended.bytes(file), plain) {
        Ok(opened) => Ok(opened_file(mended, opened)),
        Err(fault) => open_mended(alloc, file, mended, fault, plain, most - 1),
    }
}

/// Mends the first broken rule of what is read, where it is one that is mended.
fn mend_first(
    alloc: Global,
    file: &[u8],
    mended: &mut MendedFile,
    fault: ReadFault,
) -> Result<Option<FileMend>, Memory>
    requires bytes { AreBytes (bytes_read file.now mended.old) }
    requires refused { IsReadFault (fit_rules (bytes_read file.now mended.old)) fault }
    ensures { IfOk result (λ mend. MatchOption mend
        (StaysFirst file.now mended.old mended.new)
        (MendsCopyFirst file.now mended.old mended.new)) }
{
    match fault {
        ReadFault::Refused { rule, offset, .. } => {
            let mend = mend_rule(alloc, file, mended, rule, offset)?;
            Ok(mend)
        }
        ReadFault::Memory => Err(Memory),
    }
}
