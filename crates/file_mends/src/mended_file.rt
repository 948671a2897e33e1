// What is read in place of a file: a copy of it, where it is mended.
ghost use Rattle.std.specs.Prelude.{◌≡◌, ◌+◌, ◌≤◌, [], ◌∷◌, ◌++◌, None, Some, IfOk, MatchOption, OnOk, length};
ghost use Rattle.file_mends.specs.declared.mends.FileMend.TheVariants.{PartEmptied};
ghost use Rattle.file_mends.specs.Mends.{IsMendedBy, StaysUnmended, bytes_read};
ghost use Rattle.file_mends.specs.Places.{zeroed};
ghost use Rattle.file_mends.specs.SheetChanges.{IsSheetRule};

use crate::mended_sheets::mended_sheet;
use crate::mends::FileMend;
use crate::part_places::{PartPlace, part_place};
use crate::sheet_changes::is_sheet_rule;
use doc_bits::Memory;
use std::alloc::Global;
use std::marker::Model;

/// A copy of a file, where it is mended, and the mends in their order.
#[derive(Drop)]
pub struct MendedFile {
    copy: Option<Vec<u8>>,
    mends: Vec<FileMend>,
}

impl Model for MendedFile {
    ghost use Rattle.std.specs.Prelude.{option_map};
    ghost use Rattle.file_mends.specs.Mends.{FileCopy};

    ghost Value = { FileCopy };

    ghost view = { λ m. record { copy = option_map (λ c. c.items) m.copy; mends = m.mends.items } };
}

impl MendedFile {
    /// The file itself.
    pub(crate) fn unmended(alloc: Global) -> MendedFile
        ensures { result ≡ record { copy = None; mends = [] } }
    {
        MendedFile {
            copy: None,
            mends: Vec::new(alloc),
        }
    }

    /// A copy with one mend.
    pub(crate) fn with_mend(
        alloc: Global,
        copy: Vec<u8>,
        mend: FileMend,
    ) -> Result<MendedFile, Memory>
        ensures { IfOk result (λ made. made ≡ record { copy = Some copy.items; mends = mend ∷ [] }) }
    {
        let mut mends = Vec::new(alloc);
        mends.push(mend)?;
        Ok(MendedFile {
            copy: Some(copy),
            mends,
        })
    }

    /// The bytes that are read in place of a file.
    pub fn bytes<'a>(&'a self, file: &'a [u8]) -> &'a [u8]
        ensures { result.now ≡ bytes_read file.now self.now }
    {
        match &self.copy {
            Some(copy) => copy,
            None => file,
        }
    }

    /// The mends.
    pub fn mends(&self) -> &[FileMend]
        ensures { result.now ≡ self.now.mends }
    {
        &self.mends
    }

    /// Puts zeros over the pairs of a part, with the mend that this is.
    fn empty(&mut self, alloc: Global, file: &[u8], place: PartPlace) -> Result<FileMend, Memory>
        requires { place.at + place.len ≤ length (bytes_read file.now self.old) }
        ensures bytes { OnOk result
            (bytes_read file.now self.new ≡ zeroed place.at place.len (bytes_read file.now self.old)) }
        ensures list { IfOk result (λ mend. self.new.mends ≡ self.old.mends ++ mend ∷ []) }
        ensures mend { IfOk result (λ mend. mend ≡ PartEmptied place.pair) }
    {
        let mend = FileMend::PartEmptied(place.pair);
        let mut copy = match self.copy.take() {
            Some(copy) => copy,
            None => Vec::from_slice(alloc, file)?,
        };
        put_zeros(&mut copy, place.at, place.len);
        self.copy = Some(copy);
        self.mends.push(mend)?;
        Ok(mend)
    }

    /// Another copy, with the mend that this is.
    pub fn renew(&mut self, copy: Vec<u8>, mend: FileMend) -> Result<(), Memory>
        ensures { OnOk result
            (self.new ≡ record { copy = Some copy.items; mends = self.old.mends ++ mend ∷ [] }) }
    {
        self.copy = Some(copy);
        self.mends.push(mend)?;
        Ok(())
    }
}

/// Mends a broken rule of what is read in place of a file: where it is the own rule of a part that a document goes
/// without, the part is emptied, and where a slot of the style sheet breaks it, the slot is emptied, or the sheet ends
/// before it. After want of memory nothing is said of the copy.
pub fn mend_rule(
    alloc: Global,
    file: &[u8],
    mended: &mut MendedFile,
    rule: u8,
    offset: u32,
) -> Result<Option<FileMend>, Memory>
    ensures { IfOk result (λ mend. MatchOption mend
        (StaysUnmended file.now rule offset mended.old mended.new)
        (IsMendedBy file.now rule offset mended.old mended.new)) }
{
    if is_sheet_rule(rule) {
        return mend_sheet(alloc, file, mended, rule, offset);
    }
    mend_part(alloc, file, mended, rule, offset)
}

/// Mends a broken rule that is no rule on slots of the style sheet.
fn mend_part(
    alloc: Global,
    file: &[u8],
    mended: &mut MendedFile,
    rule: u8,
    offset: u32,
) -> Result<Option<FileMend>, Memory>
    requires { ¬ IsSheetRule rule }
    ensures { IfOk result (λ mend. MatchOption mend
        (StaysUnmended file.now rule offset mended.old mended.new)
        (IsMendedBy file.now rule offset mended.old mended.new)) }
{
    let found = part_place(alloc, mended.bytes(file), rule, offset)?;
    let Some(place) = found else {
        return Ok(None);
    };
    let mend = mended.empty(alloc, file, place)?;
    Ok(Some(mend))
}

/// Mends a broken rule on slots of the style sheet.
fn mend_sheet(
    alloc: Global,
    file: &[u8],
    mended: &mut MendedFile,
    rule: u8,
    offset: u32,
) -> Result<Option<FileMend>, Memory>
    requires { IsSheetRule rule }
    ensures { IfOk result (λ mend. MatchOption mend
        (StaysUnmended file.now rule offset mended.old mended.new)
        (IsMendedBy file.now rule offset mended.old mended.new)) }
{
    let found = mended_sheet(alloc, mended.bytes(file), rule, offset)?;
    let Some(made) = found else {
        return Ok(None);
    };
    let mend = made.mend;
    mended.renew(made.copy, mend)?;
    Ok(Some(mend))
}

/// Puts zeros over the bytes of a range. All others stay.
fn put_zeros(bytes: &mut [u8], at: usize, count: usize)
    requires { at + count ≤ length bytes.old }
    ensures { bytes.new ≡ zeroed at count bytes.old }
{
    bytes[at..at + count].fill(0);
}
