// A copy of a file whose style sheet is changed.
ghost use Rattle.std.specs.Prelude.{◌≡◌, List, ℕ, IfOk, MatchOption};
ghost use Rattle.doc_bits.specs.Rules.{Hold};
ghost use Rattle.cfb_streams.specs.Container.{HasContents, outer_rules};
ghost use Rattle.file_mends.specs.declared.mends.FileMend.{FileMend as Mend};
ghost use Rattle.file_mends.specs.Mends.{MendsSheet};
ghost use Rattle.file_mends.specs.SheetChanges.{IsSheetRule};

use crate::mends::FileMend;
use crate::rewriting::rewritten;
use crate::sheet_changes::sheet_change;
use crate::sheet_places::sheet_among;
use cfb_sectors::CfbFault;
use cfb_streams::Container;
use doc_bits::Memory;
use std::alloc::Global;

/// A copy of a file with a mend.
#[derive(Drop)]
pub struct MendedCopy {
    pub mend: FileMend,
    pub copy: Vec<u8>,
}

/// The copy of a file in which the slot of the style sheet is mended that breaks a rule at an offset of the table stream.
pub(crate) fn mended_sheet(
    alloc: Global,
    file: &[u8],
    rule: u8,
    offset: u32,
) -> Result<Option<MendedCopy>, Memory>
    requires { IsSheetRule rule }
    ensures { IfOk result (λ found. MatchOption found
        ((mend : Mend) (mended : List ℕ) → ¬ MendsSheet file.now rule offset mend mended)
        (λ made. MendsSheet file.now rule offset made.mend made.copy.items)) }
{
    match Container::load_outer(alloc, file) {
        Ok(outer) => {
            let found = mended_by(alloc, outer.container(), file, rule, offset);
            drop(outer);
            found
        }
        Err(CfbFault::Rule { .. }) => Ok(None),
        Err(CfbFault::Memory) => Err(Memory),
    }
}

/// The copy with the sheet that keeps a rule, if one does, made by the streams of the file.
fn mended_by(
    alloc: Global,
    container: &Container,
    file: &[u8],
    rule: u8,
    offset: u32,
) -> Result<Option<MendedCopy>, Memory>
    requires rule { IsSheetRule rule }
    requires hold { Hold (outer_rules file.now) }
    requires has { HasContents file.now container.now }
    ensures { IfOk result (λ found. MatchOption found
        ((mend : Mend) (mended : List ℕ) → ¬ MendsSheet file.now rule offset mend mended)
        (λ made. MendsSheet file.now rule offset made.mend made.copy.items)) }
{
    let Some(sheet) = sheet_among(container) else {
        return Ok(None);
    };
    let change = sheet_change(alloc, &sheet, rule, offset)?;
    let Some(change) = change else {
        return Ok(None);
    };
    let copy = rewritten(
        alloc,
        file,
        sheet.sectors,
        change.at,
        change.bytes.as_slice(),
    )?;
    Ok(Some(MendedCopy {
        mend: change.mend,
        copy,
    }))
}
