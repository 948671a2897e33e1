// What is checked by the header alone: the rules 3 to 5. And the FAT.
ghost use Rattle.std.specs.Prelude.{◌≡◌, ◌≤◌, IfOk, length};
ghost use Rattle.doc_bits.specs.Rules.{Nowhere};
ghost use Rattle.cfb_sectors.specs.Header.{sector_len};
ghost use Rattle.cfb_sectors.specs.Opening.{HasRightLength};
ghost use Rattle.cfb_sectors.specs.HeaderRules.{header_rules, BreaksFat};
ghost use Rattle.cfb_sectors.specs.Judged.{FirstOrNone};
ghost use Rattle.cfb_sectors.specs.Tables.{fat_place};

use crate::fat::{read_fat_sectors, valid_sectors, wrong_fat};
use crate::faults::BrokenRule;
use crate::header::{wrong_difat, wrong_header};
use crate::table::Table;
use doc_bits::Memory;
use std::alloc::Global;

const RULE_HEADER: u8 = 3;

const RULE_DIFAT: u8 = 4;

const RULE_FAT: u8 = 5;

/// Checks the rules 3 to 5.
pub fn check_header(file: &[u8]) -> Option<BrokenRule>
    requires { sector_len ≤ length file.now }
    ensures { FirstOrNone (header_rules file.now) result }
{
    if let Some(offset) = wrong_header(file) {
        return Some(BrokenRule {
            rule: RULE_HEADER,
            offset,
        });
    }
    if let Some(offset) = wrong_difat(file) {
        return Some(BrokenRule {
            rule: RULE_DIFAT,
            offset,
        });
    }
    if let Some(offset) = wrong_fat(file) {
        return Some(BrokenRule {
            rule: RULE_FAT,
            offset,
        });
    }
    None
}

/// The FAT.
pub fn read_fat<'a>(alloc: Global, file: &'a [u8]) -> Result<Table<'a>, Memory>
    requires is_whole { HasRightLength file.now }
    requires is_fat { Nowhere (BreaksFat file.now) }
    ensures { IfOk result (λ fat. fat ≡ fat_place file.now) }
{
    let sectors = read_fat_sectors(alloc, file)?;
    let fat = Table::read(alloc, file, sectors, valid_sectors(file))?;
    Ok(fat)
}
