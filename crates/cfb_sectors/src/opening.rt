// Rules 1 and 2: the length of the file and its signature.
ghost use Rattle.cfb_sectors.specs.Opening.{opening_rules};
ghost use Rattle.cfb_sectors.specs.Judged.{FirstOrNone};

use crate::faults::BrokenRule;

/// The bytes that a compound file begins with.
pub const SIGNATURE: [u8; 8] = [0xD0, 0xCF, 0x11, 0xE0, 0xA1, 0xB1, 0x1A, 0xE1];

/// The length of a sector, and of the header.
pub const SECTOR_LEN: usize = 512;

/// The length of a mini sector.
pub const MINI_SECTOR_LEN: usize = 64;

/// The least length of a file: the header and two sectors.
const MIN_LEN: usize = 1_536;

/// The greatest length of a file: the header and 13,952 sectors.
pub const MAX_LEN: usize = 7_143_936;

const RULE_LENGTH: u8 = 1;

const RULE_SIGNATURE: u8 = 2;

/// Checks the rules 1 and 2.
pub fn check_opening(file: &[u8]) -> Option<BrokenRule>
    ensures { FirstOrNone (opening_rules file.now) result }
{
    if file.len() % SECTOR_LEN != 0 || file.len() < MIN_LEN || file.len() > MAX_LEN {
        let offset = file.len().min(MAX_LEN + 1) as u32;
        return Some(BrokenRule {
            rule: RULE_LENGTH,
            offset,
        });
    }
    if &file[..8] != SIGNATURE.as_slice() {
        return Some(BrokenRule {
            rule: RULE_SIGNATURE,
            offset: 0,
        });
    }
    None
}
