//! The sectors of compound files of version 3: the header, the FAT, the tables, the chains that go by them, and who has
//! which sector.
#![tactic(auto)]

mod chain;
mod claims;
mod ends;
mod fat;
mod faults;
mod front;
mod header;
mod marks;
mod opening;
mod stream;
mod table;

pub use chain::{Chain, Claim, ENDOFCHAIN, Walked};
pub use claims::Claims;
pub use fat::{FAT_COUNT, FAT_SECTORS, TABLE_LEN, read_table, table_place};
pub use faults::{BrokenRule, CfbFault, refuse, whole};
pub use front::{check_header, read_fat};
pub use header::{CUTOFF, DIRECTORY_START, MINI_FAT_COUNT, MINI_FAT_START};
pub use opening::{MAX_LEN, MINI_SECTOR_LEN, SECTOR_LEN, SIGNATURE, check_opening};
pub use stream::{join, read_sectors};
pub use table::Table;
