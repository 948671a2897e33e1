//! Sprms: their codes, groups, classes and operands, and the lists that they are in.
#![tactic(auto)]

mod classes;
mod codes;
mod faults;
mod laws;
mod lists;
mod operands;
mod prms;
mod sprms;

pub use classes::{class, group, held, is_refused};
pub use codes::{Class, Code};
pub use faults::SprmFault;
pub use laws::{first_fault_is_one, sprm_list_is_one};
pub use lists::{SprmIter, list_fault};
pub use operands::{OperandSize, operand, operand_size};
pub use prms::prm_code;
pub use sprms::{
    SPRM_C_F_BOLD, SPRM_C_F_SPEC, SPRM_C_ISS, SPRM_C_ISTD, SPRM_C_PLAIN, SPRM_C_SYMBOL,
    SPRM_P_CHG_TABS_PAPX, SPRM_P_F_BI_DI, SPRM_P_F_IN_TABLE, SPRM_P_F_PAGE_BREAK_BEFORE,
    SPRM_P_F_TTP, SPRM_P_ILFO, SPRM_P_ILVL, SPRM_P_ISTD, SPRM_P_OUT_LVL, SPRM_T_DEF_TABLE,
    TABLE_GROUP,
};
