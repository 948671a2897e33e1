//! The FIB, the file information block that `WordDocument` begins with: read, checked by rules 16 to 24, and written.
#![tactic(auto)]

mod fault;
mod fib;
mod form;
mod laws;
mod offsets;
mod pairs;
mod reading;
mod stories;
mod table_parts;
mod writing;

pub use fault::{FibFault, QuickSavesFull};
pub use fib::{Fib, KeptFib};
pub use form::Form;
pub use laws::{fib_is_read_back, first_fib_fault_is_least};
pub use offsets::{
    CB_RG_FC_LCB, CCP_ATN, CCP_FTN, CCP_HDD, CCP_TEXT, CSLW, CSLW_WORD97, CSW, CSW_WORD97,
    EARLY_SIZE, F_ENCRYPTED, F_GLSY, F_OBFUSCATED, F_WHICH_TBL_STM, FLAGS, IDENT, MAX_CCP,
    MAX_QUICK_SAVES, N_FIB, PAIR_COUNT, RG_FC_LCB, W_IDENT,
};
pub use pairs::Pairs;
pub use reading::{
    RULE_FORM, RULE_GLOSSARY, RULE_HIDDEN, RULE_IDENT, RULE_N_FIB, RULE_SIZE, RULE_TEXT_LENGTH,
    bit_of,
};
pub use stories::StoryKind;
pub use table_parts::TablePart;
