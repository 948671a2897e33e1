// Offsets and numbers of the FIB by the standard's names.

/// The size of the early form in bytes.
pub const EARLY_SIZE: usize = 900;

/// The size of the later form in bytes.
pub const LATER_SIZE: usize = 1024;

/// cbRgFcLcb of the early form.
pub const EARLY_PAIRS: u16 = 0x5D;

/// cbRgFcLcb of the later form.
pub const LATER_PAIRS: u16 = 0x6C;

/// The number of pairs that are kept.
pub const PAIR_COUNT: usize = 93;

// [MS-DOC] FibBase
pub const W_IDENT: usize = 0;

pub const N_FIB: usize = 2;

pub const LID: usize = 6;

pub const FLAGS: usize = 10;

pub const N_FIB_BACK: usize = 12;

// [MS-DOC] csw, FibRgW97, cslw, FibRgLw97
pub const CSW: usize = 32;

pub const LID_FE: usize = 60;

pub const CSLW: usize = 62;

pub const CB_MAC: usize = 64;

pub const CCP_TEXT: usize = 76;

pub const CCP_FTN: usize = 80;

pub const CCP_HDD: usize = 84;

pub const CCP_ATN: usize = 92;

// [MS-DOC] cbRgFcLcb, FibRgFcLcb97, cswNew
pub const CB_RG_FC_LCB: usize = 152;

pub const RG_FC_LCB: usize = 154;

pub const CSW_NEW: usize = 898;

// The later form's cswNew, nFibNew and cQuickSavesNew
pub const LATER_CSW_NEW: usize = 1018;

pub const N_FIB_NEW: usize = 1020;

pub const C_QUICK_SAVES_NEW: usize = 1022;

pub const IDENT: u16 = 0xA5EC;

pub const NFIB_WORD97: u16 = 0x00C1;

pub const CSW_WORD97: u16 = 14;

pub const CSLW_WORD97: u16 = 22;

pub const CSW_NEW_WORD97: u16 = 0;

pub const CSW_NEW_WORD2000: u16 = 2;

pub const NFIB_WORD2000: u16 = 0x00D9;

// The bits of the flags, counted from the lowest
pub const F_DOT: u32 = 0;

pub const F_GLSY: u32 = 1;

pub const F_COMPLEX: u32 = 2;

pub const C_QUICK_SAVES: u32 = 4;

pub const F_ENCRYPTED: u32 = 8;

pub const F_WHICH_TBL_STM: u32 = 9;

pub const F_READ_ONLY_RECOMMENDED: u32 = 10;

pub const F_EXT_CHAR: u32 = 12;

pub const F_FAR_EAST: u32 = 14;

pub const F_OBFUSCATED: u32 = 15;

/// The most quick saves in a row.
pub const MAX_QUICK_SAVES: u8 = 15;

/// The most characters of the main text, the notes and the header texts together.
pub const MAX_CCP: u64 = 500_000;

// Pairs of parts that must be empty
pub const PLC_SPA_MOM: usize = 40;

pub const PLC_SPA_HDR: usize = 41;

pub const PLCFEND_REF: usize = 46;

/// The bytes of a Plc without an entry.
pub const MAX_PLC: u32 = 4;
