// The sprms that other crates name.

use crate::Code;

/// [MS-DOC] sprmCFBold.
pub const SPRM_C_F_BOLD: Code = Code(0x0835);

/// [MS-DOC] sprmCFSpec: the unit is special.
pub const SPRM_C_F_SPEC: Code = Code(0x0855);

/// [MS-DOC] sprmCIss.
pub const SPRM_C_ISS: Code = Code(0x2A48);

/// Names the style of a character.
pub const SPRM_C_ISTD: Code = Code(0x4A30);

/// Clears the properties of a character.
pub const SPRM_C_PLAIN: Code = Code(0x2A33);

/// [MS-DOC] sprmCSymbol.
pub const SPRM_C_SYMBOL: Code = Code(0x6A09);

/// Changes the tab stops of a paragraph.
pub const SPRM_P_CHG_TABS_PAPX: Code = Code(0xC60D);

/// The paragraph is written from right to left.
pub const SPRM_P_F_BI_DI: Code = Code(0x2441);

/// The paragraph is in a table.
pub const SPRM_P_F_IN_TABLE: Code = Code(0x2416);

/// A page begins with the paragraph.
pub const SPRM_P_F_PAGE_BREAK_BEFORE: Code = Code(0x2407);

/// The mark ends a row.
pub const SPRM_P_F_TTP: Code = Code(0x2417);

/// Names the use of a list, from 1.
pub const SPRM_P_ILFO: Code = Code(0x460B);

/// The level in the list.
pub const SPRM_P_ILVL: Code = Code(0x260A);

/// Names the style of a paragraph.
pub const SPRM_P_ISTD: Code = Code(0x4600);

/// [MS-DOC] sprmPOutLvl.
pub const SPRM_P_OUT_LVL: Code = Code(0x2640);

/// The cells of a row: their number, and where each ends.
pub const SPRM_T_DEF_TABLE: Code = Code(0xD608);

/// [MS-DOC] sgc of sprms of tables.
pub const TABLE_GROUP: u8 = 5;
