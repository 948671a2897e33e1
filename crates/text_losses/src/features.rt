// What a file has by its lists, its text and its style sheet.
ghost use Rattle.std.specs.Prelude.{◌≡◌};
ghost use Rattle.text_losses.specs.Features.{groups_of, is_kept_code};

use doc_bits::{Story, Units};
use fib_versions::Further;
use prop_map::{CHARACTER_GROUPS, PARAGRAPH_GROUPS, PRC_GROUPS, SECTION_GROUPS};
use sprm_table::{Class, Code, class, held};

/// Whose sprms a list has: characters' or paragraphs' of a page or of a style, a piece's, or a section's.
#[derive(Clone, Copy)]
pub enum ListKind {
    Chpx,
    Papx,
    StyleChpx,
    StylePapx,
    Prc,
    Sepx,
}

/// The mark of a story that is left out, in a text that stays: how many items are before it.
#[derive(Clone, Copy)]
pub struct Reference {
    pub to: Further,
    pub story: Story,
    pub at: usize,
}

/// What a file has beside what this profile has a meaning for. CPs are those of the text that they are of.
#[derive(Drop)]
pub enum TextFeature {
    /// A code that does nothing, and how many lists have it.
    Skipped {
        kind: ListKind,
        code: u16,
        count: u64,
    },
    /// A code of which the last one of a list counts, and how many lists have it again.
    Repeated {
        kind: ListKind,
        code: u16,
        count: u64,
    },
    /// Text that a reviser deleted.
    Deleted {
        story: Story,
        from: u32,
        to: u32,
    },
    /// A bookmark that does not end in the main text, or not behind its begin.
    Bookmark {
        name: Units,
        from: u32,
        to: u32,
    },
    /// Bytes of the style sheet that are not read.
    SheetBeyond {
        len: u64,
    },
}

impl ListKind {
    /// The groups that the place of such a list holds.
    pub fn groups(self) -> u8
        ensures { result ≡ groups_of self }
    {
        match self {
            ListKind::Chpx | ListKind::StyleChpx => CHARACTER_GROUPS,
            ListKind::Papx | ListKind::StylePapx => PARAGRAPH_GROUPS,
            ListKind::Prc => PRC_GROUPS,
            ListKind::Sepx => SECTION_GROUPS,
        }
    }

    /// Whether this profile has a meaning for a code in such a list.
    pub fn keeps(self, code: Code) -> bool
        ensures { result ≡ is_kept_code self code.0 }
    {
        match class(code) {
            Class::Refused => false,
            _ => held(self.groups(), code),
        }
    }
}
