// What style numbers become in a joined document.
ghost use Rattle.std.specs.Prelude.{◌≡◌, ◌+◌, ◌<◌, ◌≤◌};
ghost use Rattle.doc_join.specs.Numbers.{renumbered_style, base_behind, renumbered_next};

use crate::renumbering::Renumbering;

/// Names no style.
const NO_STYLE: u16 = 0xFFFF;

impl Renumbering {
    /// The style that a character names. One beyond the sheet names none.
    pub(crate) fn style(&self, istd: u16) -> u16
        requires { self.now.before + self.now.slots ≤ 4094 }
        ensures { result ≡ renumbered_style self.now istd }
    {
        if istd < self.slots {
            istd + self.before
        } else {
            NO_STYLE
        }
    }

    /// The base of a style. One beyond the sheet is none.
    pub(crate) fn base(&self, base: Option<u16>) -> Option<u16>
        requires { self.now.before + self.now.slots ≤ 4094 }
        ensures { result ≡ base_behind self.now base }
    {
        match base {
            None => None,
            Some(base) => {
                if base < self.slots {
                    Some(base + self.before)
                } else {
                    None
                }
            }
        }
    }

    /// The style of the paragraph after one of the style `istd`. One beyond the sheet is the style itself.
    pub(crate) fn next(&self, istd: u16, next: u16) -> u16
        requires few { self.now.before + self.now.slots ≤ 4094 }
        requires within { istd < self.now.slots }
        ensures { result ≡ renumbered_next self.now istd next }
    {
        if next < self.slots {
            next + self.before
        } else {
            istd + self.before
        }
    }
}
