// What differs between the pages of character runs and those of paragraph runs.
ghost use Rattle.std.specs.Prelude.{◌≡◌};
ghost use Rattle.fkp_pages.specs.Fkp.{run_entry_size, most_runs, least_list};

/// The bytes of a page.
pub const PAGE_LEN: usize = 512;

/// The place of crun or cpara, the last byte of a page.
pub const COUNT_AT: usize = 511;

/// The number of the first page that does not lie over the FIB.
pub const FIRST_PAGE: usize = 2;

/// The two kinds of formatted disk page: ChpxFkp for characters, PapxFkp for paragraphs.
#[derive(Clone, Copy)]
pub enum PageKind {
    Chpx,
    Papx,
}

/// What a page answers at a byte place. Offsets are those in the page.
#[derive(Clone, Copy, PartialEq, Eq)]
pub enum RunAnswer {
    /// The range of the property list; of a paragraph's style number and list.
    Found { from: usize, to: usize },
    /// The run has no properties; a paragraph's style is 0.
    Empty,
    /// No run holds the place.
    NoRun,
    /// The last byte is no number of runs.
    BadCount,
    /// The list leaves the page, or has no room for a style number.
    Leaves { entry: usize },
}

impl PageKind {
    /// The bytes of an entry: a BX of a paragraph has 12 more.
    pub(crate) fn entry_size(self) -> usize
        ensures { result ≡ run_entry_size self }
    {
        match self {
            PageKind::Chpx => 1,
            PageKind::Papx => 13,
        }
    }

    /// The greatest number of runs of a page.
    pub(crate) fn most_runs(self) -> usize
        ensures { result ≡ most_runs self }
    {
        match self {
            PageKind::Chpx => 101,
            PageKind::Papx => 29,
        }
    }

    /// The fewest bytes of a list that is written: a paragraph's begins with a style number.
    pub fn least_list(self) -> usize
        ensures { result ≡ least_list self }
    {
        match self {
            PageKind::Chpx => 0,
            PageKind::Papx => 2,
        }
    }
}
