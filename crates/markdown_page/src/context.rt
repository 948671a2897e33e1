// What is before a place of a page, besides the line.
ghost use Rattle.std.specs.Prelude.{◌≡◌, false, None};
ghost use Rattle.markdown_page.specs.Contexts.{cell_closed, cell_opened, character_seam, closed, cut, emphasis_closed};
ghost use Rattle.markdown_page.specs.Contexts.{is_parted, is_word, item_closed, item_opened, line_begun, more_cells};
ghost use Rattle.markdown_page.specs.Contexts.{more_levels, note_closed};
ghost use Rattle.markdown_page.specs.Contexts.{note_opened, opened, paragraph_closed_in, row_closed, row_opened};
ghost use Rattle.markdown_page.specs.Contexts.{table_opened};
ghost use Rattle.markdown_page.specs.Pages.{fresh};

use view_places::Element;

/// What the last character was to an emphasis that begins or ends.
#[derive(Clone, Copy)]
pub enum Seam {
    /// Nothing that a word goes on behind.
    Other,
    /// A character of a word.
    Word,
    /// The end of an emphasis.
    Closed,
}

/// Where a cell is.
#[derive(Clone, Copy)]
pub enum CellLine {
    /// In no cell.
    Outside,
    /// In a cell of which no paragraph ended.
    First,
    /// In a cell behind a paragraph of it.
    Next,
}

/// What is before a place.
#[derive(Clone, Copy)]
pub struct Context {
    /// The first half of a character, which waits for the other one.
    pub half: Option<u16>,
    pub seam: Seam,
    /// A note is open, so that lines are indented.
    pub in_note: bool,
    /// A line has begun with the marker of a note, an item or a heading.
    pub begun: bool,
    /// How many items are open.
    pub levels: usize,
    pub cell: CellLine,
    /// How many cells of the row there were.
    pub cells: usize,
    /// How many columns the table has, by its first row; 0 before its end.
    pub columns: usize,
}

impl Context {
    /// At the start of a page.
    pub(crate) fn new() -> Context
        ensures { result ≡ fresh }
    {
        Context {
            half: None,
            seam: Seam::Other,
            in_note: false,
            begun: false,
            levels: 0,
            cell: CellLine::Outside,
            cells: 0,
            columns: 0,
        }
    }
}

/// The most columns of a table that are distinguished.
pub(crate) const MAX_COLUMNS: usize = 255;

/// The most items, one in another, that are distinguished.
pub(crate) const MAX_LEVELS: usize = 255;

impl Context {
    /// What is written now is no character of a word.
    pub(crate) fn cut(self) -> Context
        ensures { result ≡ cut self }
    {
        Context {
            seam: Seam::Other,
            ..self
        }
    }

    /// Behind the start of an element.
    pub(crate) fn opened(self, element: Element) -> Context
        ensures { result ≡ opened self element }
    {
        match element {
            Element::Note(_) => self.note_opened(),
            Element::Table(_) => self.table_opened(),
            Element::Row(_) => self.row_opened(),
            Element::Cell(_) | Element::HeadCell(_) => self.cell_opened(),
            Element::Item(_) => self.item_opened(),
            Element::Paragraph(paragraph) => self.line_begun(paragraph.level != 0),
            Element::Link(_) | Element::Anchor(_) => self,
            Element::Notes
            | Element::TableHead
            | Element::TableBody
            | Element::NestedTable(_)
            | Element::NestedRow(_)
            | Element::NestedCell(_)
            | Element::List(_)
            | Element::Label
            | Element::Reference(_)
            | Element::BackLink(_)
            | Element::Bold
            | Element::Italic
            | Element::Underline
            | Element::Strike
            | Element::SmallCaps
            | Element::Caps
            | Element::Raised
            | Element::Lowered => self.cut(),
        }
    }

    /// Behind the end of an element.
    pub(crate) fn closed(self, element: Element) -> Context
        ensures { result ≡ closed self element }
    {
        match element {
            Element::Note(_) => self.note_closed(),
            Element::Row(_) => self.row_closed(),
            Element::Cell(_) | Element::HeadCell(_) => self.cell_closed(),
            Element::Item(_) => self.item_closed(),
            Element::Paragraph(_) => self.paragraph_closed(),
            Element::Bold | Element::Italic | Element::Strike => self.emphasis_closed(),
            Element::Link(_) | Element::Anchor(_) => self,
            Element::Notes
            | Element::Table(_)
            | Element::TableHead
            | Element::TableBody
            | Element::NestedTable(_)
            | Element::NestedRow(_)
            | Element::NestedCell(_)
            | Element::List(_)
            | Element::Label
            | Element::Reference(_)
            | Element::BackLink(_)
            | Element::Underline
            | Element::SmallCaps
            | Element::Caps
            | Element::Raised
            | Element::Lowered => self.cut(),
        }
    }

    fn note_opened(self) -> Context
        ensures { result ≡ note_opened self }
    {
        Context {
            seam: Seam::Other,
            in_note: true,
            begun: true,
            ..self
        }
    }

    fn table_opened(self) -> Context
        ensures { result ≡ table_opened self }
    {
        Context {
            seam: Seam::Other,
            columns: 0,
            ..self
        }
    }

    fn row_opened(self) -> Context
        ensures { result ≡ row_opened self }
    {
        Context {
            seam: Seam::Other,
            cells: 0,
            ..self
        }
    }

    fn cell_opened(self) -> Context
        ensures { result ≡ cell_opened self }
    {
        Context {
            seam: Seam::Other,
            cells: more_cells(self.cells),
            cell: CellLine::First,
            ..self
        }
    }

    fn item_opened(self) -> Context
        ensures { result ≡ item_opened self }
    {
        Context {
            seam: Seam::Other,
            begun: true,
            levels: more_levels(self.levels),
            ..self
        }
    }

    /// Where a paragraph begins, with a marker or without one.
    fn line_begun(self, has_marker: bool) -> Context
        ensures { result ≡ line_begun self has_marker }
    {
        Context {
            seam: Seam::Other,
            begun: self.begun || has_marker,
            ..self
        }
    }

    fn note_closed(self) -> Context
        ensures { result ≡ note_closed self }
    {
        Context {
            seam: Seam::Other,
            in_note: false,
            begun: false,
            ..self
        }
    }

    fn row_closed(self) -> Context
        ensures { result ≡ row_closed self }
    {
        Context {
            seam: Seam::Other,
            begun: false,
            columns: if self.columns == 0 {
                self.cells
            } else {
                self.columns
            },
            ..self
        }
    }

    fn cell_closed(self) -> Context
        ensures { result ≡ cell_closed self }
    {
        Context {
            seam: Seam::Other,
            cell: CellLine::Outside,
            ..self
        }
    }

    fn item_closed(self) -> Context
        ensures { result ≡ item_closed self }
    {
        Context {
            seam: Seam::Other,
            begun: false,
            levels: self.levels.saturating_sub(1),
            ..self
        }
    }

    fn paragraph_closed(self) -> Context
        ensures { result ≡ paragraph_closed_in self.cell self }
    {
        match self.cell {
            CellLine::Outside => Context {
                seam: Seam::Other,
                begun: false,
                ..self
            },
            CellLine::First => Context {
                seam: Seam::Other,
                cell: CellLine::Next,
                ..self
            },
            CellLine::Next => self.cut(),
        }
    }

    fn emphasis_closed(self) -> Context
        ensures { result ≡ emphasis_closed self }
    {
        Context {
            seam: Seam::Closed,
            ..self
        }
    }
}

/// One more column, as far as a table has them.
fn more_cells(cells: usize) -> usize
    ensures { result ≡ more_cells cells }
{
    if cells < MAX_COLUMNS {
        cells + 1
    } else {
        cells
    }
}

/// One more item, as far as they are counted.
fn more_levels(levels: usize) -> usize
    ensures { result ≡ more_levels levels }
{
    if levels < MAX_LEVELS {
        levels + 1
    } else {
        levels
    }
}

/// Whether a character is one of a word: a digit, a letter of ASCII, or beyond ASCII.
pub(crate) fn is_word(code: u32) -> bool
    ensures { result ≡ is_word code }
{
    matches!(code, 0x30..=0x39 | 0x41..=0x5A | 0x61..=0x7A) || code >= 0x80
}

/// What a character is to an emphasis behind it.
pub(crate) fn character_seam(code: u32) -> Seam
    ensures { result ≡ character_seam code }
{
    if is_word(code) {
        Seam::Word
    } else {
        Seam::Other
    }
}

impl Seam {
    /// Whether an emphasis ends within the word of a character.
    pub(crate) fn is_parted(self, code: u32) -> bool
        ensures { result ≡ is_parted self code }
    {
        match self {
            Seam::Other => false,
            Seam::Word => false,
            Seam::Closed => is_word(code),
        }
    }
}
