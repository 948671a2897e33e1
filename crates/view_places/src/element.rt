// The elements that the text of a document is in.
ghost use Rattle.std.specs.Prelude.{◌≡◌};
ghost use Rattle.view_places.specs.Same.{cell_code, code_of, numbered_code, cell_reach};

/// Over how many columns and rows of its table a cell reaches.
#[derive(Clone, Copy)]
pub struct Span {
    pub columns: u16,
    pub rows: u16,
}

/// A cell, by its number in its row.
#[derive(Clone, Copy)]
pub struct Cell {
    pub number: usize,
    /// Nothing where the cell is a part of another one.
    pub span: Option<Span>,
}

/// A list, by the number of its first paragraph.
#[derive(Clone, Copy)]
pub struct List {
    pub first: usize,
    /// Whether its items have numbers, and no bullets.
    pub is_ordered: bool,
}

/// A paragraph, by its number in its text.
#[derive(Clone, Copy)]
pub struct Paragraph {
    pub number: usize,
    /// The level of a heading, from 1 to 9; 0 of all others.
    pub level: u8,
    /// It runs from right to left.
    pub right_to_left: bool,
    /// It begins on a page of its own.
    pub breaks_page: bool,
}

/// A hyperlink, by where the instruction of its field is.
#[derive(Clone, Copy)]
pub struct Link {
    /// The number of the note that it is in, from 1; 0 in the main text.
    pub note: usize,
    /// The first place of the instruction, and the one behind it.
    pub begin: usize,
    pub end: usize,
}

/// What text is in.
#[derive(Clone, Copy)]
pub enum Element {
    /// All notes.
    Notes,
    /// The note with this number, from 1.
    Note(usize),
    /// A table, by the number of its first paragraph.
    Table(usize),
    TableHead,
    TableBody,
    /// A row, by the number of its first paragraph.
    Row(usize),
    Cell(Cell),
    /// A cell of a row that is the head of its table.
    HeadCell(Cell),
    /// A table inside of a cell, by the number of its first paragraph.
    NestedTable(usize),
    /// A row of it, by the number of its first paragraph.
    NestedRow(usize),
    /// A cell of it, by its number in its row.
    NestedCell(usize),
    List(List),
    /// An item of a list, by the number of its paragraph.
    Item(usize),
    Paragraph(Paragraph),
    /// The number of a paragraph in a list.
    Label,
    /// Where the note with this number is referred to.
    Reference(usize),
    /// The way back from the note with this number.
    BackLink(usize),
    Link(Link),
    /// Where the bookmark with this number, from 0, begins.
    Anchor(usize),
    Bold,
    Italic,
    Underline,
    Strike,
    SmallCaps,
    Caps,
    /// A superscript.
    Raised,
    /// A subscript.
    Lowered,
}

/// An element by numbers.
#[derive(Clone, Copy)]
pub(crate) struct Code {
    pub(crate) kind: u8,
    pub(crate) number: usize,
    pub(crate) begin: usize,
    pub(crate) end: usize,
    pub(crate) level: u8,
    pub(crate) one: bool,
    pub(crate) other: bool,
}

impl Code {
    /// That of an element with a number.
    fn of(kind: u8, number: usize) -> Code
        ensures { result ≡ numbered_code kind number }
    {
        Code {
            kind,
            number,
            begin: 0,
            end: 0,
            level: 0,
            one: false,
            other: false,
        }
    }

    /// That of a cell.
    fn of_cell(kind: u8, cell: Cell) -> Code
        ensures { result ≡ cell_code kind cell }
    {
        let reach = reached(cell.span);
        Code {
            kind,
            number: cell.number,
            begin: reach.columns as usize,
            end: reach.rows as usize,
            level: 0,
            one: cell.span.is_some(),
            other: false,
        }
    }
}

/// How far a cell reaches, or nothing.
fn reached(span: Option<Span>) -> Span
    ensures { result ≡ cell_reach span }
{
    match span {
        None => Span {
            columns: 0,
            rows: 0,
        },
        Some(span) => span,
    }
}

impl Element {
    /// The element by numbers.
    fn code(self) -> Code
        ensures { result ≡ code_of self }
    {
        match self {
            Element::Notes => Code::of(0, 0),
            Element::Note(number) => Code::of(1, number),
            Element::Table(first) => Code::of(2, first),
            Element::TableHead => Code::of(3, 0),
            Element::TableBody => Code::of(4, 0),
            Element::Row(first) => Code::of(5, first),
            Element::Cell(cell) => Code::of_cell(6, cell),
            Element::HeadCell(cell) => Code::of_cell(7, cell),
            Element::List(list) => Code {
                kind: 8,
                number: list.first,
                begin: 0,
                end: 0,
                level: 0,
                one: list.is_ordered,
                other: false,
            },
            Element::Item(number) => Code::of(9, number),
            Element::Paragraph(paragraph) => Code {
                kind: 10,
                number: paragraph.number,
                begin: 0,
                end: 0,
                level: paragraph.level,
                one: paragraph.right_to_left,
                other: paragraph.breaks_page,
            },
            Element::Label => Code::of(11, 0),
            Element::Reference(number) => Code::of(12, number),
            Element::BackLink(number) => Code::of(13, number),
            Element::Bold => Code::of(14, 0),
            Element::Italic => Code::of(15, 0),
            Element::Underline => Code::of(16, 0),
            Element::Strike => Code::of(17, 0),
            Element::SmallCaps => Code::of(18, 0),
            Element::Caps => Code::of(19, 0),
            Element::Raised => Code::of(20, 0),
            Element::Lowered => Code::of(21, 0),
            Element::Link(link) => Code {
                kind: 22,
                number: link.note,
                begin: link.begin,
                end: link.end,
                level: 0,
                one: false,
                other: false,
            },
            Element::Anchor(number) => Code::of(23, number),
            Element::NestedTable(first) => Code::of(24, first),
            Element::NestedRow(first) => Code::of(25, first),
            Element::NestedCell(number) => Code::of(26, number),
        }
    }
}

impl view_paths::Element for Element {
    ghost use Rattle.view_places.specs.Same.{same as same_element};
    ghost use Rattle.view_places.specs.SameLaws.{same_exact};

    ghost same = { same_element };

    fn is_same(self, other: Element) -> bool
        ensures { result ≡ same_element self other }
    {
        let one = self.code();
        let two = other.code();
        one.kind == two.kind
            && one.number == two.number
            && one.begin == two.begin
            && one.end == two.end
            && one.level == two.level
            && one.one == two.one
            && one.other == two.other
    }

    ghost exact = { same_exact };
}
