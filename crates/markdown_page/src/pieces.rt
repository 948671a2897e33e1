// What a page writes where elements are opened and closed, and for what is no character.
ghost use Rattle.std.specs.Prelude.{◌≡◌};
ghost use Rattle.markdown_page.specs.Contexts.{column_limit};
ghost use Rattle.markdown_page.specs.Pieces.{block_end, break, cell_front, closing, comment, emphasis, piece_if};
ghost use Rattle.markdown_page.specs.Pieces.{indent};
ghost use Rattle.markdown_page.specs.Pieces.{is_start, item_front, none, number_pieces, one, opening, other_pieces};
ghost use Rattle.markdown_page.specs.Pieces.{paragraph_end, paragraph_front, row_end, three, two};

use crate::context::{CellLine, Context, MAX_COLUMNS, Seam};
use crate::marks::{Mark, TagName, heading_mark};
use markdown_text::LineState;
use view_places::{Element, Glyph};

/// A piece of a page.
#[derive(Clone, Copy)]
pub enum Piece {
    Nothing,
    Write(Mark),
    Insert(TagName),
    /// A space or a tab of the text.
    Space,
    Tab,
    /// A number, as markup.
    Number(usize),
    /// What is before an item in so many others.
    Levels(usize),
    /// The line below the heads of so many columns.
    Rule(usize),
    /// What represents a picture.
    Picture,
    /// What represents an object.
    Object,
}

/// Pieces one behind the other.
#[derive(Clone, Copy)]
pub struct Pieces {
    pub first: Piece,
    pub second: Piece,
    pub third: Piece,
}

impl Pieces {
    fn none() -> Pieces
        ensures { result ≡ none }
    {
        Pieces::one(Piece::Nothing)
    }

    fn one(piece: Piece) -> Pieces
        ensures { result ≡ one piece }
    {
        Pieces::two(piece, Piece::Nothing)
    }

    fn two(first: Piece, second: Piece) -> Pieces
        ensures { result ≡ two first second }
    {
        Pieces {
            first,
            second,
            third: Piece::Nothing,
        }
    }

    /// A number behind the front of a note, and an end.
    fn numbered(number: usize, end: Mark) -> Pieces
        ensures { result ≡ number_pieces number end }
    {
        Pieces {
            first: Piece::Write(Mark::NoteFront),
            second: Piece::Number(number),
            third: Piece::Write(end),
        }
    }
}

/// A piece where it is to be there.
pub(crate) fn if_given(there: bool, piece: Piece) -> Piece
    ensures { result ≡ piece_if there piece }
{
    if there { piece } else { Piece::Nothing }
}

/// The start of an element.
pub(crate) fn opening(context: &Context, element: Element) -> Pieces
    ensures { result ≡ opening context.now element }
{
    match element {
        Element::Note(number) => Pieces::numbered(number, Mark::NoteEnd),
        Element::Row(_) => Pieces::one(indent(context)),
        Element::Cell(_) | Element::HeadCell(_) => Pieces::one(cell_front(context)),
        Element::Item(_) => item_front(context),
        Element::Paragraph(paragraph) => paragraph_front(context, paragraph.level),
        Element::Bold => emphasis(context, Mark::Strong),
        Element::Italic => emphasis(context, Mark::Emphasis),
        Element::Strike => emphasis(context, Mark::Strike),
        Element::Underline => Pieces::one(Piece::Insert(TagName::Underline)),
        Element::Raised => Pieces::one(Piece::Insert(TagName::Raised)),
        Element::Lowered => Pieces::one(Piece::Insert(TagName::Lowered)),
        Element::Notes
        | Element::Table(_)
        | Element::TableHead
        | Element::TableBody
        | Element::NestedTable(_)
        | Element::NestedRow(_)
        | Element::NestedCell(_)
        | Element::List(_)
        | Element::Label
        | Element::Reference(_)
        | Element::BackLink(_)
        | Element::Link(_)
        | Element::Anchor(_)
        | Element::SmallCaps
        | Element::Caps => Pieces::none(),
    }
}

/// What is before a line of a note that has no marker.
fn indent(context: &Context) -> Piece
    ensures { result ≡ indent context.now }
{
    if_given(
        context.in_note,
        if_given(!context.begun, Piece::Write(Mark::Indent)),
    )
}

/// The start of an item.
fn item_front(context: &Context) -> Pieces
    ensures { result ≡ item_front context.now }
{
    Pieces {
        first: indent(context),
        second: if_given(!context.begun, Piece::Levels(context.levels)),
        third: Piece::Write(Mark::Item),
    }
}

/// What parts an emphasis from a word that it begins in, and from another one right before it.
fn comment(seam: Seam) -> Piece
    ensures { result ≡ comment seam }
{
    match seam {
        Seam::Word | Seam::Closed => Piece::Insert(TagName::Comment),
        Seam::Other => Piece::Nothing,
    }
}

/// The start of an emphasis.
fn emphasis(context: &Context, mark: Mark) -> Pieces
    ensures { result ≡ emphasis context.now mark }
{
    Pieces::two(comment(context.seam), Piece::Write(mark))
}

/// The start of a cell.
fn cell_front(context: &Context) -> Piece
    ensures { result ≡ cell_front context.now }
{
    if context.cells == 0 {
        Piece::Write(Mark::FirstCell)
    } else if context.cells < column_limit(context) {
        Piece::Write(Mark::NextCell)
    } else {
        Piece::Insert(TagName::LineBreak)
    }
}

/// How many cells of a row are columns.
fn column_limit(context: &Context) -> usize
    ensures { result ≡ column_limit context.now }
{
    if context.columns == 0 {
        MAX_COLUMNS
    } else {
        context.columns
    }
}

/// The start of a paragraph, or of a heading.
fn paragraph_front(context: &Context, level: u8) -> Pieces
    ensures { result ≡ paragraph_front context.now.cell context.now level }
{
    match context.cell {
        CellLine::Outside => Pieces::two(
            indent(context),
            if_given(level != 0, Piece::Write(heading_mark(level))),
        ),
        CellLine::First => Pieces::none(),
        CellLine::Next => Pieces::one(Piece::Insert(TagName::LineBreak)),
    }
}

/// The end of an element.
pub(crate) fn closing(line: LineState, context: &Context, element: Element) -> Pieces
    ensures { result ≡ closing line context.now element }
{
    match element {
        Element::Note(_) | Element::Item(_) => block_end(context.begun),
        Element::Table(_) => Pieces::one(Piece::Write(Mark::LineEnd)),
        Element::Row(_) => row_end(context),
        Element::Paragraph(_) => paragraph_end(context, line),
        Element::Reference(number) => Pieces::numbered(number, Mark::ReferenceEnd),
        Element::Bold => Pieces::one(Piece::Write(Mark::Strong)),
        Element::Italic => Pieces::one(Piece::Write(Mark::Emphasis)),
        Element::Strike => Pieces::one(Piece::Write(Mark::Strike)),
        Element::Underline => Pieces::one(Piece::Insert(TagName::UnderlineEnd)),
        Element::Raised => Pieces::one(Piece::Insert(TagName::RaisedEnd)),
        Element::Lowered => Pieces::one(Piece::Insert(TagName::LoweredEnd)),
        Element::Notes
        | Element::TableHead
        | Element::TableBody
        | Element::Cell(_)
        | Element::HeadCell(_)
        | Element::NestedTable(_)
        | Element::NestedRow(_)
        | Element::NestedCell(_)
        | Element::List(_)
        | Element::Label
        | Element::BackLink(_)
        | Element::Link(_)
        | Element::Anchor(_)
        | Element::SmallCaps
        | Element::Caps => Pieces::none(),
    }
}

/// The end of a row, and below the first one the columns of the table.
fn row_end(context: &Context) -> Pieces
    ensures { result ≡ row_end context.now }
{
    if context.columns == 0 {
        Pieces {
            first: Piece::Write(Mark::RowEnd),
            second: if_given(context.in_note, Piece::Write(Mark::Indent)),
            third: Piece::Rule(context.cells),
        }
    } else {
        Pieces::one(Piece::Write(Mark::RowEnd))
    }
}

/// The end of a line that has begun, and an empty line.
fn block_end(begun: bool) -> Pieces
    ensures { result ≡ block_end begun }
{
    Pieces::one(if_given(begun, Piece::Write(Mark::BlockEnd)))
}

/// The end of a paragraph, behind a space where its line has a marker alone.
fn paragraph_end(context: &Context, line: LineState) -> Pieces
    ensures { result ≡ paragraph_end context.now.cell line context.now }
{
    match context.cell {
        CellLine::Outside => Pieces::two(
            if_given(context.begun && is_start(line), Piece::Space),
            if_given(
                context.begun || context.in_note || !is_start(line),
                Piece::Write(Mark::BlockEnd),
            ),
        ),
        CellLine::First | CellLine::Next => Pieces::none(),
    }
}

/// Whether nothing of a line is written.
fn is_start(line: LineState) -> bool
    ensures { result ≡ is_start line }
{
    match line {
        LineState::Start => true,
        LineState::Digits | LineState::Within | LineState::Bracket | LineState::Colon => false,
    }
}

/// A glyph that is no unit.
pub(crate) fn other_pieces(line: LineState, glyph: Glyph) -> Pieces
    ensures { result ≡ other_pieces line glyph }
{
    match glyph {
        Glyph::Tab => Pieces::one(Piece::Tab),
        Glyph::LineBreak | Glyph::PageBreak => line_break(line),
        Glyph::Picture(_) => Pieces::one(Piece::Picture),
        Glyph::Object => Pieces::one(Piece::Object),
        Glyph::Unit(_) | Glyph::NoteMark(_) => Pieces::none(),
    }
}

/// The break of a line.
fn line_break(line: LineState) -> Pieces
    ensures { result ≡ break line }
{
    Pieces::two(
        if_given(is_start(line), Piece::Space),
        Piece::Insert(TagName::LineBreak),
    )
}
