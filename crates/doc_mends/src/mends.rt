// Mends by name, and what they made of a document.
use doc_bits::Story;
use doc_columns::ColumnDocument;
use text_losses::Reference;

/// A range of a text, from the first item to before the second number, that a reviser deleted.
#[derive(Clone, Copy)]
pub struct DeletedRange {
    pub story: Story,
    pub from: usize,
    pub to: usize,
}

/// The mark of a paragraph by the number of its item, and the number of its style, which is no style of paragraphs.
#[derive(Clone, Copy)]
pub struct WrongMark {
    pub story: Story,
    pub at: usize,
    pub istd: u16,
}

/// The mark of a row of a table by the number of its item.
#[derive(Clone, Copy)]
pub struct RowMark {
    pub story: Story,
    pub at: usize,
}

/// A row of a table that breaks rule 63: its first item, how many items it has up to where it breaks the rule, and how
/// many of them end cells.
#[derive(Clone, Copy)]
pub struct BrokenRow {
    pub story: Story,
    pub from: usize,
    pub len: usize,
    pub cells: usize,
}

/// A story whose texts become notes.
#[derive(Clone, Copy)]
pub enum NoteStory {
    Endnotes,
    Comments,
}

/// An endnote or a comment by its number, and the note that it became.
#[derive(Clone, Copy)]
pub struct MadeNote {
    pub story: NoteStory,
    pub number: usize,
    pub note: usize,
}

/// A change of a document that is named.
#[derive(Clone, Copy)]
pub enum Mend {
    /// The endnote or the comment became a note.
    MakeNote(MadeNote),
    /// The items of a range that a reviser deleted are struck through.
    StrikeDeleted(DeletedRange),
    /// A range that a reviser deleted stays as it is: the properties of one of its items would be too long.
    KeepDeleted(DeletedRange),
    /// The mark of a row has the cells that the stream Data has for it.
    DefineRow(RowMark),
    /// The style of this number has no base any more.
    DropBase(u16),
    /// The mark has style 0.
    NormalMark(WrongMark),
    /// The row became paragraphs.
    PlainRow(BrokenRow),
    /// The mark of a story that is left out is cut.
    CutReference(Reference),
    /// The text ends with the end of a paragraph.
    EndText(Story),
}

/// A document after mends, the mends, and the ranges that a reviser deleted and that stay as they are.
#[derive(Drop)]
pub struct Mended {
    pub document: ColumnDocument,
    pub mends: Vec<Mend>,
    pub kept: Vec<DeletedRange>,
}
