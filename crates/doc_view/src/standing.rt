// Where a paragraph is.
ghost use Rattle.std.specs.Prelude.{◌≡◌, ◌==◌, ◌&&◌, if◌then◌else◌};
ghost use Rattle.plain_doc.specs.Rows.{is_byte_one, mark_value_in};
ghost use Rattle.text_codes.specs.Paragraph.{cell_mark};
ghost use Rattle.doc_view.specs.Layout.{closes_cell, ends_head, is_in_table, row_goes_on};
ghost use Rattle.doc_view.specs.Seen.{standing_of, style_of};
ghost use Rattle.doc_view.specs.declared.standing.Standing.TheVariants.{HeadRow, Row};

use plain_doc::{Mark, value_at};
use sprm_table::Code;
use text_codes::CELL_MARK;

/// [MS-DOC] sprmPFInTable, sprmPFTtp and sprmTTableHeader.
const IN_TABLE: Code = Code(0x2416);

const ENDS_ROW: Code = Code(0x2417);

const IS_HEAD: Code = Code(0x3404);

/// Where a paragraph is: outside of tables, inside of a cell, at the end of one, at the end of a row, or at that of
/// one of the rows that head a table.
#[derive(Clone, Copy, PartialEq, Eq)]
pub enum Standing {
    Outside,
    Inside,
    Cell,
    Row,
    HeadRow,
}

impl Standing {
    /// That of the paragraph whose last unit and mark these are.
    pub fn of(unit: u16, mark: &Option<Mark>) -> Standing
        ensures { result ≡ standing_of unit mark.now }
    {
        if unit == CELL_MARK {
            if is_set(mark, ENDS_ROW) {
                row_of(is_set(mark, IS_HEAD))
            } else {
                Standing::Cell
            }
        } else if is_set(mark, IN_TABLE) {
            Standing::Inside
        } else {
            Standing::Outside
        }
    }

    pub fn is_in_table(self) -> bool
        ensures { result ≡ is_in_table self }
    {
        match self {
            Standing::Outside => false,
            Standing::Inside | Standing::Cell | Standing::Row | Standing::HeadRow => true,
        }
    }

    /// Whether its row goes on behind it.
    pub fn keeps_row(self) -> bool
        ensures { result ≡ row_goes_on self }
    {
        match self {
            Standing::Outside | Standing::Row | Standing::HeadRow => false,
            Standing::Inside | Standing::Cell => true,
        }
    }

    /// Whether a row ends with it that is a head.
    pub fn ends_head(self) -> bool
        ensures { result ≡ ends_head self }
    {
        match self {
            Standing::HeadRow => true,
            Standing::Outside | Standing::Inside | Standing::Cell | Standing::Row => false,
        }
    }

    /// Whether its cell ends.
    pub fn ends_cell(self) -> bool
        ensures { result ≡ closes_cell self }
    {
        match self {
            Standing::Cell => true,
            Standing::Outside | Standing::Inside | Standing::Row | Standing::HeadRow => false,
        }
    }
}

/// The end of a row that is a head or not.
fn row_of(is_head: bool) -> Standing
    ensures { result ≡ (if is_head then HeadRow else Row) }
{
    if is_head {
        Standing::HeadRow
    } else {
        Standing::Row
    }
}

/// Whether a unit with this mark ends a row.
pub fn is_row_mark(unit: u16, mark: &Option<Mark>) -> bool
    ensures { result ≡ (unit == cell_mark && is_byte_one (mark_value_in mark.now 0x2417)) }
{
    unit == CELL_MARK && is_set(mark, ENDS_ROW)
}

/// Whether a mark has the byte 01 at a code.
fn is_set(mark: &Option<Mark>, code: Code) -> bool
    ensures { result ≡ is_byte_one (mark_value_in mark.now code.0) }
{
    match value_at(mark, code) {
        None => false,
        Some(value) => value.len() == 1 && value[0] == 1,
    }
}

/// The style of a mark, or style 0.
pub fn style_of(mark: &Option<Mark>) -> u16
    ensures { result ≡ style_of mark.now }
{
    match mark {
        None => 0,
        Some(mark) => mark.istd,
    }
}
