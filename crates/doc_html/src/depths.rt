// How deep the paragraphs of a text are in tables.
ghost use Rattle.std.specs.Prelude.{◌≡◌, Some};
ghost use Rattle.plain_doc.specs.Rows.{is_byte_one, mark_value_in};
ghost use Rattle.doc_places.specs.Cells.{depth_by, depth_of, inner_depth, outer_depth};

use doc_bits::get32;
use doc_view::Standing;
use nested_tables::Depth;
use plain_doc::{Mark, value_at};
use sprm_table::Code;

/// [MS-DOC] sprmPItap, sprmPFInnerTableCell and sprmPFInnerTtp.
const DEPTH: Code = Code(0x6649);

const ENDS_INNER_CELL: Code = Code(0x244B);

const ENDS_INNER_ROW: Code = Code(0x244C);

/// How deep a paragraph is in tables that is so, with this mark, which it has alone or not.
pub(crate) fn depth_by(standing: Standing, mark: &Option<Mark>, is_mark: bool) -> Depth
    ensures { result ≡ depth_by standing mark.now is_mark }
{
    match standing {
        Standing::Inside => inner_depth(mark, is_mark),
        Standing::Outside | Standing::Cell | Standing::Row | Standing::HeadRow => {
            outer_depth(is_mark)
        }
    }
}

/// How deep one is that ends a cell or a row of a table that is in no other one.
fn outer_depth(is_mark: bool) -> Depth
    ensures { result ≡ outer_depth is_mark }
{
    Depth {
        depth: 1,
        ends_cell: false,
        ends_row: false,
        is_mark,
    }
}

/// How deep one with this mark says that it is.
fn inner_depth(mark: &Option<Mark>, is_mark: bool) -> Depth
    ensures { result ≡ inner_depth mark.now is_mark }
{
    Depth {
        depth: depth_of(mark),
        ends_cell: is_set(mark, ENDS_INNER_CELL),
        ends_row: is_set(mark, ENDS_INNER_ROW),
        is_mark,
    }
}

/// How deep a mark says that its paragraph is; 1 where it says nothing.
fn depth_of(mark: &Option<Mark>) -> u32
    ensures { result ≡ depth_of (mark_value_in mark.now 0x6649) }
{
    match value_at(mark, DEPTH) {
        None => 1,
        Some(value) => depth_in(value),
    }
}

/// How deep a value says.
fn depth_in(value: &[u8]) -> u32
    ensures { result ≡ depth_of (Some value.now) }
{
    if value.len() == 4 { get32(value, 0) } else { 1 }
}

/// Whether a mark has the byte 01 at a code.
fn is_set(mark: &Option<Mark>, code: Code) -> bool
    ensures { result ≡ is_byte_one (mark_value_in mark.now code.0) }
{
    match value_at(mark, code) {
        None => false,
        Some(value) => value.len() == 1 && value[0] == 1,
    }
}
