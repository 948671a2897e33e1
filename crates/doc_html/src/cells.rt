// How far the cells of a text reach, and the tables inside of them.
ghost use Rattle.std.specs.Prelude.{◌≡◌, ◌+◌, ◌-◌, ◌∷◌, [], ◌==◌, ◌&&◌, not, option_map, IfOk, OnOk};
ghost use Rattle.doc_columns.specs.Walks.{items_in, AreFullParts};
ghost use Rattle.doc_view.specs.Seen.{standing_of};
ghost use Rattle.doc_places.specs.Cells.{definition_in, tables_by};
ghost use Rattle.doc_places.specs.Places.{table_cells_of, has_label};

use crate::anchors::next_anchor;
use crate::depths::depth_by;
use cell_spans::Tables;
use doc_bits::Memory;
use doc_columns::{Parts, paragraph_end};
use doc_parts::Bookmarks;
use doc_places::TableCells;
use doc_view::Standing;
use list_numbers::{ParagraphValues, ParagraphValuesList};
use nested_tables::{Depths, NestedTables};
use plain_doc::Mark;
use run_lists::{Cursor, seek};
use sprm_table::Code;
use std::alloc::Global;

/// [MS-DOC] sprmTDefTable.
const DEFINITION: Code = Code(0xD608);

/// How far the cells of the tables of a text reach, and the tables inside of them. It is linear in the paragraphs and
/// in the cells.
pub(crate) fn cells_of(
    alloc: Global,
    parts: &Parts<'_>,
    bookmarks: &Bookmarks,
    values: &ParagraphValuesList,
) -> Result<TableCells, Memory>
    requires { AreFullParts parts.now }
    ensures { IfOk result (λ cells. cells ≡ table_cells_of bookmarks.now values.now (items_in parts.now)) }
{
    let len = parts.units.len();
    let mut tables = Tables::new(alloc);
    let mut depths = Depths::new(alloc);
    let mut marks = Cursor::new();
    let mut place = 0;
    let mut number = 0;
    let mut next = 0;
    while place < len {
        let end = paragraph_end(parts.attachments, &mut marks, place, len);
        let last = seek(parts.attachments, &mut marks, end - 1);
        let standing = Standing::of(parts.units[end - 1], &last.mark);
        let behind = next_anchor(bookmarks, next, end);
        let is_mark = is_mark_alone(end - place, values.get(number), next, behind);
        pass(&mut tables, alloc, standing, is_mark, &last.mark)?;
        depths.push(depth_by(standing, &last.mark, is_mark))?;
        next = behind;
        place = end;
        number += 1;
    }
    let spans = tables.finish(alloc)?;
    let nested = NestedTables::of(alloc, &depths)?;
    Ok(TableCells { spans, nested })
}

/// Goes behind a paragraph that is so, with this mark, which it has alone or not.
fn pass(
    tables: &mut Tables,
    alloc: Global,
    standing: Standing,
    is_mark: bool,
    mark: &Option<Mark>,
) -> Result<(), Memory>
    ensures { OnOk result (tables.new ≡ tables_by tables.old standing is_mark (definition_in mark.now)) }
{
    match standing {
        Standing::Outside => tables.leave(alloc),
        Standing::Inside => {
            tables.go_on();
            Ok(())
        }
        Standing::Cell => tables.end_cell(is_mark),
        Standing::Row => tables.end_row(alloc, false, definition_in(mark)),
        Standing::HeadRow => tables.end_row(alloc, true, definition_in(mark)),
    }
}

/// What the mark of a row says of its cells.
fn definition_in(mark: &Option<Mark>) -> &[u8]
    ensures { result.now ≡ definition_in mark.now }
{
    match mark {
        None => &[],
        Some(mark) => match mark.pap.get(DEFINITION) {
            None => &[],
            Some(definition) => definition,
        },
    }
}

/// Whether a paragraph of so many items has its mark alone, by its values and the bookmarks in front of and behind it.
fn is_mark_alone(count: usize, values: Option<&ParagraphValues>, next: usize, behind: usize) -> bool
    ensures { result ≡ (count == 1 && (not (has_label (option_map (λ v. v.now) values.entry)) && next == behind)) }
{
    count == 1 && !has_label(values) && next == behind
}

/// Whether a paragraph with these values has a number or a bullet.
fn has_label(values: Option<&ParagraphValues>) -> bool
    ensures { result ≡ has_label (option_map (λ v. v.now) values.entry) }
{
    match values {
        None => false,
        Some(values) => values.label.is_some(),
    }
}
