// Which texts, properties and rows a command may have. No call takes memory.
ghost use Rattle.std.specs.Prelude.{◌+◌, ◌↔◌, ◌≤◌, IsTrue, All, length};
ghost use Rattle.std.specs.List.{sum_by};
ghost use Rattle.edit_ops.specs.Codes.{HasValidCodes, IsPutUnit, IsPutText, IsPutField, IsPutRow, IsPutName};
ghost use Rattle.edit_ops.specs.Codes.{most_units, IsShownUnit};

use crate::{Cells, Command};
use prop_map::{CHARACTER_GROUPS, PARAGRAPH_GROUPS, SECTION_GROUPS};
use text_codes::SPACE;

/// The most units that a command's texts have together.
const MAX_UNITS: usize = 4_000_000_000;

/// [MS-DOC] TDefTableOperand: the most cells of a row.
const MAX_CELLS: usize = 63;

/// Where the last cell of a row ends at most, in twips.
const MAX_TWIPS: usize = 32_767;

/// The most units of the name of a bookmark.
const MAX_NAME_UNITS: usize = 40;

const TAB: u16 = 0x09;

const LINE_BREAK: u16 = 0x0B;

/// Whether the texts of a command may be put, and its properties may be at its place.
pub fn has_valid_codes(command: &Command) -> bool
    ensures { IsTrue result ↔ HasValidCodes command.now }
{
    match command {
        Command::Insert(_, _, text) => is_insertable_text(text.as_slice()),
        Command::Char(_, _, _, set) => set.is_held(CHARACTER_GROUPS),
        Command::Para(_, _, set) => set.is_held(PARAGRAPH_GROUPS),
        Command::Field(_, _, _, code, shown) => is_put_field(code.as_slice(), shown.as_slice()),
        Command::Note(_, text) => is_insertable_text(text.as_slice()),
        Command::Sect(_, _, set) => set.is_held(SECTION_GROUPS),
        Command::Row(_, _, width, cells) => is_put_row(*width, cells),
        Command::StyleChar(_, set) => set.is_held(CHARACTER_GROUPS),
        Command::StylePara(_, set) => set.is_held(PARAGRAPH_GROUPS),
        Command::Bookmark(name, _, _) => is_put_name(name.as_slice()),
        Command::Erase(_, _, _) => true,
        Command::Plain(_, _, _) => true,
        Command::Style(_, _, _) => true,
        Command::Split(_, _) => true,
        Command::Merge(_, _) => true,
        Command::Unmark(_) => true,
        Command::Save(_) => true,
    }
}

/// Whether the text of a command may be put.
fn is_insertable_text(text: &[u16]) -> bool
    ensures { IsTrue result ↔ IsPutText text.now }
{
    text.len() <= MAX_UNITS && are_insertable_units(text)
}

/// Whether a bookmark may have this name.
fn is_put_name(name: &[u16]) -> bool
    ensures { IsTrue result ↔ IsPutName name.now }
{
    name.len() > 0 && name.len() <= MAX_NAME_UNITS && are_shown_units(name)
}

/// Whether no unit is a control character.
fn are_shown_units(units: &[u16]) -> bool
    ensures { IsTrue result ↔ All IsShownUnit units.now }
{
    for unit in units {
        if !is_shown_unit(*unit) {
            return false;
        }
    }
    true
}

/// Whether the unit is no control character.
fn is_shown_unit(unit: u16) -> bool
    ensures { IsTrue result ↔ IsShownUnit unit }
{
    unit >= SPACE
}

/// Whether the texts of a field may be put.
fn is_put_field(code: &[u16], shown: &[u16]) -> bool
    ensures { IsTrue result ↔ IsPutField code.now shown.now }
{
    if code.len() > MAX_UNITS || shown.len() > MAX_UNITS - code.len() {
        return false;
    }
    are_insertable_units(code) && are_insertable_units(shown)
}

/// Whether a row has cells, of a width, that fit a table and texts that may be put.
fn is_put_row(width: u16, cells: &Cells) -> bool
    ensures { IsTrue result ↔ IsPutRow width cells.now }
{
    let count = cells.len();
    if count == 0 || count > MAX_CELLS {
        return false;
    }
    if width == 0 || count * width as usize > MAX_TWIPS {
        return false;
    }
    are_insertable_cells(cells)
}

/// Whether the texts of the cells may be put.
fn are_insertable_cells(cells: &Cells) -> bool
    ensures { IsTrue result ↔ (All (All IsPutUnit) cells.now × (sum_by length cells.now ≤ most_units)) }
{
    let mut units = 0;
    for i in 0..cells.len() {
        let text = cells.get(i).as_slice();
        if text.len() > MAX_UNITS - units {
            return false;
        }
        if !are_insertable_units(text) {
            return false;
        }
        units += text.len();
    }
    true
}

/// Whether each unit may be put.
fn are_insertable_units(units: &[u16]) -> bool
    ensures { IsTrue result ↔ All IsPutUnit units.now }
{
    for unit in units {
        if !is_insertable_unit(*unit) {
            return false;
        }
    }
    true
}

/// Whether the unit may be put: it is no control character but a tab and a line break.
fn is_insertable_unit(unit: u16) -> bool
    ensures { IsTrue result ↔ IsPutUnit unit }
{
    is_shown_unit(unit) || unit == TAB || unit == LINE_BREAK
}
