// The texts of the cells of a row.
ghost use Rattle.serde_json.specs.View.{view};
ghost use Rattle.edit_script.specs.Json.{GivesReading};
ghost use Rattle.edit_script.specs.Values.{cell_texts_of};

use crate::values::units_in;
use crate::{Cells, ShapeError};
use serde_json::Value;
use std::alloc::Global;

/// The texts of an array.
pub(crate) fn cells_in(alloc: Global, value: &Value) -> Result<Cells, ShapeError>
    ensures { GivesReading result (cell_texts_of (view value.now)) }
{
    let Some(values) = value.as_array() else {
        return Err(ShapeError::Shape);
    };
    let mut cells = Cells::new(alloc);
    for value in values.iter() {
        cells.add(units_in(alloc, value)?)?;
    }
    Ok(cells)
}
