// What the lines do.
use crate::names::Names;
use crate::row::Row;
use crate::row_fault::RowFault;
use crate::subject::Subject;
use crate::words::Words;
use doc_outer::Shelf;
use std::alloc::Global;

/// What has a name, and the row that is in progress.
#[derive(Drop)]
pub(crate) struct Rows<S: Subject + Drop> {
    alloc: Global,
    names: Names,
    row: Row<S>,
}

impl<S: Subject + Drop> Rows<S> {
    /// No row is in progress, and nothing has a name.
    pub(crate) fn new(alloc: Global) -> Rows<S> {
        Rows {
            alloc,
            names: Names::new(alloc),
            row: Row::new(alloc),
        }
    }

    /// Does what a line says, and answers what is to be printed. The files of data are read from the shelf.
    pub(crate) fn act<D: Shelf>(&mut self, line: &str, data: &mut D) -> Result<String, RowFault> {
        if line.is_empty() || line.starts_with('#') {
            return Ok(String::new(self.alloc));
        }
        if line.starts_with("place ") || line.starts_with("repeat ") {
            return self.name(line);
        }
        self.row.act(&mut Words::new(line, &self.names), data)
    }

    /// Gives a number or a text its name.
    fn name(&mut self, line: &str) -> Result<String, RowFault> {
        let mut words = Words::new(line, &self.names);
        let first = words.word()?;
        let name = words.word()?;
        let number = words.number()?;
        let text = words.rest();
        match first {
            "repeat" => self.names.add_text(name, number, text)?,
            _ if text.is_empty() => self.names.add_number(name, number)?,
            _ => return Err(RowFault::WordTooMany),
        }
        Ok(String::new(self.alloc))
    }
}
