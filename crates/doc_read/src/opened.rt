// Reading a whole file into a plain document.
ghost use Rattle.std.specs.Prelude.{◌≡◌, IfOk, MatchResult};
ghost use Rattle.file_rules.specs.Faults.{IsReadFault};
ghost use Rattle.doc_read.specs.Holds.{all_rules};
ghost use Rattle.doc_read.specs.Opened.{IsOpened};

use crate::column_file::{ColumnFile, open};
use cfb_streams::Container;
use doc_bits::{Memory, drop_then};
use fib_form::Fib;
use file_rules::ReadFault;
use piece_table::PieceList;
use plain_doc::Document;
use std::alloc::Global;
use std::marker::Model;

/// An accepted file: its document, its FIB, its streams, and the pieces of its text.
#[derive(Drop)]
pub struct Opened {
    document: Document,
    fib: Fib,
    container: Container,
    pieces: PieceList,
}

impl Model for Opened {
    ghost use Rattle.doc_read.specs.Opened.{OpenedFile};
    ghost use Rattle.std.specs.Coded.{codes};
    ghost use Rattle.piece_table.specs.Codes.{piece_code};
    ghost use Rattle.doc_model.specs.contracts.document.Document as whole;

    ghost Value = { OpenedFile };

    ghost coded = { Prim.hlevel (codes, whole.the_row.coded, piece_code) };

    ghost view = { λ o. record {
      document = o.document;
      fib = o.fib;
      contents = o.container;
      pieces = o.pieces.pieces;
    } };
}

impl Opened {
    /// The document of the file.
    pub fn document(&self) -> &Document
        ensures { result.now ≡ self.now.document }
    {
        &self.document
    }

    /// The FIB of its `WordDocument`.
    pub fn fib(&self) -> &Fib
        ensures { result.now ≡ self.now.fib }
    {
        &self.fib
    }

    /// Its streams, with the CLSID.
    pub fn container(&self) -> &Container
        ensures { result.now ≡ self.now.contents }
    {
        &self.container
    }

    /// The pieces of its text.
    pub fn pieces(&self) -> &PieceList
        ensures { result.now.pieces ≡ self.now.pieces }
    {
        &self.pieces
    }

    /// The document, the FIB, the container and the pieces. It takes no memory.
    pub fn into_parts(self) -> (Document, Fib, Container, PieceList)
        ensures document { result.0 ≡ self.document }
        ensures fib { result.1 ≡ self.fib }
        ensures contents { result.2 ≡ self.contents }
        ensures pieces { result.3.pieces ≡ self.pieces }
    {
        (self.document, self.fib, self.container, self.pieces)
    }
}

/// Reads a file. A file that is refused breaks a rule, and the first is named, at its least place.
pub fn read(alloc: Global, file: &[u8]) -> Result<Opened, ReadFault>
    ensures { MatchResult result (IsOpened file.now) (IsReadFault (all_rules file.now)) }
{
    let found = open(alloc, file)?;
    let opened = expand(alloc, found)?;
    Ok(opened)
}

/// The file with its document item by item. Maps and styles are shared.
fn expand(alloc: Global, file: ColumnFile) -> Result<Opened, Memory>
    ensures { IfOk result (λ opened. opened ≡ file) }
{
    match file.document().expand(alloc) {
        Ok(document) => Ok(opened_of(document, file)),
        Err(fault) => drop_then(file, Err(fault)),
    }
}

/// The file with this document in place of its columns. It takes no memory.
fn opened_of(document: Document, file: ColumnFile) -> Opened
    ensures { result ≡ record {
      document = document;
      fib = file.fib;
      contents = file.contents;
      pieces = file.pieces;
    } }
{
    let (columns, fib, container, pieces) = file.into_parts();
    drop(columns);
    Opened {
        document,
        fib,
        container,
        pieces,
    }
}
