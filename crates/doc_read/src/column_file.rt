// Reading a whole file into columns.
ghost use Rattle.std.specs.Prelude.{◌≡◌, ℕ, List, length, IfOk, MatchResult};
ghost use Rattle.doc_bits.specs.declared.places.Where.TheVariants.{File};
ghost use Rattle.doc_bits.specs.Rules.{Hold};
ghost use Rattle.doc_bits.specs.Places.{rules_in};
ghost use Rattle.cfb_streams.specs.Container.{container_rules, HasContents};
ghost use Rattle.doc_model.specs.Marks.{HasFormedBookmarks};
ghost use Rattle.plain_doc.specs.Sound.{IsSound, document_rules};
ghost use Rattle.fib_form.specs.FibFields.{fib_fields};
ghost use Rattle.file_rules.specs.Faults.{IsReadFault};
ghost use Rattle.file_rules.specs.FormatRules.{judged_units, rules_of_formats};
ghost use Rattle.file_rules.specs.PartRules.{layout_rules, part_rules};
ghost use Rattle.file_rules.specs.FileRules.{contents_rules, doc_source_of};
ghost use Rattle.doc_read.specs.CarriedParts.{AreWithinBounds, LeavesRoom};
ghost use Rattle.doc_read.specs.Holds.{all_rules};
ghost use Rattle.doc_read.specs.ReadParts.{FitUnits, IsReadFrom};
ghost use Rattle.doc_read.specs.ReadTexts.{AreCutsOf, IsDocumentOfUnits};
ghost use Rattle.doc_read.specs.Opened.{AreOfFile, IsFoundIn, IsOpened, IsReadDocument};

use crate::document::{DocumentParts, document_with, read_document_parts};
use cfb_streams::Container;
use doc_bits::{Memory, drop_then};
use doc_columns::{CheckFault, ColumnDocument, check};
use fib_form::Fib;
use file_rules::{
    LoadedText, ReadFault, Source, check_formats, load_text, read_unjudged, refused_container,
};
use piece_table::PieceList;
use plain_doc::DocFault;
use std::alloc::Global;
use std::marker::Model;

/// An accepted file: its document by columns, its FIB, its streams, and the pieces of its text.
#[derive(Drop)]
pub struct ColumnFile {
    document: ColumnDocument,
    fib: Fib,
    container: Container,
    pieces: PieceList,
}

impl Model for ColumnFile {
    ghost use Rattle.doc_read.specs.Opened.{OpenedFile};
    ghost use Rattle.std.specs.Coded.{codes};
    ghost use Rattle.piece_table.specs.Codes.{piece_code};
    ghost use Rattle.doc_model.specs.contracts.document.Document as whole;

    ghost Value = { OpenedFile };

    ghost coded = { Prim.hlevel (codes, whole.the_row.coded, piece_code) };

    ghost view = { λ o. record {
      document = o.document;
      fib = o.fib;
      contents = o.container;
      pieces = o.pieces.pieces;
    } };
}

impl ColumnFile {
    /// The document of the file.
    pub fn document(&self) -> &ColumnDocument
        ensures { result.now ≡ self.now.document }
    {
        &self.document
    }

    /// The FIB of its `WordDocument`.
    pub fn fib(&self) -> &Fib
        ensures { result.now ≡ self.now.fib }
    {
        &self.fib
    }

    /// Its streams, with the CLSID.
    pub fn container(&self) -> &Container
        ensures { result.now ≡ self.now.contents }
    {
        &self.container
    }

    /// The pieces of its text.
    pub fn pieces(&self) -> &PieceList
        ensures { result.now.pieces ≡ self.now.pieces }
    {
        &self.pieces
    }

    /// The document, the FIB, the container and the pieces. It takes no memory.
    pub fn into_parts(self) -> (ColumnDocument, Fib, Container, PieceList)
        ensures document { result.0 ≡ self.document }
        ensures fib { result.1 ≡ self.fib }
        ensures contents { result.2 ≡ self.contents }
        ensures pieces { result.3.pieces ≡ self.pieces }
    {
        (self.document, self.fib, self.container, self.pieces)
    }
}

/// Reads a file by columns. A file that is refused breaks a rule, and the first is named, at its least place.
pub fn open(alloc: Global, file: &[u8]) -> Result<ColumnFile, ReadFault>
    ensures { MatchResult result (IsOpened file.now) (IsReadFault (all_rules file.now)) }
{
    let container = load(alloc, file)?;
    let found = read_and_check(alloc, &container)?;
    Ok(file_of(container, found))
}

/// The file of its streams and of what was read from them. It takes no memory.
fn file_of(container: Container, found: Found) -> ColumnFile
    ensures { result ≡ record {
      document = found.document;
      fib = found.fib;
      contents = container;
      pieces = found.pieces.pieces;
    } }
{
    let Found {
        document,
        fib,
        pieces,
    } = found;
    ColumnFile {
        document,
        fib,
        container,
        pieces,
    }
}

/// The streams of a file.
fn load(alloc: Global, file: &[u8]) -> Result<Container, ReadFault>
    ensures { MatchResult result
        (λ container. Hold (rules_in File (container_rules file.now)) × HasContents file.now container
        × AreWithinBounds container)
        (IsReadFault (rules_in File (container_rules file.now))) }
{
    match Container::load(alloc, file) {
        Ok(container) => Ok(container),
        Err(fault) => Err(refused_container(fault)),
    }
}

/// What is read from the streams of a file.
#[derive(Drop)]
struct Found {
    document: ColumnDocument,
    fib: Fib,
    pieces: PieceList,
}

/// Reads the streams of a file, and checks its document.
fn read_and_check(alloc: Global, container: &Container) -> Result<Found, ReadFault>
    requires bounds { AreWithinBounds container.now }
    requires of_file { AreOfFile container.now }
    ensures { (file : List ℕ) → Hold (rules_in File (container_rules file)) → HasContents file container.now
        → MatchResult result
        (λ found. IsOpened file (record {
          document = found.document;
          fib = found.fib;
          contents = container.now;
          pieces = found.pieces.pieces;
        }))
        (IsReadFault (all_rules file)) }
{
    let found = read_contents(alloc, container)?;
    match check_document(alloc, &found.document) {
        Ok(()) => Ok(found),
        Err(fault) => drop_then(found, Err(fault)),
    }
}

/// Reads the streams of a file.
fn read_contents(alloc: Global, container: &Container) -> Result<Found, ReadFault>
    requires { AreWithinBounds container.now }
    ensures { MatchResult result
        (λ found. Hold (contents_rules container.now)
        × IsFoundIn container.now found.document found.fib found.pieces.pieces)
        (IsReadFault (contents_rules container.now)) }
{
    let text = load_text(alloc, container)?;
    let found = read_found(alloc, container, text)?;
    Ok(found)
}

/// Reads the document of a text that was loaded in place of the one that the streams name. What is carried is that of
/// the streams. The document is not checked.
pub fn read_loaded(
    alloc: Global,
    container: &Container,
    text: LoadedText<'_>,
) -> Result<ColumnDocument, ReadFault>
    requires bounds { AreWithinBounds container.now }
    requires room { LeavesRoom container.now text.table }
    ensures { MatchResult result
        (λ document. Hold (part_rules (doc_source_of text.entry)) × IsReadDocument container.now text.entry document)
        (IsReadFault (part_rules (doc_source_of text.entry))) }
{
    let found = read_found(alloc, container, text)?;
    Ok(found.document)
}

/// Reads the document of a text, with the FIB and the pieces.
fn read_found(
    alloc: Global,
    container: &Container,
    text: LoadedText<'_>,
) -> Result<Found, ReadFault>
    requires bounds { AreWithinBounds container.now }
    requires room { LeavesRoom container.now text.table }
    ensures { MatchResult result
        (λ found. Hold (part_rules (doc_source_of text.entry)) × IsReadDocument container.now text.entry found.document
        × (found.fib ≡ fib_fields text.entry.wd) × (found.pieces.pieces ≡ text.entry.pieces))
        (IsReadFault (part_rules (doc_source_of text.entry))) }
{
    let read = read_text(alloc, container, &text)?;
    let found = found_of(alloc, text, read)?;
    Ok(found)
}

/// Reads what the document of a text is made of, but for its units.
fn read_text(
    alloc: Global,
    container: &Container,
    text: &LoadedText<'_>,
) -> Result<DocumentParts, ReadFault>
    requires bounds { AreWithinBounds container.now }
    requires room { LeavesRoom container.now text.now.table }
    ensures { MatchResult result
        (λ parts. Hold (part_rules (doc_source_of text.now)) × IsReadFrom container.now text.now parts)
        (IsReadFault (part_rules (doc_source_of text.now))) }
{
    let source = text.source();
    let parts = read_unjudged(alloc, &source)?;
    let Some(read) = read_document_parts(alloc, container, text, parts)? else {
        return Err(format_fault(alloc, &source));
    };
    Ok(read)
}

/// The document of a text whose units it takes over, with the FIB and the pieces.
fn found_of(alloc: Global, text: LoadedText<'_>, parts: DocumentParts) -> Result<Found, Memory>
    requires units { FitUnits (judged_units (doc_source_of text)) parts.columns }
    requires cuts { AreCutsOf (fib_fields text.wd) parts.cuts (length (judged_units (doc_source_of text))) }
    ensures document { IfOk result (λ found.
        IsDocumentOfUnits (fib_fields text.entry.wd) (judged_units (doc_source_of text.entry)) parts found.document) }
    ensures fib { IfOk result (λ found. found.fib ≡ fib_fields text.entry.wd) }
    ensures pieces { IfOk result (λ found. found.pieces.pieces ≡ text.entry.pieces) }
{
    let (fib, pieces, units) = text.into_loaded();
    let document = document_with(alloc, &fib, units, parts)?;
    Ok(Found {
        document,
        fib,
        pieces,
    })
}

/// The first broken rule on the pages, one of which is broken.
fn format_fault(alloc: Global, source: &Source<'_>) -> ReadFault
    requires layout { Hold (layout_rules source.now) }
    requires wrong { ¬ (Hold (rules_of_formats source.now)) }
    ensures { IsReadFault (rules_of_formats source.now) result }
{
    match check_formats(alloc, source) {
        Ok(()) => unreachable!(),
        Err(fault) => fault,
    }
}

/// Checks a document by the rules on documents.
pub fn check_document(alloc: Global, document: &ColumnDocument) -> Result<(), ReadFault>
    requires { HasFormedBookmarks document.now }
    ensures { MatchResult result
        (λ _. IsSound document.now)
        (IsReadFault (document_rules document.now)) }
{
    match check(alloc, document) {
        Ok(()) => Ok(()),
        Err(CheckFault::Rule(DocFault { rule, place, at })) => Err(ReadFault::Refused {
            rule,
            place,
            offset: at,
        }),
        Err(CheckFault::Memory) => Err(ReadFault::Memory),
    }
}
