// The streams of a document, its FIB, and the text by CP.
ghost use Rattle.std.specs.Prelude.{◌≡◌, ◌<◌, ◌≤◌, ◌^◌, length, All, IfOk, MatchResult};
ghost use Rattle.doc_bits.specs.Rules.{Hold};
ghost use Rattle.fib_form.specs.Fib.{fib_size};
ghost use Rattle.fib_form.specs.FibFields.{fib_fields, text_length};
ghost use Rattle.file_rules.specs.Faults.{IsReadFault};
ghost use Rattle.piece_table.specs.Piece.{bare_piece, total_length};
ghost use Rattle.piece_table.specs.Clx.{IsClx};
ghost use Rattle.piece_table.specs.ClxRules.{StaysInStream, text_bounds};
ghost use Rattle.file_rules.specs.FileRules.{AreSmall, HasFileText, IsFrontOf, IsFileTextOf, clx_of, doc_source_of};
ghost use Rattle.file_rules.specs.FileRules.{table_rules};
ghost use Rattle.file_rules.specs.FileRules.{rules_of_pieces, wd_rules, loading_rules};

use crate::fault::refused_clx;
use crate::pair_rules::wrong_pair;
use crate::source::part_at;
use crate::{ReadFault, Source, TextUnits, read_units};
use cfb_streams::{Container, WORD_DOCUMENT, table_name};
use doc_bits::Where;
use fib_form::{Fib, TablePart};
use piece_table::{PieceList, read_clx};
use std::alloc::Global;
use std::marker::Model;

pub const RULE_WORD_DOCUMENT: u8 = 15;

pub const RULE_TABLE: u8 = 25;

const RULE_PARTS: u8 = 26;

/// Where the flags of the FIB are, which name the table stream.
const FLAGS: u32 = 10;

/// The two streams of a document, with the FIB, the pieces, and the units of the text by CP.
#[derive(Drop)]
pub struct LoadedText<'a> {
    wd: &'a [u8],
    table: &'a [u8],
    fib: Fib,
    pieces: PieceList,
    units: TextUnits,
}

impl<'a> Model for LoadedText<'a> {
    ghost use Rattle.file_rules.specs.FileRules.{FileText, IsLoaded};
    ghost use Rattle.file_rules.specs.Codes.{text_code};

    ghost Value = { FileText };

    ghost coded = { text_code };

    ghost view = { λ t. record { wd = t.wd.now; table = t.table.now; pieces = t.pieces.pieces } };

    ghost invariant = { λ t.
        IsLoaded (record { wd = t.wd.now; table = t.table.now; pieces = t.pieces.pieces }) t.fib t.units };
}

impl<'a> LoadedText<'a> {
    ghost use Rattle.file_rules.specs.FileRules.{doc_source_of};
    ghost use Rattle.file_rules.specs.FormatRules.{judged_units};

    /// What the rules on the parts read.
    pub fn source(&self) -> Source<'_>
        ensures { result ≡ doc_source_of self.now }
    {
        Source::new(self.wd, &self.fib, self.table, &self.units)
    }

    /// The FIB of `WordDocument`.
    pub fn fib(&self) -> &Fib
        ensures { result.now ≡ fib_fields self.now.wd }
    {
        &self.fib
    }

    /// The pieces of the text.
    pub fn pieces(&self) -> &PieceList
        ensures { result.now.pieces ≡ self.now.pieces }
    {
        &self.pieces
    }

    /// The FIB and the pieces. It takes no memory.
    pub fn into_parts(self) -> (Fib, PieceList)
        ensures fib { result.0 ≡ fib_fields self.entry.wd }
        ensures pieces { result.1.pieces ≡ self.entry.pieces }
    {
        (self.fib, self.pieces)
    }

    /// The FIB, the pieces, and the units of the three stories, by CP. None is copied.
    pub fn into_loaded(self) -> (Fib, PieceList, Vec<u16>)
        ensures fib { result.0 ≡ fib_fields self.entry.wd }
        ensures pieces { result.1.pieces ≡ self.entry.pieces }
        ensures units { result.2.items ≡ judged_units (doc_source_of self.entry) }
    {
        let count = self.source().judged_count();
        let mut units = self.units.into_units();
        units.truncate(count);
        (self.fib, self.pieces, units)
    }
}

/// Loads the text of a document from the streams of its file.
pub fn load_text<'a>(alloc: Global, container: &'a Container) -> Result<LoadedText<'a>, ReadFault>
    requires { AreSmall container.now }
    ensures { MatchResult result
        (λ text. Hold (loading_rules container.now) × HasFileText container.now text)
        (IsReadFault (loading_rules container.now)) }
{
    let Some(wd) = container.stream(&WORD_DOCUMENT) else {
        return Err(ReadFault::Refused {
            rule: RULE_WORD_DOCUMENT,
            place: Where::File,
            offset: 0,
        });
    };
    load_wd(alloc, container, wd)
}

/// Loads the text of `WordDocument`.
fn load_wd<'a>(
    alloc: Global,
    container: &'a Container,
    wd: &'a [u8],
) -> Result<LoadedText<'a>, ReadFault>
    requires small { length wd.now < 2 ^ 32 }
    requires streams { AreSmall container.now }
    ensures { MatchResult result
        (λ text. Hold (wd_rules container.now wd.now) × IsFileTextOf container.now wd.now text)
        (IsReadFault (wd_rules container.now wd.now)) }
{
    let fib = match Fib::read(wd) {
        Ok(fib) => fib,
        Err(fault) => {
            return Err(ReadFault::Refused {
                rule: fault.rule,
                place: Where::Wd,
                offset: fault.offset,
            });
        }
    };
    let Some(table) = container.stream(table_name(fib.which_table())) else {
        return Err(ReadFault::Refused {
            rule: RULE_TABLE,
            place: Where::Wd,
            offset: FLAGS,
        });
    };
    load_table(alloc, wd, fib, table)
}

/// Loads the text from both streams.
fn load_table<'a>(
    alloc: Global,
    wd: &'a [u8],
    fib: Fib,
    table: &'a [u8],
) -> Result<LoadedText<'a>, ReadFault>
    requires small { length wd.now < 2 ^ 32 }
    requires table_small { length table.now < 2 ^ 32 }
    requires fields { fib ≡ fib_fields wd.now }
    ensures { MatchResult result
        (λ text. Hold (table_rules wd.now table.now) × (text.wd ≡ wd.now) × (text.table ≡ table.now)
        × IsClx (clx_of wd.now table.now) text.pieces)
        (IsReadFault (table_rules wd.now table.now)) }
{
    let pieces = read_pieces(alloc, wd, &fib, table, fib.text_len())?;
    let units = read_units(alloc, wd, &pieces)?;
    Ok(LoadedText {
        wd,
        table,
        fib,
        pieces,
        units,
    })
}

/// The front of a text, and the units of all its CPs.
#[derive(Drop)]
pub struct FrontText<'a> {
    pub text: LoadedText<'a>,
    pub units: Vec<u16>,
}

/// Loads the front of a text from both streams. Its pieces have `text_len` CPs, those that the FIB counts and others
/// behind them, of which only the units are handed over.
pub fn load_front<'a>(
    alloc: Global,
    wd: &'a [u8],
    fib: Fib,
    table: &'a [u8],
    text_len: u32,
) -> Result<FrontText<'a>, ReadFault>
    requires small { length wd.now < 2 ^ 32 }
    requires table_small { length table.now < 2 ^ 32 }
    requires fields { fib ≡ fib_fields wd.now }
    requires front { text_length (fib_fields wd.now).ccps ≤ text_len }
    requires few { text_len ≤ 500001 }
    ensures { MatchResult result
        (λ front. Hold (rules_of_pieces wd.now table.now text_len)
        × IsFrontOf wd.now table.now front.text front.units.items)
        (IsReadFault (rules_of_pieces wd.now table.now text_len)) }
{
    let mut pieces = read_pieces(alloc, wd, &fib, table, text_len)?;
    let all = read_units(alloc, wd, &pieces)?;
    pieces.truncate(fib.text_len())?;
    let units = read_units(alloc, wd, &pieces)?;
    Ok(FrontText {
        text: LoadedText {
            wd,
            table,
            fib,
            pieces,
            units,
        },
        units: all.into_units(),
    })
}

/// Reads the pieces of a text that has `text_len` CPs.
fn read_pieces(
    alloc: Global,
    wd: &[u8],
    fib: &Fib,
    table: &[u8],
    text_len: u32,
) -> Result<PieceList, ReadFault>
    requires small { length wd.now < 2 ^ 32 }
    requires table_small { length table.now < 2 ^ 32 }
    requires fields { fib.now ≡ fib_fields wd.now }
    requires few { text_len ≤ 500001 }
    ensures read { MatchResult result
        (λ list. Hold (rules_of_pieces wd.now table.now text_len) × IsClx (clx_of wd.now table.now) list.pieces)
        (IsReadFault (rules_of_pieces wd.now table.now text_len)) }
    ensures within { IfOk result
        (λ list. All (λ piece. StaysInStream (text_bounds (fib_size wd.now) (length wd.now)) (bare_piece piece))
        list.pieces) }
    ensures total { IfOk result (λ list. total_length list.pieces ≡ text_len) }
{
    if let Some(offset) = wrong_pair(fib, table.len()) {
        return Err(ReadFault::Refused {
            rule: RULE_PARTS,
            place: Where::Wd,
            offset,
        });
    }
    let pair = fib.pair(TablePart::Clx.pair());
    let clx = part_at(table, pair);
    let wd_len = wd.len() as u32;
    match read_clx(alloc, clx, pair.0, wd_len, text_len, fib.size()) {
        Ok(pieces) => Ok(pieces),
        Err(fault) => Err(refused_clx(fault)),
    }
}
