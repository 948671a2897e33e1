// What a text is read from.
ghost use Rattle.std.specs.Prelude.{◌≡◌, IsTrue, IfOk, OnOk};
ghost use Rattle.prop_map.specs.Modifiers.{IsFormedModifier};
ghost use Rattle.doc_read.specs.Reading.{IsReadable, text_view};
ghost use Rattle.doc_read.specs.Reading.{ArePieceReaders, HasReaderFor, IsPieceReader};

use crate::marked::TextMarks;
use crate::sections::SectionMaps;
use direct_props::{PlaceReader, Places};
use doc_bits::Memory;
use fkp_pages::PageKind;
use prop_map::{Modifier, PropMap};
use std::alloc::Global;
use std::collections::BTreeMap;

/// So many readers are tried for a piece whose modifier is not found by its sum, the last that were made.
const READERS_TRIED: usize = 64;

/// What the items of a text are read from: `WordDocument` with its bin tables, the units and their
/// places by CP, and what is at CPs.
#[derive(Drop)]
pub struct TextSource<'a> {
    pub wd: &'a [u8],
    pub characters: &'a [u8],
    pub paragraphs: &'a [u8],
    pub units: &'a [u16],
    pub places: Places<'a>,
    pub marks: &'a TextMarks,
    pub maps: &'a SectionMaps,
}

/// Reads the properties of the pieces with one modifier: those of characters, and those of paragraph marks.
#[derive(Drop)]
pub struct PieceReader<'a> {
    pub characters: PlaceReader<'a>,
    pub marks: PlaceReader<'a>,
}

impl<'a> PieceReader<'a> {
    /// A reader of pieces with this modifier.
    pub fn new(
        alloc: Global,
        text: &TextSource<'a>,
        modifier: &Modifier,
    ) -> Result<PieceReader<'a>, Memory>
        requires readable { IsReadable (text_view text.now) }
        requires formed { IsFormedModifier modifier.now }
        ensures reads { IfOk result (IsPieceReader (text_view text.now)) }
        ensures modifier { IfOk result (λ reader. reader.characters.modifier ≡ modifier.now) }
    {
        let characters = PlaceReader::new(
            alloc,
            PageKind::Chpx,
            text.wd,
            text.characters,
            modifier,
        )?;
        let marks = PlaceReader::new(alloc, PageKind::Papx, text.wd, text.paragraphs, modifier)?;
        Ok(PieceReader { characters, marks })
    }
}

/// The number of a reader for pieces with the modifier, which is made where neither the last one of its sum nor
/// one of the last ones is for it. A wrong number of `numbers` would only cost time.
pub(crate) fn reader_for<'a>(
    alloc: Global,
    text: &TextSource<'a>,
    modifier: &Modifier,
    readers: &mut Vec<PieceReader<'a>>,
    numbers: &mut BTreeMap<u32, usize>,
) -> Result<usize, Memory>
    requires readable { IsReadable (text_view text.now) }
    requires formed { IsFormedModifier modifier.now }
    requires readers { ArePieceReaders (text_view text.now) readers.old.items }
    ensures readers { OnOk result (ArePieceReaders (text_view text.now) readers.new.items) }
    ensures serves { IfOk result (λ number. HasReaderFor readers.new.items number modifier.now) }
{
    let sum = sum_of(modifier);
    if let Some(number) = numbers.get(&sum) {
        let known = *number;
        if serves_at(readers, known, modifier) {
            return Ok(known);
        }
    }
    for k in readers.len().saturating_sub(READERS_TRIED)..readers.len() {
        if serves_at(readers, k, modifier) {
            return Ok(k);
        }
    }
    let reader = PieceReader::new(alloc, text, modifier)?;
    numbers.insert(sum, readers.len())?;
    readers.push(reader)?;
    Ok(readers.len() - 1)
}

/// Whether a reader of that number is there, and is for the modifier.
fn serves_at(readers: &[PieceReader<'_>], number: usize, modifier: &Modifier) -> bool
    ensures { IsTrue result → HasReaderFor readers.now number modifier.now }
{
    number < readers.len() && readers[number].characters.serves(modifier)
}

/// A number by which a modifier is looked for.
fn sum_of(modifier: &Modifier) -> u32 {
    let style = match modifier.istd {
        None => 0,
        Some(istd) => istd as u32,
    };
    let characters = sum_with(style, &modifier.chp);
    sum_with(characters, &modifier.pap)
}

/// The sum with the codes and values of a map.
fn sum_with(before: u32, map: &PropMap) -> u32 {
    let mut sum = before;
    let mut left = map.entries();
    while let Some((code, value)) = left.next() {
        sum = sum_with_bytes(sum.wrapping_add(code.0 as u32), value);
    }
    sum
}

/// The sum with the bytes of a value.
fn sum_with_bytes(before: u32, value: &[u8]) -> u32 {
    let mut sum = before;
    for byte in value {
        sum = sum.wrapping_mul(0x0100_0193).wrapping_add(*byte as u32);
    }
    sum
}

/// How many CPs of each list are passed.
#[derive(Clone, Copy)]
pub struct PlcCursors {
    pub field: usize,
    pub note: usize,
    pub section: usize,
}
