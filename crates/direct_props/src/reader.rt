// Readers of the properties of places, which keep what each list makes.
ghost use Rattle.std.specs.Prelude.{◌≡◌, ◌↔◌, ◌+◌, ◌<◌, ◌^◌, length, IsTrue, IfOk, IfSome, MatchOption};
ghost use Rattle.prop_map.specs.Formed.{IsPropertyMap, paragraph_groups};
ghost use Rattle.prop_map.specs.Modifiers.{IsFormedModifier};
ghost use Rattle.fkp_pages.specs.declared.kind.PageKind.TheVariants.{Chpx, Papx};
ghost use Rattle.fkp_pages.specs.Bin.{IsBinTable};
ghost use Rattle.direct_props.specs.Direct.{IsDirectMark};
ghost use Rattle.direct_props.specs.PageRules.{AreValidPlaces, IsValidPlace};
ghost use Rattle.direct_props.specs.Stretches.{AddsCharacters, BeginsWith, HasPropertiesAround};
ghost use Rattle.direct_props.specs.GrpprlCache.{HasMadeAround, PlaceSource};

use crate::grpprl_cache::{Decoded, DecodedRun, GrpprlCache, ListSource};
use crate::pages::{PageCursor, page_around};
use crate::{DirectMark, Places};
use doc_bits::Memory;
use fkp_pages::PageKind;
use prop_map::{Modifier, PropMap};
use run_lists::Runs;
use std::alloc::Global;
use std::marker::Model;

/// Reads the properties that the pages of a kind give to the places of pieces with one modifier. A list is acted
/// with once.
#[derive(Drop)]
pub struct PlaceReader<'a> {
    kind: PageKind,
    wd: &'a [u8],
    bin: &'a [u8],
    modifier: Modifier,
    cursor: PageCursor,
    kept: GrpprlCache,
}

impl<'a> Model for PlaceReader<'a> {
    ghost use Rattle.direct_props.specs.GrpprlCache.{PlaceSource, IsReader};
    ghost use Rattle.direct_props.specs.Codes.{source_code};

    ghost Value = { PlaceSource };

    ghost coded = { source_code };

    ghost view = { λ r. record { kind = r.kind; wd = r.wd.now; bin = r.bin.now; modifier = r.modifier } };

    ghost invariant = { λ r.
        IsReader (record { kind = r.kind; wd = r.wd.now; bin = r.bin.now; modifier = r.modifier }) r.cursor r.kept };
}

impl<'a> PlaceReader<'a> {
    /// A reader of these pages that has met no place.
    pub fn new(
        alloc: Global,
        kind: PageKind,
        wd: &'a [u8],
        bin: &'a [u8],
        modifier: &Modifier,
    ) -> Result<PlaceReader<'a>, Memory>
        requires table { IsBinTable bin.now }
        requires small { length wd.now < 2 ^ 32 }
        ensures { IfOk result
            (λ reader. reader ≡ record { kind = kind; wd = wd.now; bin = bin.now; modifier = modifier.now }) }
    {
        Ok(PlaceReader {
            kind,
            wd,
            bin,
            modifier: modifier.copy(alloc)?,
            cursor: PageCursor::start(),
            kept: GrpprlCache::new(alloc),
        })
    }

    /// Whether it reads for pieces with this modifier.
    pub fn serves(&self, modifier: &Modifier) -> bool
        ensures { IsTrue result → self.now.modifier ≡ modifier.now }
    {
        self.modifier.equal(modifier)
    }

    /// Appends the direct properties of the characters at these places, run by run, and answers whether each place is
    /// right. Where one is not, and after want of memory, some of them may be in the list.
    pub fn push_character_runs(
        &mut self,
        alloc: Global,
        places: &Places<'_>,
        runs: &mut Runs<PropMap>,
    ) -> Result<bool, Memory>
        requires kind { self.old.kind ≡ Chpx }
        requires few { length runs.old + length places.now < 2 ^ 32 }
        ensures same { self.new ≡ self.old }
        ensures right { IfOk result
            (λ right. IsTrue right ↔ AreValidPlaces Chpx self.old.wd self.old.bin places.now) }
        ensures added { IfOk result (λ right. IsTrue right
            → AddsCharacters self.old.wd self.old.bin places.now self.old.modifier runs.old runs.new) }
        ensures begins { BeginsWith runs.old runs.new }
    {
        let mut left = places.skip(0);
        while left.len() > 0 {
            let Some(stretch) = self.stretch_around(alloc, left.first())? else {
                return Ok(false);
            };
            let CharacterStretch {
                first: _,
                last,
                map,
            } = stretch;
            let count = left.count_up_to(last);
            runs.add(count as u32, map)?;
            left = left.skip(count);
        }
        Ok(true)
    }

    /// The places around one that have its properties, where it is right.
    fn stretch_around(&mut self, alloc: Global, fc: u32) -> Result<Option<CharacterStretch>, Memory>
        requires kind { self.old.kind ≡ Chpx }
        ensures same { self.new ≡ self.old }
        ensures around { IfOk result (λ stretch. MatchOption stretch
            (¬ (IsValidPlace Chpx self.old.wd self.old.bin fc))
            (λ s. HasPropertiesAround self.old.wd self.old.bin self.old.modifier fc s.first s.last s.map)) }
    {
        match self.made_around(alloc, fc)? {
            None => Ok(None),
            Some(stretch) => Ok(Some(characters_of(stretch))),
        }
    }

    /// Reads the mark at a place; nothing where the place is not right.
    pub fn read_mark(&mut self, alloc: Global, fc: u32) -> Result<Option<DirectMark>, Memory>
        requires kind { self.old.kind ≡ Papx }
        ensures same { self.new ≡ self.old }
        ensures mark { IfOk result (λ mark. MatchOption mark
            (¬ (IsValidPlace Papx self.old.wd self.old.bin fc))
            (λ mark. IsValidPlace Papx self.old.wd self.old.bin fc
            × IsDirectMark self.old.wd self.old.bin fc self.old.modifier mark.istd mark.pap)) }
        ensures formed { IfOk result (λ mark. IfSome mark
            (λ mark. IsFormedModifier self.old.modifier → IsPropertyMap paragraph_groups mark.pap)) }
    {
        match self.made_around(alloc, fc)? {
            None => Ok(None),
            Some(stretch) => Ok(Some(direct_mark(stretch))),
        }
    }

    /// What the list of a place makes, where it is right, and how far around the place it is the list.
    fn made_around(&mut self, alloc: Global, fc: u32) -> Result<Option<DecodedRun>, Memory>
        ensures same { self.new ≡ self.old }
        ensures around { IfOk result (λ stretch. MatchOption stretch
            (¬ (IsValidPlace self.old.kind self.old.wd self.old.bin fc))
            (HasMadeAround self.old fc)) }
    {
        let Some(stretch) = page_around(self.kind, self.wd, self.bin, fc, self.cursor) else {
            return Ok(None);
        };
        self.cursor = stretch.next;
        let source = ListSource {
            kind: self.kind,
            wd: self.wd,
            modifier: &self.modifier,
        };
        let Some(made) = self
            .kept
            .made_of(alloc, &source, stretch.number, stretch.answer)?
        else {
            return Ok(None);
        };
        Ok(Some(DecodedRun {
            first: stretch.first,
            last: stretch.last,
            made,
        }))
    }
}

/// The properties that a stretch makes for its characters.
fn characters_of(stretch: DecodedRun) -> CharacterStretch
    ensures { result ≡ record { first = stretch.first; last = stretch.last; map = stretch.made.map } }
{
    let DecodedRun { first, last, made } = stretch;
    let Decoded { istd: _, map } = made;
    CharacterStretch { first, last, map }
}

/// The mark that a stretch makes.
fn direct_mark(stretch: DecodedRun) -> DirectMark
    ensures { result ≡ record { istd = stretch.made.istd; pap = stretch.made.map } }
{
    let DecodedRun {
        first: _,
        last: _,
        made,
    } = stretch;
    let Decoded { istd, map } = made;
    DirectMark { istd, pap: map }
}

/// The places from `first` to `last`, and the properties that characters have there.
#[derive(Drop)]
struct CharacterStretch {
    first: u32,
    last: u32,
    map: PropMap,
}
