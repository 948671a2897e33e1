// What the lists of pages make, each kept once.
ghost use Rattle.std.specs.Prelude.{◌≡◌, ◌<◌, ◌≤◌, ◌+◌, ◌*◌, ℕ, List, drop, length, slice_range};
ghost use Rattle.std.specs.Prelude.{IfOk, MatchOption, None, OnOk, OnErr};
ghost use Rattle.sprm_table.specs.Sprm.{IsAcceptedList};
ghost use Rattle.prop_map.specs.declared.modifiers.Modifier.{Modifier as TheModifier};
ghost use Rattle.fkp_pages.specs.declared.kind.PageKind.{PageKind as PageType};
ghost use Rattle.fkp_pages.specs.declared.kind.PageKind.TheVariants.{Chpx, Papx};
ghost use Rattle.fkp_pages.specs.declared.kind.RunAnswer.TheVariants.{Found};
ghost use Rattle.fkp_pages.specs.Fkp.{least_list};
ghost use Rattle.fkp_pages.specs.Bin.{page_at};
ghost use Rattle.fkp_pages.specs.Properties.{bare_list};
ghost use Rattle.fkp_pages.specs.Runs.{run_groups};
ghost use Rattle.direct_props.specs.Stretches.{HasValidList};
ghost use Rattle.direct_props.specs.Pages.{IsStreamPage};
ghost use Rattle.direct_props.specs.GrpprlCache.{AreKept, HasNoFault, IsBareMade, IsMadeByAnswer, IsMadeOf};
ghost use Rattle.direct_props.specs.GrpprlCache.{MakesCharacter, MakesMark};

use crate::characters::properties_of;
use crate::lists::{bare, list_in};
use crate::rules::style_len;
use doc_bits::{Memory, get16};
use fkp_pages::{PAGE_LEN, PageKind, RunAnswer};
use grpprl_index::SeenGrpprls;
use prop_map::{Modifier, PropMap};
use std::alloc::Global;

/// What a list and then a modifier make: the style number of a mark, or 0, and properties.
#[derive(Drop)]
pub(crate) struct Decoded {
    pub(crate) istd: u16,
    pub(crate) map: PropMap,
}

impl Decoded {
    /// A copy, which shares the entries of its map.
    fn copy(&self, alloc: Global) -> Result<Decoded, Memory>
        ensures { IfOk result (λ copy. copy ≡ self.now) }
    {
        Ok(Decoded {
            istd: self.istd,
            map: self.map.copy(alloc)?,
        })
    }
}

/// The places from `first` to `last`, and what the list of each of them makes.
#[derive(Drop)]
pub(crate) struct DecodedRun {
    pub(crate) first: u32,
    pub(crate) last: u32,
    pub(crate) made: Decoded,
}

/// Where lists of pages of a kind are, and the modifier that is put over what they make.
#[derive(Drop)]
pub(crate) struct ListSource<'a> {
    pub(crate) kind: PageKind,
    pub(crate) wd: &'a [u8],
    pub(crate) modifier: &'a Modifier,
}

/// What lists make, each with a place where the list is, and what runs without a list make.
#[derive(Drop)]
pub(crate) struct GrpprlCache {
    pub(crate) places: SeenGrpprls,
    pub(crate) made: Vec<Decoded>,
    pub(crate) bare: Option<Decoded>,
}

impl GrpprlCache {
    /// No lists. It takes no memory.
    pub(crate) fn new(alloc: Global) -> GrpprlCache
        ensures lists { (kind : PageType) (wd : List ℕ) (modifier : TheModifier)
            → AreKept kind wd modifier result.places result.made.items }
        ensures bare { result.bare ≡ None }
    {
        GrpprlCache {
            places: SeenGrpprls::new(alloc),
            made: Vec::new(alloc),
            bare: None,
        }
    }

    /// What the list makes that a page answers, where it is right.
    #[inline(always)]
    pub(crate) fn made_of(
        &mut self,
        alloc: Global,
        source: &ListSource<'_>,
        number: u32,
        answer: RunAnswer,
    ) -> Result<Option<Decoded>, Memory>
        requires page { IsStreamPage source.now.wd.now number }
        requires kept { AreKept source.now.kind source.now.wd.now source.now.modifier.now
            self.old.places self.old.made.items }
        requires bare { IsBareMade source.now.kind source.now.modifier.now self.old.bare }
        ensures kept { AreKept source.now.kind source.now.wd.now source.now.modifier.now
            self.new.places self.new.made.items }
        ensures bare { IsBareMade source.now.kind source.now.modifier.now self.new.bare }
        ensures made { IfOk result (λ made. MatchOption made
            (¬ (HasValidList source.now.kind (page_at source.now.wd.now number) answer))
            (λ made. HasValidList source.now.kind (page_at source.now.wd.now number) answer
            × IsMadeByAnswer source.now.kind source.now.modifier.now
            (page_at source.now.wd.now number) answer made)) }
    {
        match answer {
            RunAnswer::Found { from, to } => self.made_at(alloc, source, number, (from, to)),
            RunAnswer::Empty => {
                let made = self.made_bare(alloc, source)?;
                Ok(Some(made))
            }
            RunAnswer::NoRun => Ok(None),
            RunAnswer::BadCount => Ok(None),
            RunAnswer::Leaves { .. } => Ok(None),
        }
    }

    /// What a run without a list makes, which is made once.
    fn made_bare(&mut self, alloc: Global, source: &ListSource<'_>) -> Result<Decoded, Memory>
        requires bare { IsBareMade source.now.kind source.now.modifier.now self.old.bare }
        ensures made { IfOk result (IsMadeOf source.now.kind (bare_list source.now.kind) source.now.modifier.now) }
        ensures bare { IsBareMade source.now.kind source.now.modifier.now self.new.bare }
        ensures lists { (self.new.places ≡ self.old.places) × (self.new.made.items ≡ self.old.made.items) }
    {
        if let Some(made) = &self.bare {
            return made.copy(alloc);
        }
        let made = make(alloc, source, bare(source.kind))?;
        let copy = made.copy(alloc)?;
        self.bare = Some(made);
        Ok(copy)
    }

    /// What the list makes that is in a range of a page, where it is right. A list that is not kept is checked and
    /// acted with, and kept.
    #[inline(always)]
    fn made_at(
        &mut self,
        alloc: Global,
        source: &ListSource<'_>,
        number: u32,
        range: (usize, usize),
    ) -> Result<Option<Decoded>, Memory>
        requires page { IsStreamPage source.now.wd.now number }
        requires kept { AreKept source.now.kind source.now.wd.now source.now.modifier.now
            self.old.places self.old.made.items }
        ensures kept { AreKept source.now.kind source.now.wd.now source.now.modifier.now
            self.new.places self.new.made.items }
        ensures bare { self.new.bare ≡ self.old.bare }
        ensures made { IfOk result (λ made. MatchOption made
            (¬ (HasValidList source.now.kind (page_at source.now.wd.now number) (Found range.0 range.1)))
            (λ made. HasValidList source.now.kind (page_at source.now.wd.now number) (Found range.0 range.1)
            × IsMadeByAnswer source.now.kind source.now.modifier.now
            (page_at source.now.wd.now number) (Found range.0 range.1) made)) }
    {
        let begin = PAGE_LEN * number as usize;
        let (from, to) = range;
        if PAGE_LEN <= from || PAGE_LEN <= to || to < from + style_len(source.kind) {
            return Ok(None);
        }
        let place = (begin + from, begin + to);
        if let Some(known) = self.places.number_at(source.wd, place.0, place.1) {
            let copy = self.made[known].copy(alloc)?;
            return Ok(Some(copy));
        }
        let page = &source.wd[begin..begin + PAGE_LEN];
        match list_in(source.kind, page, from, to) {
            None => Ok(None),
            Some(list) => {
                let made = make(alloc, source, list)?;
                let copy = made.copy(alloc)?;
                self.put(source.wd, place, made)?;
                Ok(Some(copy))
            }
        }
    }

    /// Keeps what a list makes.
    fn put(&mut self, stream: &[u8], place: (usize, usize), made: Decoded) -> Result<(), Memory>
        requires { (place.0 ≤ place.1) × (place.1 ≤ length stream.now) }
        ensures ok { OnOk result ((kind : PageType) (wd : List ℕ) (modifier : TheModifier)
            → HasNoFault kind wd place.0 place.1
            → IsMadeOf kind (slice_range wd place.0 place.1) modifier made
            → AreKept kind wd modifier self.old.places self.old.made.items
            → AreKept kind wd modifier self.new.places self.new.made.items) }
        ensures err { OnErr result ((self.new.places ≡ self.old.places)
            × (self.new.made.items ≡ self.old.made.items)) }
        ensures bare { self.new.bare ≡ self.old.bare }
    {
        let before = self.made.len();
        self.made.push(made)?;
        match self.places.add(stream, place.0, place.1) {
            Ok(()) => Ok(()),
            Err(memory) => {
                self.made.truncate(before);
                Err(memory)
            }
        }
    }
}

/// What a list and then a modifier make.
fn make(alloc: Global, source: &ListSource<'_>, list: &[u8]) -> Result<Decoded, Memory>
    requires long { least_list source.now.kind ≤ length list.now }
    requires accepted { IsAcceptedList (drop (least_list source.now.kind) list.now) (run_groups source.now.kind) }
    ensures { IfOk result (IsMadeOf source.now.kind list.now source.now.modifier.now) }
{
    match source.kind {
        PageKind::Chpx => make_character(alloc, list, source.modifier),
        PageKind::Papx => make_mark(alloc, list, source.modifier),
    }
}

/// What the list of a character and then a modifier make.
fn make_character(alloc: Global, list: &[u8], modifier: &Modifier) -> Result<Decoded, Memory>
    requires { IsAcceptedList (drop (least_list Chpx) list.now) (run_groups Chpx) }
    ensures { IfOk result (λ made. MakesCharacter list.now modifier.now made.map) }
{
    let acted = properties_of(alloc, PageKind::Chpx, list)?;
    let map = modifier.on_char(alloc, &acted.map)?;
    Ok(Decoded { istd: 0, map })
}

/// What the list of a mark, which begins with its style number, and then a modifier make.
fn make_mark(alloc: Global, list: &[u8], modifier: &Modifier) -> Result<Decoded, Memory>
    requires long { 2 ≤ length list.now }
    requires accepted { IsAcceptedList (drop (least_list Papx) list.now) (run_groups Papx) }
    ensures { IfOk result (λ made. MakesMark list.now modifier.now made.istd made.map) }
{
    let acted = properties_of(alloc, PageKind::Papx, list)?;
    let istd = acted.istd.unwrap_or(get16(list, 0));
    let after = modifier.on_mark(alloc, istd, &acted.map)?;
    Ok(Decoded {
        istd: after.istd.unwrap_or(istd),
        map: after.map,
    })
}
