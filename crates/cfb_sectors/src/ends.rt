// Where the full path from a sector ends, remembered for each sector that a path has met.
ghost use Rattle.std.specs.Prelude.{◌≡◌, ℕ, ◌+◌, ◌-◌, ◌^◌, ◌<◌, ◌≤◌, IfOk, IfSome, MatchOption, length};
ghost use Rattle.std.specs.Prelude.{slice_index};
ghost use Rattle.cfb_sectors.specs.SectorChain.{HasSector};
ghost use Rattle.cfb_sectors.specs.Ends.{IsEnd, IsKnownEndAt, end_at, with_known_end, Remembers, IsFreshPath};
ghost use Rattle.cfb_sectors.specs.Ends.{GoesOnAtKnown, before};
ghost use Rattle.cfb_sectors.specs.Ends.{IsRingEnd};

use crate::chain::last_sector;
use crate::marks::{Marks, no_stamps};
use doc_bits::Memory;
use std::alloc::Global;
use std::marker::Model;

/// How many sectors a path has, and its last one.
#[derive(Clone, Copy)]
pub struct End {
    pub count: u32,
    pub last: u32,
}

/// The ends that are known, for each sector that of the path from it.
#[derive(Drop)]
pub struct Ends {
    counts: Vec<u32>,
    lasts: Vec<u32>,
}

impl Model for Ends {
    ghost use Rattle.std.specs.Prelude.{◌≡◌, length};
    ghost use Rattle.cfb_sectors.specs.Ends.{KnownEnds};

    ghost Value = { KnownEnds };

    ghost view = { λ e. record { counts = e.counts.items; lasts = e.lasts.items } };

    ghost invariant = { λ e. length e.lasts.items ≡ length e.counts.items };
}

impl Ends {
    /// So many sectors, none of them known.
    pub(crate) fn new(alloc: Global, count: usize) -> Result<Ends, Memory>
        ensures counts { IfOk result (λ ends. length ends.counts ≡ count) }
        ensures lasts { IfOk result (λ ends. length ends.lasts ≡ count) }
        ensures none { IfOk result (λ ends. (s : ℕ) → ¬ IsKnownEndAt ends s) }
    {
        let counts = no_stamps(alloc, count)?;
        let lasts = no_stamps(alloc, count)?;
        Ok(Ends { counts, lasts })
    }

    /// The number of sectors.
    pub(crate) fn len(&self) -> usize
        ensures { result ≡ length self.now.counts }
    {
        self.counts.len()
    }

    /// The end of the path from a sector that is known.
    fn at(&self, sector: usize) -> End
        requires { IsKnownEndAt self.now sector }
        ensures { result ≡ end_at self.now sector }
    {
        End {
            count: self.counts[sector],
            last: self.lasts[sector],
        }
    }

    /// The end of the path from a sector, where it is known.
    pub(crate) fn get(&self, sector: usize) -> Option<End>
        ensures { MatchOption result
            (¬ IsKnownEndAt self.now sector)
            (λ end. IsKnownEndAt self.now sector × (end ≡ end_at self.now sector)) }
    {
        if sector >= self.counts.len() || self.counts[sector] == 0 {
            return None;
        }
        Some(self.at(sector))
    }

    /// Remembers the end of the path from a sector.
    fn put(&mut self, sector: usize, end: End)
        requires { sector < length self.old.counts }
        ensures { self.new ≡ with_known_end self.old sector end }
    {
        self.counts[sector] = end.count;
        self.lasts[sector] = end.last;
    }
}

/// The path from a sector that is not known, as far as it is not known.
pub(crate) fn walk_fresh(
    alloc: Global,
    entries: &[u32],
    marks: &mut Marks,
    ends: &Ends,
    start: u32,
) -> Result<Vec<u32>, Memory>
    requires room { length marks.old ≤ length entries.now }
    requires starts { start < length marks.old }
    requires fresh { ¬ IsKnownEndAt ends.now start }
    ensures path { IfOk result (λ path.
        IsFreshPath (λ s. slice_index entries.now s) (length marks.old) ends.now start path.items) }
    ensures kept { length marks.new ≡ length marks.old }
{
    marks.begin();
    let mut path = Vec::new(alloc);
    let mut at = start as usize;
    while at < marks.len() && !marks.has(at) && ends.get(at).is_none() {
        marks.meet(at);
        path.push(at as u32)?;
        at = entries[at] as usize;
    }
    Ok(path)
}

/// The end of the path from a sector that goes on at a known one, or is the last.
fn end_before(sector: u32, rest: Option<End>) -> End
    requires { IfSome rest (λ end. end.count < 2 ^ 32 - 1) }
    ensures { result ≡ before sector rest }
{
    match rest {
        Some(end) => End {
            count: end.count + 1,
            last: end.last,
        },
        None => End {
            count: 1,
            last: sector,
        },
    }
}

/// Remembers the end of the path from a sector, where it is not known.
fn note(entries: &[u32], ends: &mut Ends, sector: u32)
    requires room { length ends.old.counts ≤ length entries.now }
    requires few { length ends.old.counts < 2 ^ 31 }
    requires remembers { Remembers (λ s. slice_index entries.now s) (length ends.old.counts) ends.old }
    requires inside { sector < length ends.old.counts }
    requires goes_on { slice_index entries.now sector < length ends.old.counts
        → IsKnownEndAt ends.old (slice_index entries.now sector) }
    ensures remembers { Remembers (λ s. slice_index entries.now s) (length ends.old.counts) ends.new }
    ensures kept { (s : ℕ) → IsKnownEndAt ends.old s → IsKnownEndAt ends.new s }
    ensures known { IsKnownEndAt ends.new sector }
{
    if ends.get(sector as usize).is_some() {
        return;
    }
    let rest = ends.get(entries[sector as usize] as usize);
    ends.put(sector as usize, end_before(sector, rest));
}

/// Remembers the ends of the paths from all sectors of a path.
pub(crate) fn remember(entries: &[u32], ends: &mut Ends, path: &[u32])
    requires room { length ends.old.counts ≤ length entries.now }
    requires few { length ends.old.counts < 2 ^ 31 }
    requires remembers { Remembers (λ s. slice_index entries.now s) (length ends.old.counts) ends.old }
    requires within { (i : ℕ) → i < length path.now → slice_index path.now i < length ends.old.counts }
    requires links { (i : ℕ) → i + 1 < length path.now
        → slice_index entries.now (slice_index path.now i) ≡ slice_index path.now (i + 1) }
    requires goes_on { GoesOnAtKnown (λ s. slice_index entries.now s) (length ends.old.counts) ends.old path.now }
    ensures remembers { Remembers (λ s. slice_index entries.now s) (length ends.old.counts) ends.new }
    ensures known { (i : ℕ) → i < length path.now → IsKnownEndAt ends.new (slice_index path.now i) }
{
    for i in 0..path.len() {
        note(entries, ends, path[path.len() - 1 - i]);
    }
}

/// How many sectors of a path are from a sector on.
fn count_from(path: &[u32], sector: u32) -> usize
    requires { HasSector path.now sector }
    ensures some { 0 < result }
    ensures inside { result ≤ length path.now }
    ensures here { slice_index path.now (length path.now - result) ≡ sector }
{
    let mut count = 1;
    while path[path.len() - count] != sector {
        count += 1;
    }
    count
}

/// Remembers the ends of the paths from all sectors of a ring, of which that from `start` is given.
fn remember_ring(entries: &[u32], ends: &mut Ends, start: u32, end: End)
    requires room { length ends.old.counts ≤ length entries.now }
    requires remembers { Remembers (λ s. slice_index entries.now s) (length ends.old.counts) ends.old }
    requires ring { IsRingEnd (λ s. slice_index entries.now s) (length ends.old.counts) start end }
    ensures remembers { Remembers (λ s. slice_index entries.now s) (length ends.old.counts) ends.new }
    ensures known { IsKnownEndAt ends.new start }
{
    let mut at = start;
    let mut last = end.last;
    for _met in 0..end.count {
        let count = end.count;
        ends.put(at as usize, End { count, last });
        last = at;
        at = entries[at as usize];
    }
}

/// Where a path of sectors that are not known comes back to itself, remembers the ends of the paths from the sectors of
/// its ring.
fn settle_ring(entries: &[u32], ends: &mut Ends, path: &[u32])
    requires room { length ends.old.counts ≤ length entries.now }
    requires few { length ends.old.counts < 2 ^ 31 }
    requires remembers { Remembers (λ s. slice_index entries.now s) (length ends.old.counts) ends.old }
    requires fresh { IsFreshPath (λ s. slice_index entries.now s) (length ends.old.counts) ends.old
        (slice_index path.now 0) path.now }
    ensures remembers { Remembers (λ s. slice_index entries.now s) (length ends.old.counts) ends.new }
    ensures goes_on { GoesOnAtKnown (λ s. slice_index entries.now s) (length ends.old.counts) ends.new path.now }
{
    let last = last_sector(path);
    let next = entries[last as usize];
    if next as usize >= ends.len() || ends.get(next as usize).is_some() {
        return;
    }
    let count = count_from(path, next) as u32;
    remember_ring(entries, ends, next, End { count, last });
}

/// The end of a path of sectors that are not known. It is remembered, and those of the paths from all its sectors.
pub(crate) fn settle(entries: &[u32], ends: &mut Ends, path: &[u32]) -> End
    requires room { length ends.old.counts ≤ length entries.now }
    requires few { length ends.old.counts < 2 ^ 31 }
    requires remembers { Remembers (λ s. slice_index entries.now s) (length ends.old.counts) ends.old }
    requires fresh { IsFreshPath (λ s. slice_index entries.now s) (length ends.old.counts) ends.old
        (slice_index path.now 0) path.now }
    ensures end { IsEnd (λ s. slice_index entries.now s) (length ends.old.counts) (slice_index path.now 0) result }
    ensures remembers { Remembers (λ s. slice_index entries.now s) (length ends.old.counts) ends.new }
{
    settle_ring(entries, ends, path);
    remember(entries, ends, path);
    ends.at(path[0] as usize)
}
