// The FAT and the mini FAT: a table that is in sectors of the file, and the chains that go by it.
ghost use Rattle.std.specs.Prelude.{◌≡◌, ◌⊎◌, ◌*◌, ◌^◌, ◌<◌, ◌≤◌, length, IfOk, IsTrue, ◌↔◌};
ghost use Rattle.doc_bits.specs.Rules.{LeastOrNone};
ghost use Rattle.cfb_sectors.specs.SectorChain.{IsFullPath};
ghost use Rattle.cfb_sectors.specs.Chain.{AreSectorsOf, BreaksChain};
ghost use Rattle.cfb_sectors.specs.Tables.{TablePlace, table_at};
ghost use Rattle.cfb_sectors.specs.Ends.{IsEnd};
ghost use Rattle.cfb_sectors.specs.Marks.{IsMarked, IsVisitedSince};
ghost use Rattle.cfb_sectors.specs.Walk.{IsChainWalk};
ghost use Rattle.cfb_sectors.specs.Judged.{IsFoundChain};

use crate::chain::{Chain, Claim, ENDOFCHAIN, Walked, last_sector, walk, walk_on};
use crate::ends::{End, Ends, settle, walk_fresh};
use crate::fat::{read_table, table_place};
use crate::marks::Marks;
use doc_bits::Memory;
use std::alloc::Global;
use std::marker::Model;

/// A table of the file, read whole.
#[derive(Drop)]
pub struct Table<'a> {
    file: &'a [u8],
    sectors: Vec<u32>,
    entries: Vec<u32>,
    marks: Marks,
    ends: Ends,
}

impl<'a> Model for Table<'a> {
    ghost use Rattle.std.specs.Prelude.{length};
    ghost use Rattle.cfb_sectors.specs.Tables.{TablePlace, RemembersTable};

    ghost Value = { TablePlace };

    ghost view = { λ t. record { file = t.file.now; sectors = t.sectors.items; valid = length t.marks } };

    ghost invariant = { λ t. RemembersTable t.file.now t.sectors.items t.entries.items (length t.marks) t.ends };
}

impl<'a> Table<'a> {
    /// Reads the table that is in these sectors. The sector numbers below `valid` are valid.
    pub fn read(
        alloc: Global,
        file: &'a [u8],
        sectors: Vec<u32>,
        valid: usize,
    ) -> Result<Table<'a>, Memory>
        requires inside { AreSectorsOf file.now sectors.items }
        requires room { valid ≤ 128 * length sectors.items }
        ensures { IfOk result (λ table. table ≡ record { file = file.now; sectors = sectors.items; valid = valid }) }
    {
        let entries = read_table(alloc, file, &sectors)?;
        let marks = Marks::new(alloc, valid)?;
        let ends = Ends::new(alloc, valid)?;
        Ok(Table {
            file,
            sectors,
            entries,
            marks,
            ends,
        })
    }

    /// The sectors in which it is.
    pub fn sectors(&self) -> &[u32]
        ensures { result.now ≡ self.now.sectors }
    {
        &self.sectors
    }

    /// The number below which sectors are valid.
    pub fn valid(&self) -> usize
        ensures { result ≡ self.now.valid }
    {
        self.marks.len()
    }

    /// Where the entry of a sector is, in bytes from the start of the file.
    pub fn place(&self, sector: usize) -> u32
        requires { sector < self.now.valid }
        ensures { result ≡ (table_at self.now).place sector }
    {
        table_place(&self.sectors, sector) as u32
    }

    /// The entry of a sector.
    fn entry(&self, sector: u32) -> u32
        requires { sector < self.now.valid }
        ensures { result ≡ (table_at self.now).entry sector }
    {
        self.entries[sector as usize]
    }

    /// Walks on from a sector over those that are not marked, and marks them.
    pub(crate) fn walk_on(
        &self,
        alloc: Global,
        marks: &mut Marks,
        start: u32,
    ) -> Result<Walked, Memory>
        requires { length marks.old ≡ self.now.valid }
        ensures walk { IfOk result (λ walked.
            IsChainWalk (table_at self.now).entry self.now.valid start walked.next walked.path.items) }
        ensures met { IfOk result (λ walked. IsVisitedSince marks.old marks.new walked.path.items) }
        ensures stops { IfOk result (λ walked. (self.now.valid ≤ walked.next) ⊎ IsMarked marks.new walked.next) }
        ensures range { self.now.valid < 2 ^ 31 }
        ensures kept { length marks.new ≡ length marks.old }
    {
        let walked = walk_on(alloc, &self.entries, marks, start)?;
        Ok(walked)
    }

    /// The path from a sector as far as it goes.
    pub fn path(&mut self, alloc: Global, start: u32) -> Result<Vec<u32>, Memory>
        requires { start < self.old.valid }
        ensures path { IfOk result (λ path. IsFullPath (table_at self.old).entry self.old.valid start path.items) }
        ensures short { IfOk result (λ path. length path.items < 2 ^ 31) }
        ensures range { self.old.valid < 2 ^ 31 }
        ensures kept { self.new ≡ self.old }
    {
        let path = walk(alloc, &self.entries, &mut self.marks, start)?;
        Ok(path)
    }

    /// The chain of a claim, or the place at which it is broken.
    pub fn find(&mut self, alloc: Global, claim: &Claim) -> Result<Chain, Memory>
        ensures found { IfOk result (IsFoundChain (table_at self.old) claim.now) }
        ensures kept { self.new ≡ self.old }
    {
        if claim.start as usize >= self.valid() {
            return Ok(Chain::Breaks(claim.field));
        }
        let path = self.path(alloc, claim.start)?;
        let last = last_sector(&path);
        if self.entry(last) != ENDOFCHAIN || is_less(path.len(), claim) {
            return Ok(Chain::Breaks(self.place(last as usize)));
        }
        Ok(Chain::Found(path))
    }

    /// The end of the path from a sector.
    fn end(&mut self, alloc: Global, start: u32) -> Result<End, Memory>
        requires { start < self.old.valid }
        ensures end { IfOk result (IsEnd (table_at self.old).entry self.old.valid start) }
        ensures range { self.old.valid < 2 ^ 31 }
        ensures kept { self.new ≡ self.old }
    {
        if let Some(end) = self.ends.get(start as usize) {
            return Ok(end);
        }
        let path = walk_fresh(alloc, &self.entries, &mut self.marks, &self.ends, start)?;
        let end = settle(&self.entries, &mut self.ends, &path);
        Ok(end)
    }

    /// The place at which the chain of a claim is broken.
    pub fn broken_at(&mut self, alloc: Global, claim: &Claim) -> Result<Option<u32>, Memory>
        ensures broken { IfOk result (LeastOrNone (BreaksChain (table_at self.old) claim.now)) }
        ensures kept { self.new ≡ self.old }
    {
        if claim.start as usize >= self.valid() {
            return Ok(Some(claim.field));
        }
        let end = self.end(alloc, claim.start)?;
        if self.entry(end.last) != ENDOFCHAIN || is_less(end.count as usize, claim) {
            return Ok(Some(self.place(end.last as usize)));
        }
        Ok(None)
    }
}

/// Whether so many sectors hold fewer bytes than a claim wants.
fn is_less(count: usize, claim: &Claim) -> bool
    requires { count < 2 ^ 31 }
    ensures { IsTrue result ↔ count * claim.now.unit < claim.now.size }
{
    (count as u64) * (claim.unit as u64) < claim.size as u64
}
