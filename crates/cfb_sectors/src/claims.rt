// Rule 14: sectors that two parts of the file have.
ghost use Rattle.std.specs.Prelude.{◌≡◌, ℕ, ◌^◌, ◌<◌, IfOk, List, length};
ghost use Rattle.doc_bits.specs.Rules.{LeastOrNone};
ghost use Rattle.cfb_sectors.specs.SectorChain.{HasSector, IsSectorChain};
ghost use Rattle.cfb_sectors.specs.Marks.{IsMarked};
ghost use Rattle.cfb_sectors.specs.Tables.{table_at};
ghost use Rattle.cfb_sectors.specs.Claims.{AreDistinctBelow, IsClosedClaim, IsUnshared, IsSharedPlace, TakesSectors};
ghost use Rattle.cfb_sectors.specs.Claims.{TakesWalked};

use crate::chain::Walked;
use crate::marks::Marks;
use crate::table::Table;
use doc_bits::{Memory, lesser};
use std::alloc::Global;
use std::marker::Model;

/// The sectors of a table that are taken, and those that were taken twice.
#[derive(Drop)]
pub struct Claims {
    taken: Marks,
    shared: Marks,
}

impl Model for Claims {
    ghost use Rattle.std.specs.Prelude.{◌≡◌, length};
    ghost use Rattle.cfb_sectors.specs.Claims.{Claimed};

    ghost Value = { Claimed };

    ghost view = { λ c. record { taken = c.taken; shared = c.shared } };

    ghost invariant = { λ c. length c.shared ≡ length c.taken };
}

impl Claims {
    /// So many sectors, none of them taken.
    pub fn new(alloc: Global, count: usize) -> Result<Claims, Memory>
        ensures len { IfOk result (λ claims. length claims.taken ≡ count) }
        ensures none { IfOk result (λ claims. (s : ℕ) → ¬ IsMarked claims.taken s) }
        ensures unshared { IfOk result IsUnshared }
    {
        let taken = Marks::new(alloc, count)?;
        let shared = Marks::new(alloc, count)?;
        Ok(Claims { taken, shared })
    }

    /// Takes a sector.
    fn take(&mut self, sector: usize)
        requires { sector < length self.old.taken }
        ensures takes { TakesSectors (λ s. s ≡ sector) self.old self.new }
        ensures len { length self.new.taken ≡ length self.old.taken }
    {
        if self.taken.has(sector) {
            self.shared.meet(sector);
            return;
        }
        self.taken.meet(sector);
    }

    /// Takes the sectors of an owner.
    pub fn claim(&mut self, sectors: &[u32])
        requires { AreDistinctBelow (length self.old.taken) sectors.now }
        ensures takes { TakesSectors (HasSector sectors.now) self.old self.new }
        ensures len { length self.new.taken ≡ length self.old.taken }
    {
        for sector in sectors {
            self.take(*sector as usize);
        }
    }

    /// Takes the chain that begins with a sector. Only the sectors that were free are walked, and those that become
    /// shared: what follows a taken sector is taken, and what follows a shared one is shared.
    pub fn claim_chain(
        &mut self,
        alloc: Global,
        table: &Table<'_>,
        start: u32,
    ) -> Result<Walked, Memory>
        requires count { length self.old.taken ≡ table.now.valid }
        requires closed { IsClosedClaim (table_at table.now) self.old }
        ensures takes { IfOk result (λ walked. (chain : List ℕ)
            → IsSectorChain (table_at table.now).entry table.now.valid start chain
            → TakesWalked chain table.now.valid self.old self.new walked) }
        ensures range { IfOk result (λ _. table.now.valid < 2 ^ 31) }
        ensures len { length self.new.taken ≡ length self.old.taken }
    {
        let walked = table.walk_on(alloc, &mut self.taken, start)?;
        table.walk_on(alloc, &mut self.shared, walked.next)?;
        Ok(walked)
    }

    /// The place in the table of a sector, where it was taken twice.
    fn shared_place(&self, table: &Table<'_>, sector: usize) -> Option<u32>
        requires count { length self.now.taken ≡ table.now.valid }
        requires inside { sector < length self.now.taken }
        ensures { LeastOrNone
            (λ place. IsMarked self.now.shared sector × (place ≡ (table_at table.now).place sector)) result }
    {
        if self.shared.has(sector) {
            return Some(table.place(sector));
        }
        None
    }

    /// The least place in the table of a sector that was taken twice.
    pub fn least(&self, table: &Table<'_>) -> Option<u32>
        requires { length self.now.taken ≡ table.now.valid }
        ensures { LeastOrNone (IsSharedPlace self.now (table_at table.now).place) result }
    {
        let mut least = None;
        for sector in 0..self.taken.len() {
            least = lesser(least, self.shared_place(table, sector));
        }
        least
    }
}
