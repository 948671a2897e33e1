// Which sectors a walk has met.
ghost use Rattle.std.specs.Prelude.{◌≡◌, ℕ, ◌<◌, IfOk, length, slice_index, slice_index_or, slice_set, true, false};
ghost use Rattle.cfb_sectors.specs.Marks.{IsMarked};

use doc_bits::Memory;
use std::alloc::Global;
use std::marker::Model;

/// Marks of sectors. Those of an earlier walk are not cleared one by one: each walk has a number of its own.
#[derive(Drop)]
pub struct Marks {
    stamps: Vec<u32>,
    stamp: u32,
}

impl Model for Marks {
    ghost use Rattle.std.specs.Prelude.{List, Bool};
    ghost use Rattle.cfb_sectors.specs.Marks.{stamped_marks, AreStamps};

    ghost Value = { List Bool };

    ghost view = { λ m. stamped_marks m.stamps.items m.stamp };

    ghost invariant = { λ m. AreStamps m.stamps.items m.stamp };
}

impl Marks {
    /// So many sectors, none of them marked.
    pub(crate) fn new(alloc: Global, count: usize) -> Result<Marks, Memory>
        ensures len { IfOk result (λ marks. length marks ≡ count) }
        ensures none { IfOk result (λ marks. (s : ℕ) → ¬ IsMarked marks s) }
    {
        let stamps = no_stamps(alloc, count)?;
        Ok(Marks { stamps, stamp: 1 })
    }

    /// The number of sectors.
    pub(crate) fn len(&self) -> usize
        ensures { result ≡ length self.now }
    {
        self.stamps.len()
    }

    /// Begins a walk, which has met no sector.
    pub(crate) fn begin(&mut self)
        ensures len { length self.new ≡ length self.old }
        ensures none { (s : ℕ) → ¬ IsMarked self.new s }
    {
        if self.stamp == u32::MAX {
            self.stamps.fill(0);
            self.stamp = 0;
        }
        self.stamp += 1;
    }

    /// Whether the walk has met a sector.
    pub(crate) fn has(&self, sector: usize) -> bool
        requires { sector < length self.now }
        ensures { result ≡ slice_index_or self.now sector false }
    {
        self.stamps[sector] == self.stamp
    }

    /// Notes that the walk has met a sector.
    pub(crate) fn meet(&mut self, sector: usize)
        requires { sector < length self.old }
        ensures { self.new ≡ slice_set self.old sector true }
    {
        self.stamps[sector] = self.stamp;
    }
}

/// So many sectors that no walk has met.
pub(crate) fn no_stamps(alloc: Global, count: usize) -> Result<Vec<u32>, Memory>
    ensures len { IfOk result (λ stamps. length stamps.items ≡ count) }
    ensures clear { IfOk result (λ stamps. (s : ℕ) → slice_index stamps.items s < 1) }
{
    let stamps = vec![in alloc; 0u32; count]?;
    Ok(stamps)
}
