// Chains of sectors that are in a row, one chain after another.
ghost use Rattle.std.specs.Prelude.{◌≡◌, ◌^◌, ◌<◌, IfOk, length, sum, slice_index};
ghost use Rattle.cfb_layout.specs.Counts.{first_sector};

use cfb_sectors::ENDOFCHAIN;
use doc_bits::Memory;
use std::alloc::Global;
use std::marker::Model;

/// Chains by their counts of sectors, the first from sector 0 on.
#[derive(Drop)]
pub struct Chains {
    counts: Vec<u32>,
    starts: Vec<u32>,
    total: u32,
}

impl Model for Chains {
    ghost use Rattle.std.specs.Prelude.{List, ℕ};
    ghost use Rattle.cfb_layout.specs.Chains.{AreChains};

    ghost Value = { List ℕ };

    ghost view = { λ c. c.counts.items };

    ghost invariant = { λ c. AreChains c.counts.items c.starts.items c.total };
}

impl Chains {
    /// Chains of these counts.
    pub(crate) fn new(alloc: Global, counts: Vec<u32>) -> Result<Chains, Memory>
        requires { sum counts.items < 2 ^ 32 }
        ensures { IfOk result (λ chains. chains ≡ counts.items) }
    {
        let mut starts = Vec::new(alloc);
        let mut total = 0;
        for count in &counts {
            starts.push(total)?;
            total += *count;
        }
        Ok(Chains {
            counts,
            starts,
            total,
        })
    }

    /// The counts of sectors.
    pub(crate) fn counts(&self) -> &[u32]
        ensures is { result.now ≡ self.now }
        ensures few { sum self.now < 2 ^ 32 }
    {
        &self.counts
    }

    /// All sectors.
    pub(crate) fn total(&self) -> u32
        ensures { result ≡ sum self.now }
    {
        self.total
    }

    /// The count of the i-th chain.
    pub(crate) fn count(&self, i: usize) -> u32
        requires { i < length self.now }
        ensures { result ≡ slice_index self.now i }
    {
        self.counts[i]
    }

    /// The start of the i-th chain, where it has a sector.
    pub(crate) fn first_sector(&self, i: usize) -> u32
        requires { i < length self.now }
        ensures { result ≡ first_sector self.now i }
    {
        if 0 < self.counts[i] {
            self.starts[i]
        } else {
            ENDOFCHAIN
        }
    }
}
