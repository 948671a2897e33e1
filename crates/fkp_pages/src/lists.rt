// Lists of runs, of the first fcs of pages, and of what a bin table names. After want of memory each
// is what it was.
ghost use Rattle.std.specs.Prelude.{◌≡◌, ◌<◌, ℕ, List, [], ◌∷◌, ◌++◌};
ghost use Rattle.std.specs.Prelude.{length, Some, slice_get, slice_index_or, OnOk};
ghost use Rattle.std.specs.Prelude.{OnErr};
ghost use Rattle.std.specs.List.{All};
ghost use Rattle.fkp_pages.specs.declared.lists.Run.{Run};
ghost use Rattle.fkp_pages.specs.Runs.{HasRunNumbers};

use doc_bits::Memory;
use prop_map::PropMap;
use std::alloc::Global;
use std::marker::Model;

/// A run: byte places from `from` to before `to`, and their properties. A run of characters has
/// `istd` 0, which nothing reads.
#[derive(Drop)]
pub struct Run {
    pub from: u32,
    pub to: u32,
    pub istd: u16,
    pub map: PropMap,
}

/// A range of a bin table: the fc where it begins, and the number of its page.
#[derive(Clone, Copy)]
pub struct Bin {
    pub first: u32,
    pub page: u32,
}

/// Runs of characters.
#[derive(Drop)]
pub struct ChpRuns {
    pub(crate) items: Vec<Run>,
}

impl Model for ChpRuns {
    ghost use Rattle.std.specs.Prelude.{List};
    ghost use Rattle.std.specs.List.{All};
    ghost use Rattle.std.specs.Coded.{coded_list};
    ghost use Rattle.fkp_pages.specs.declared.lists.Run.{Run};
    ghost use Rattle.fkp_pages.specs.contracts.lists.Run as row;
    ghost use Rattle.fkp_pages.specs.Runs.{HasRunNumbers};

    ghost Value = { List Run };

    ghost coded = { coded_list row.the_row.coded };

    ghost view = { λ r. r.items.items };

    ghost invariant = { λ r. All HasRunNumbers r.items.items };
}

impl ChpRuns {
    pub fn new(alloc: Global) -> ChpRuns
        ensures { result ≡ [] }
    {
        ChpRuns {
            items: Vec::new(alloc),
        }
    }

    /// How many runs there are.
    pub fn len(&self) -> usize
        ensures count { result ≡ length self.now }
        ensures numbers { All HasRunNumbers self.now }
    {
        self.items.len()
    }

    /// Where a run begins and ends, and its properties.
    pub fn get(&self, i: usize) -> (u32, u32, &PropMap)
        requires { i < length self.now }
        ensures { (other : Run) →
            let run = slice_index_or self.now i other in
            (result.0 ≡ run.from) × ((result.1 ≡ run.to) × (result.2.now ≡ run.map)) }
    {
        let run = &self.items[i];
        (run.from, run.to, &run.map)
    }

    /// Puts a run last.
    pub fn add(&mut self, from: u32, to: u32, map: PropMap) -> Result<(), Memory>
        ensures ok { OnOk result
            (self.new ≡ self.old ++ (record { from = from; to = to; istd = 0; map = map }) ∷ []) }
        ensures err { OnErr result (self.new ≡ self.old) }
        ensures numbers { HasRunNumbers (record { from = from; to = to; istd = 0; map = map }) }
    {
        self.items.push(Run {
            from,
            to,
            istd: 0,
            map,
        })?;
        Ok(())
    }
}

/// Runs of paragraphs, each with its style number.
#[derive(Drop)]
pub struct PapRuns {
    pub(crate) items: Vec<Run>,
}

impl Model for PapRuns {
    ghost use Rattle.std.specs.Prelude.{List};
    ghost use Rattle.std.specs.List.{All};
    ghost use Rattle.std.specs.Coded.{coded_list};
    ghost use Rattle.fkp_pages.specs.declared.lists.Run.{Run};
    ghost use Rattle.fkp_pages.specs.contracts.lists.Run as row;
    ghost use Rattle.fkp_pages.specs.Runs.{HasRunNumbers};

    ghost Value = { List Run };

    ghost coded = { coded_list row.the_row.coded };

    ghost view = { λ r. r.items.items };

    ghost invariant = { λ r. All HasRunNumbers r.items.items };
}

impl PapRuns {
    pub fn new(alloc: Global) -> PapRuns
        ensures { result ≡ [] }
    {
        PapRuns {
            items: Vec::new(alloc),
        }
    }

    /// How many runs there are.
    pub fn len(&self) -> usize
        ensures count { result ≡ length self.now }
        ensures numbers { All HasRunNumbers self.now }
    {
        self.items.len()
    }

    /// Where a run begins and ends, its style number, and its properties.
    pub fn get(&self, i: usize) -> (u32, u32, u16, &PropMap)
        requires { i < length self.now }
        ensures { (other : Run) →
            let run = slice_index_or self.now i other in
            (result.0 ≡ run.from) × ((result.1 ≡ run.to)
            × ((result.2 ≡ run.istd) × (result.3.now ≡ run.map))) }
    {
        let run = &self.items[i];
        (run.from, run.to, run.istd, &run.map)
    }

    /// Puts a run last.
    pub fn add(&mut self, from: u32, to: u32, istd: u16, map: PropMap) -> Result<(), Memory>
        ensures ok { OnOk result
            (self.new ≡ self.old ++ (record { from = from; to = to; istd = istd; map = map }) ∷ []) }
        ensures err { OnErr result (self.new ≡ self.old) }
        ensures numbers { HasRunNumbers (record { from = from; to = to; istd = istd; map = map }) }
    {
        self.items.push(Run {
            from,
            to,
            istd,
            map,
        })?;
        Ok(())
    }
}

/// The first fc of each page.
#[derive(Drop)]
pub struct Starts {
    pub(crate) items: Vec<u32>,
}

impl Model for Starts {
    ghost Value = { List ℕ };

    ghost view = { λ s. s.items.items };
}

impl Starts {
    pub fn new(alloc: Global) -> Starts
        ensures { result ≡ [] }
    {
        Starts {
            items: Vec::new(alloc),
        }
    }

    pub fn len(&self) -> usize
        ensures { result ≡ length self.now }
    {
        self.items.len()
    }

    pub fn get(&self, i: usize) -> u32
        requires { i < length self.now }
        ensures { slice_get self.now i ≡ Some result }
    {
        self.items[i]
    }

    pub fn add(&mut self, first: u32) -> Result<(), Memory>
        ensures ok { OnOk result (self.new ≡ self.old ++ first ∷ []) }
        ensures err { OnErr result (self.new ≡ self.old) }
    {
        self.items.push(first)?;
        Ok(())
    }
}

/// What a bin table names: for each range its first fc and the number of its page.
#[derive(Drop)]
pub struct Bins {
    pub(crate) items: Vec<Bin>,
}

impl Model for Bins {
    ghost use Rattle.std.specs.Prelude.{List};
    ghost use Rattle.fkp_pages.specs.declared.lists.Bin.{Bin};

    ghost Value = { List Bin };

    ghost view = { λ b. b.items.items };
}

impl Bins {
    pub fn new(alloc: Global) -> Bins
        ensures { result ≡ [] }
    {
        Bins {
            items: Vec::new(alloc),
        }
    }

    pub fn len(&self) -> usize
        ensures { result ≡ length self.now }
    {
        self.items.len()
    }

    /// The first fc of a range, and the number of its page.
    pub fn get(&self, i: usize) -> (u32, u32)
        requires { i < length self.now }
        ensures { slice_get self.now i ≡ Some (record { first = result.0; page = result.1 }) }
    {
        let bin = self.items[i];
        (bin.first, bin.page)
    }

    pub fn add(&mut self, first: u32, page: u32) -> Result<(), Memory>
        ensures ok { OnOk result (self.new ≡ self.old ++ (record { first = first; page = page }) ∷ []) }
        ensures err { OnErr result (self.new ≡ self.old) }
    {
        self.items.push(Bin { first, page })?;
        Ok(())
    }
}
