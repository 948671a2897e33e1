// The runs of a text that is gone through once, run by run of its columns.
ghost use Rattle.std.specs.Prelude.{◌≡◌, ◌+◌, ◌*◌, ◌^◌, ◌<◌, ℕ, List, [], length, Some, OnOk, IfOk};
ghost use Rattle.fkp_pages.specs.declared.kind.PageKind.{PageKind};
ghost use Rattle.doc_model.specs.declared.item.Item.{Item as TextItem};
ghost use Rattle.full_save.specs.Runs.{text_runs};
ghost use Rattle.full_save.specs.RunsSoFar.{AreCharactersSoFar, AreParagraphsSoFar, CharactersGoOn, CharactersGoOnBy};
ghost use Rattle.full_save.specs.RunsSoFar.{ParagraphEnds, ParagraphsGoOn, ParagraphsGoOnBy};
ghost use Rattle.run_lists.specs.Spread.{total_len};

use doc_bits::Memory;
use doc_columns::{Attached, Columns};
use fkp_pages::{ChpRuns, PapRuns};
use plain_doc::Mark;
use prop_map::PropMap;
use run_lists::Run;
use std::alloc::Global;
use std::mem;

/// The bytes of a unit.
pub const UNIT_LEN: u32 = 2;

/// The runs of characters of a text that begins at `base`: the maximal ranges of equal properties.
pub fn character_runs(alloc: Global, text: &Columns, base: u32) -> Result<ChpRuns, Memory>
    requires { base + 2 * length text.now < 2 ^ 32 }
    ensures { IfOk result (λ runs. runs ≡ text_runs PageKind.Chpx base text.now) }
{
    let len = text.len() as u32;
    let mut runs = CharacterRuns::new(alloc, base);
    runs.push_runs(alloc, text.chps(), base)?;
    runs.finish(base + UNIT_LEN * len)
}

/// The runs of characters of a text so far. The last one may go on.
#[derive(Drop)]
pub(crate) struct CharacterRuns {
    closed: ChpRuns,
    /// Where the last run begins, and its properties. It is empty where no item came yet.
    from: u32,
    chp: PropMap,
}

impl CharacterRuns {
    /// No runs of a text that begins at `base`.
    pub(crate) fn new(alloc: Global, base: u32) -> CharacterRuns
        ensures { AreCharactersSoFar base [] result }
    {
        CharacterRuns {
            closed: ChpRuns::new(alloc),
            from: base,
            chp: PropMap::new(alloc),
        }
    }

    /// Goes on by `count` items with these properties, the first of which has its unit at `end`.
    pub(crate) fn push_run(
        &mut self,
        alloc: Global,
        chp: &PropMap,
        count: u32,
        end: u32,
    ) -> Result<(), Memory>
        ensures { OnOk result (CharactersGoOn chp.now count end self.old self.new) }
    {
        if count == 0 {
            return Ok(());
        }
        if self.from == end {
            self.chp = chp.copy(alloc)?;
            return Ok(());
        }
        if self.chp.equal(chp) {
            return Ok(());
        }
        let last = mem::replace(&mut self.chp, chp.copy(alloc)?);
        self.closed.add(self.from, end, last)?;
        self.from = end;
        Ok(())
    }

    /// Goes on by the items of these runs of properties, the first of which has its unit at `start`.
    pub(crate) fn push_runs(
        &mut self,
        alloc: Global,
        runs: &[Run<PropMap>],
        start: u32,
    ) -> Result<(), Memory>
        requires { start + 2 * total_len runs.now < 2 ^ 32 }
        ensures { OnOk result (CharactersGoOnBy runs.now start self.old self.new) }
    {
        let mut at = start;
        for run in runs {
            self.push_run(alloc, &run.value, run.count, at)?;
            at += UNIT_LEN * run.count;
        }
        Ok(())
    }

    /// All runs of a text that ends at `end`.
    pub(crate) fn finish(self, end: u32) -> Result<ChpRuns, Memory>
        ensures { IfOk result (λ runs. (at : ℕ) (done : List TextItem) → end ≡ at + 2 * length done →
            AreCharactersSoFar at done self → runs ≡ text_runs PageKind.Chpx at done) }
    {
        let CharacterRuns {
            mut closed,
            from,
            chp,
        } = self;
        if from == end {
            return Ok(closed);
        }
        closed.add(from, end, chp)?;
        Ok(closed)
    }
}

/// The runs of paragraphs of a text so far. The last one may go on.
#[derive(Drop)]
pub(crate) struct ParagraphRuns {
    closed: PapRuns,
    /// Where the paragraph begins that goes on.
    from: u32,
}

impl ParagraphRuns {
    /// No runs of a text that begins at `base`.
    pub(crate) fn new(alloc: Global, base: u32) -> ParagraphRuns
        ensures { AreParagraphsSoFar base [] result }
    {
        ParagraphRuns {
            closed: PapRuns::new(alloc),
            from: base,
        }
    }

    /// Goes on by an item that has a mark, and whose unit is before `end`.
    pub(crate) fn close(&mut self, alloc: Global, mark: &Mark, end: u32) -> Result<(), Memory>
        ensures { OnOk result (ParagraphEnds mark.now end self.old self.new) }
    {
        let pap = mark.pap.copy(alloc)?;
        self.closed.add(self.from, end, mark.istd, pap)?;
        self.from = end;
        Ok(())
    }

    /// Goes on by `count` items with this mark each, the first of which has its unit at `start`.
    fn push_marks(
        &mut self,
        alloc: Global,
        mark: &Mark,
        count: u32,
        start: u32,
    ) -> Result<(), Memory>
        requires { start + 2 * count < 2 ^ 32 }
        ensures { OnOk result (ParagraphsGoOn (Some mark.now) count start self.old self.new) }
    {
        for i in 0..count {
            self.close(alloc, mark, start + UNIT_LEN * (i + 1))?;
        }
        Ok(())
    }

    /// Goes on by `count` items with this mark each, or without one.
    fn push_run(
        &mut self,
        alloc: Global,
        mark: &Option<Mark>,
        count: u32,
        start: u32,
    ) -> Result<(), Memory>
        requires { start + 2 * count < 2 ^ 32 }
        ensures { OnOk result (ParagraphsGoOn mark.now count start self.old self.new) }
    {
        match mark {
            None => Ok(()),
            Some(mark) => {
                self.push_marks(alloc, mark, count, start)?;
                Ok(())
            }
        }
    }

    /// Goes on by the items of these runs of what is beside them, the first of which has its unit at `start`.
    pub(crate) fn push_runs(
        &mut self,
        alloc: Global,
        runs: &[Run<Attached>],
        start: u32,
    ) -> Result<(), Memory>
        requires { start + 2 * total_len runs.now < 2 ^ 32 }
        ensures { OnOk result (ParagraphsGoOnBy runs.now start self.old self.new) }
    {
        let mut at = start;
        for run in runs {
            self.push_run(alloc, &run.value.mark, run.count, at)?;
            at += UNIT_LEN * run.count;
        }
        Ok(())
    }

    /// All runs of a text that ends at `end`. What no mark ends is a run of style 0.
    pub(crate) fn finish(self, alloc: Global, end: u32) -> Result<PapRuns, Memory>
        ensures { IfOk result (λ runs. (at : ℕ) (done : List TextItem) → end ≡ at + 2 * length done →
            AreParagraphsSoFar at done self → runs ≡ text_runs PageKind.Papx at done) }
    {
        let ParagraphRuns { mut closed, from } = self;
        if from == end {
            return Ok(closed);
        }
        closed.add(from, end, 0, PropMap::new(alloc))?;
        Ok(closed)
    }
}
