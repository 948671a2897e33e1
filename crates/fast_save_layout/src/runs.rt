// The runs of items whose units are one after the other.
ghost use Rattle.std.specs.Prelude.{◌≡◌, ◌+◌, ◌*◌, ◌^◌, ◌<◌, ℕ, List, [], length, Some, OnOk, IfOk};
ghost use Rattle.fkp_pages.specs.declared.kind.PageKind.{PageKind};
ghost use Rattle.doc_model.specs.declared.item.Item.{Item as TextItem};
ghost use Rattle.full_save.specs.Runs.{text_runs};
ghost use Rattle.fast_save_layout.specs.MarkRuns.{longer_if_open, runs_begun_at, begin_after, runs_end};
ghost use Rattle.fast_save_layout.specs.RunsSoFar.{AreMarksSoFar, MarkEnds, MarksGoOn, MarksGoOnBy};
ghost use Rattle.run_lists.specs.Spread.{total_len};

use doc_bits::Memory;
use doc_columns::{Attached, Columns};
use fkp_pages::PapRuns;
use full_save::UNIT_LEN;
use plain_doc::Mark;
use prop_map::PropMap;
use run_lists::Run;
use std::alloc::Global;

/// The runs of paragraphs of items whose units are from a byte on, of which the first one begins at `start`. What no
/// mark ends is a run without a style or properties, and reaches one unit further.
pub(crate) fn paragraph_runs(
    alloc: Global,
    items: &Columns,
    base: u32,
    start: u32,
) -> Result<PapRuns, Memory>
    requires { base + 2 * length items.now + 2 < 2 ^ 32 }
    ensures { IfOk result (λ runs.
        runs ≡ runs_begun_at start (longer_if_open items.now (text_runs PageKind.Papx base items.now))) }
{
    let end = base + UNIT_LEN * items.len() as u32;
    let mut runs = ParagraphRuns::new(alloc, base, start);
    runs.push_runs(alloc, items.attachments(), base)?;
    runs.finish(alloc, end)
}

/// Where runs end that begin at `start`.
pub(crate) fn end_of(runs: &PapRuns, start: u32) -> u32
    ensures { result ≡ runs_end start runs.now }
{
    let count = runs.len();
    if count == 0 {
        return start;
    }
    let (_, to, _, _) = runs.get(count - 1);
    to
}

/// The runs of paragraphs so far, each up to its mark.
#[derive(Drop)]
struct ParagraphRuns {
    /// Where the first run begins.
    start: u32,
    closed: PapRuns,
    /// Where the paragraph begins that goes on.
    from: u32,
}

impl ParagraphRuns {
    /// No runs of a text that begins at `base`, if the first one begins at `start`.
    fn new(alloc: Global, base: u32, start: u32) -> ParagraphRuns
        ensures now { AreMarksSoFar base [] result }
        ensures start { result.start ≡ start }
    {
        ParagraphRuns {
            start,
            closed: PapRuns::new(alloc),
            from: base,
        }
    }

    /// Where the next run begins.
    fn begin(&self) -> u32
        ensures { result ≡ begin_after self.now.start self.now.closed self.now.from }
    {
        if self.closed.len() == 0 {
            return self.start;
        }
        self.from
    }

    /// Goes on by an item that has a mark, and whose unit is before `end`.
    fn close(&mut self, alloc: Global, mark: &Mark, end: u32) -> Result<(), Memory>
        ensures now { OnOk result (MarkEnds mark.now end self.old self.new) }
        ensures start { OnOk result (self.new.start ≡ self.old.start) }
    {
        let pap = mark.pap.copy(alloc)?;
        let begin = self.begin();
        self.closed.add(begin, end, mark.istd, pap)?;
        self.from = end;
        Ok(())
    }

    /// Goes on by `count` items with this mark each, the first of which has its unit at `at`.
    fn push_marks(&mut self, alloc: Global, mark: &Mark, count: u32, at: u32) -> Result<(), Memory>
        requires { at + 2 * count < 2 ^ 32 }
        ensures now { OnOk result (MarksGoOn (Some mark.now) count at self.old self.new) }
        ensures start { OnOk result (self.new.start ≡ self.old.start) }
    {
        for i in 0..count {
            self.close(alloc, mark, at + UNIT_LEN * (i + 1))?;
        }
        Ok(())
    }

    /// Goes on by `count` items with this mark each, or without one.
    fn push_run(
        &mut self,
        alloc: Global,
        mark: &Option<Mark>,
        count: u32,
        at: u32,
    ) -> Result<(), Memory>
        requires { at + 2 * count < 2 ^ 32 }
        ensures now { OnOk result (MarksGoOn mark.now count at self.old self.new) }
        ensures start { OnOk result (self.new.start ≡ self.old.start) }
    {
        match mark {
            None => Ok(()),
            Some(mark) => {
                self.push_marks(alloc, mark, count, at)?;
                Ok(())
            }
        }
    }

    /// Goes on by the items of these runs of what is beside them, the first of which has its unit at `begin`.
    fn push_runs(&mut self, alloc: Global, runs: &[Run<Attached>], begin: u32) -> Result<(), Memory>
        requires { begin + 2 * total_len runs.now < 2 ^ 32 }
        ensures now { OnOk result (MarksGoOnBy runs.now begin self.old self.new) }
        ensures start { OnOk result (self.new.start ≡ self.old.start) }
    {
        let mut at = begin;
        for run in runs {
            self.push_run(alloc, &run.value.mark, run.count, at)?;
            at += UNIT_LEN * run.count;
        }
        Ok(())
    }

    /// All runs of a text that ends at `end`.
    fn finish(self, alloc: Global, end: u32) -> Result<PapRuns, Memory>
        requires { end + 2 < 2 ^ 32 }
        ensures { IfOk result (λ runs. (at : ℕ) (done : List TextItem) → end ≡ at + 2 * length done →
            AreMarksSoFar at done self → runs ≡ runs_begun_at self.start (longer_if_open done (text_runs PageKind.Papx
            at done))) }
    {
        let begin = self.begin();
        let ParagraphRuns {
            mut closed,
            from,
            ..
        } = self;
        if from == end {
            return Ok(closed);
        }
        closed.add(begin, end + UNIT_LEN, 0, PropMap::new(alloc))?;
        Ok(closed)
    }
}
