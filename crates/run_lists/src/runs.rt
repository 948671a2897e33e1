// A list that is kept as runs. After want of memory it is what it was.
ghost use Rattle.std.specs.Prelude.{◌≡◌, ◌+◌, ◌-◌, ◌^◌, ◌<◌, ◌≤◌};
ghost use Rattle.std.specs.Prelude.{[], ◌++◌, length, replicate, slice_get};
ghost use Rattle.std.specs.Prelude.{Some, IfOk, OnOk, OnErr};
ghost use Rattle.std.specs.List.{splice};
ghost use Rattle.run_lists.specs.Spread.{expanded};

use crate::Shared;
use crate::cut::{cut, find};
use doc_bits::{Memory, splice_list};
use std::alloc::Global;
use std::marker::Model;

/// A value, and how many times it is in a row.
#[derive(Drop)]
pub struct Run<T> {
    pub count: u32,
    pub value: T,
}

/// A list, kept as its runs.
#[derive(Drop)]
pub struct Runs<T> {
    pub(crate) runs: Vec<Run<T>>,
}

impl<T> Model for Runs<T> {
    ghost use Rattle.std.specs.Prelude.{List, ◌<◌, ◌^◌, length};
    ghost use Rattle.std.specs.Coded.{coded_list};
    ghost use Rattle.run_lists.specs.Spread.{expanded};

    ghost Value = { List T };

    ghost coded = { coded_list T.code };

    ghost view = { λ r. expanded r.runs.items };

    ghost invariant = { λ r. length (expanded r.runs.items) < 2 ^ 32 };
}

impl<T: Shared> Runs<T> {
    pub fn new(alloc: Global) -> Runs<T>
        ensures { result ≡ [] }
    {
        Runs {
            runs: Vec::new(alloc),
        }
    }

    /// No values, and room for so many runs.
    pub(crate) fn with_room(alloc: Global, room: usize) -> Result<Runs<T>, Memory>
        ensures { IfOk result (λ runs. runs ≡ []) }
    {
        let runs = Vec::with_capacity(alloc, room)?;
        Ok(Runs { runs })
    }

    /// Puts a value last, `count` times. It joins the last run where that has the same value.
    #[inline(always)]
    pub fn add(&mut self, count: u32, value: T) -> Result<(), Memory>
        requires few { length self.old + count < 2 ^ 32 }
        ensures ok { OnOk result (self.new ≡ self.old ++ replicate count value) }
        ensures err { OnErr result (self.new ≡ self.old) }
    {
        if count == 0 {
            return Ok(());
        }
        let len = self.runs.len();
        if len > 0 && self.runs[len - 1].value.equal(&value) {
            let last = &mut self.runs[len - 1];
            last.count += count;
            return Ok(());
        }
        self.runs.push(Run { count, value })?;
        Ok(())
    }

    /// The runs themselves. None is moved.
    pub fn into_runs(self) -> Vec<Run<T>>
        ensures { expanded result.items ≡ self }
    {
        self.runs
    }

    /// The runs. A run has one value at least, and neighbours may have the same one.
    pub fn as_runs(&self) -> &[Run<T>]
        ensures runs { expanded result.now ≡ self.now }
        ensures few { length self.now < 2 ^ 32 }
    {
        &self.runs
    }

    /// The value at a place. It goes over the runs before it.
    pub fn at(&self, place: usize) -> &T
        requires { place < length self.now }
        ensures { slice_get self.now place ≡ Some result.now }
    {
        let spot = find(&self.runs, 0, place);
        &self.runs[spot.run].value
    }

    /// Puts `fresh` in place of the values from `from` to before `to`.
    pub fn splice(
        &mut self,
        alloc: Global,
        from: usize,
        to: usize,
        fresh: Runs<T>,
    ) -> Result<(), Memory>
        requires ordered { from ≤ to }
        requires within { to ≤ length self.old }
        requires few { length self.old + length fresh < 2 ^ 32 + (to - from) }
        ensures ok { OnOk result (self.new ≡ splice self.old from to fresh) }
        ensures err { OnErr result (self.new ≡ self.old) }
    {
        let first = cut(alloc, &mut self.runs, 0, from)?;
        let end = cut(alloc, &mut self.runs, first, to - from)?;
        splice_list(&mut self.runs, first, end, fresh.runs)?;
        Ok(())
    }
}
