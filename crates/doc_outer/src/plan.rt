// Which calls of a are-in are to fail.
ghost use Rattle.std.specs.Prelude.{◌≡◌, ◌↔◌, IsTrue, OnOk, OnErr};
ghost use Rattle.doc_outer.specs.Plan.{no_plan, fails_at, after_call, FailsNext};

use doc_bits::Memory;
use std::alloc::Global;
use std::marker::Model;

/// The numbers of the calls that are to fail, and how many calls had a number so far.
#[derive(Drop)]
pub(crate) struct CallPlan {
    failing: Vec<u32>,
    numbered: u32,
}

impl Model for CallPlan {
    ghost use Rattle.doc_outer.specs.Plan.{FaultPlan};

    ghost Value = { FaultPlan };

    ghost view = { λ p. record { failing = p.failing.items; numbered = p.numbered } };
}

impl CallPlan {
    /// No call fails, and none is numbered.
    pub(crate) fn new(alloc: Global) -> CallPlan
        ensures { result ≡ no_plan }
    {
        CallPlan {
            failing: Vec::new(alloc),
            numbered: 0,
        }
    }

    /// Lets the call of this number fail. Calls are numbered from 1 on.
    pub(crate) fn fail_call(&mut self, number: u32) -> Result<(), Memory>
        ensures ok { OnOk result (self.new ≡ fails_at self.old number) }
        ensures err { OnErr result (self.new ≡ self.old) }
    {
        self.failing.push(number)?;
        Ok(())
    }

    /// Numbers the next call, and answers whether it is to fail.
    pub(crate) fn next_fails(&mut self) -> bool
        ensures counted { self.new ≡ after_call self.old }
        ensures fails { IsTrue result ↔ FailsNext self.old }
    {
        match self.numbered.checked_add(1) {
            None => false,
            Some(number) => {
                self.numbered = number;
                self.failing.contains(&number)
            }
        }
    }
}
