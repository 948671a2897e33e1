// What commands come from: a script, or the generator.
ghost use Rattle.std.specs.Prelude.{◌≡◌, ◌<◌, map, OnErr, IfErr, OnOk};
ghost use Rattle.fast_save.specs.Edited.{HasEditRoom};
ghost use Rattle.script_run.specs.Commands.{Commands, listed};
ghost use Rattle.script_run.specs.Steps.{MakesNumber, HaltsNumber};

use crate::RunFault;
use crate::running::run_command;
use edit_guards::Guard;
use edit_ops::Script;
use fast_save::Session;
use std::alloc::Global;

/// Where the commands of a run come from.
pub(crate) trait Source {
    /// The commands, by their numbers.
    ghost commands: { Self → Commands };

    /// The number of commands.
    fn count(&self) -> usize
        ensures { result ≡ (commands self.now).count };

    /// Makes the command of this number on the session that those before it have left. The guards are told of no edit
    /// where it is not made.
    fn make(
        &self,
        alloc: Global,
        index: usize,
        session: &mut Session,
        guards: &mut [Box<dyn Guard>],
    ) -> Result<(), RunFault>
        requires within { index < (commands self.now).count }
        requires room { HasEditRoom session.old.counts }
        ensures made { OnOk result
            (MakesNumber (commands self.now) index session.old (map (λ b. policy b) guards.old)
            session.new (map (λ b. policy b) guards.new)) }
        ensures err { IfErr result
            (HaltsNumber (commands self.now) index session.old (map (λ b. policy b) guards.old)) }
        ensures told { OnErr result
            (map (λ b. policy b) guards.new ≡ map (λ b. policy b) guards.old) };
}

impl Source for Script {
    ghost commands = { listed };

    fn count(&self) -> usize {
        self.len()
    }

    fn make(
        &self,
        alloc: Global,
        index: usize,
        session: &mut Session,
        guards: &mut [Box<dyn Guard>],
    ) -> Result<(), RunFault> {
        run_command(session, guards, self.get(index), index)
    }
}
