// The generator as a source of commands.
ghost use Rattle.script_run.specs.Generated.{generated};

use crate::RunFault;
use crate::running::run_command;
use crate::source::Source;
use edit_generator::{generated_command, generated_count};
use edit_guards::Guard;
use fast_save::Session;
use std::alloc::Global;

/// The commands from a seed.
#[derive(Clone, Copy)]
pub(crate) struct Generator {
    pub(crate) seed: u32,
}

impl Source for Generator {
    ghost commands = { λ g. generated g.seed };

    fn count(&self) -> usize {
        generated_count(self.seed)
    }

    fn make(
        &self,
        alloc: Global,
        index: usize,
        session: &mut Session,
        guards: &mut [Box<dyn Guard>],
    ) -> Result<(), RunFault> {
        let command = generated_command(
            alloc,
            self.seed,
            index,
            session.main_len(),
            session.quick_saves(),
        )?;
        run_command(session, guards, &command, index)
    }
}
