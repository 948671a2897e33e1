// Laws over the definitions alone.
ghost use Rattle.script_run.specs.Laws.{ScriptEndsOnce};
ghost use Rattle.script_run.specs.GeneratedSaves.{GeneratedSavesAreSmall};
ghost use Rattle.script_run.specs.GeneratedRuns.{GeneratorIsAccepted};

/// A run stops at one command at most, for one cause, and at none where it is accepted, whatever its
/// commands come from.
pub fn script_ends_once()
    ensures { ScriptEndsOnce }
{}

/// By the ledgers the fast saves of the generator are not refused, where its full saves are small.
pub fn generated_saves_are_small()
    ensures { GeneratedSavesAreSmall }
{}

/// No command of the generator is refused, no edit and no save, from any seed up to 4,000.
pub fn generator_is_accepted()
    ensures { GeneratorIsAccepted }
{}
