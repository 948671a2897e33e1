// Laws over the definitions alone.
ghost use Rattle.doc_join.specs.Laws.{EffectsExist, JoinsKeepEffects, JoinsBreakCountsAlone};

/// Something is in effect at each item of a sound document, so what a join keeps is something.
pub fn effects_exist()
    ensures { EffectsExist }
{}

/// What a join keeps of each item of both documents: its unit, but for the last one of the first main text, its
/// properties and those in effect, with the styles renumbered.
pub fn joins_keep_effects()
    ensures { JoinsKeepEffects }
{}

/// Of sound documents whose styles fit one sheet the joined one can break the rules on the numbers of items and of
/// bookmarks alone.
pub fn joins_break_counts_alone()
    ensures { JoinsBreakCountsAlone }
{}
