// Laws over the definitions alone.
ghost use Rattle.fast_save_layout.specs.AppendedLengths.{AppendedSavesAreShort, AppendedFilesAreShort, CountedSavesFit};
ghost use Rattle.fast_save_layout.specs.MarkEnds.{RunsEndWithMarks};
ghost use Rattle.fast_save_layout.specs.FastByRuns.{FastSavesAreBounded};

/// The streams of a save are short by what is counted of it, and need few sectors.
pub fn appended_saves_are_short()
    ensures { AppendedSavesAreShort }
{}

/// The file of a save has few sectors by what is counted, and its bin tables are short.
pub fn appended_files_are_short()
    ensures { AppendedFilesAreShort }
{}

/// Where the sectors that are reckoned are in a file, a save is never refused as too large.
pub fn counted_saves_fit()
    ensures { CountedSavesFit }
{}

/// The run of an added unit ends with it where a mark does, and beyond it where none does.
pub fn runs_end_with_marks()
    ensures { RunsEndWithMarks }
{}

/// Where the units that are in the old stream are bounded there, all units of a save are in the new one.
pub fn fast_saves_are_bounded()
    ensures { FastSavesAreBounded }
{}
