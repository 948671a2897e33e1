// Laws over the definitions alone.
ghost use Rattle.part_skips.specs.Prcs.{SkippedPrcsMeanTheSame};
ghost use Rattle.part_skips.specs.Sheets.{SheetsAreSkippedAlone, SkippedSheetsMeanTheSame};

/// A Clx whose Prcs are skipped has the pieces that the Clx has, each with its modifier.
pub fn skipped_prcs_mean_the_same()
    ensures { SkippedPrcsMeanTheSame }
{}

/// A sheet whose lists are skipped has the styles that the sheet has.
pub fn skipped_sheets_mean_the_same()
    ensures { SkippedSheetsMeanTheSame }
{}

/// A sheet is skipped in one way.
pub fn sheets_are_skipped_alone()
    ensures { SheetsAreSkippedAlone }
{}
