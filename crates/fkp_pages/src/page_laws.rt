// Laws over pages that are written.
ghost use Rattle.fkp_pages.specs.Pages.{PackingIsOne, PagesAreOne, RunFitsAlone, PagesAreWhole};
ghost use Rattle.fkp_pages.specs.Packed.{RunsHavePages};
ghost use Rattle.fkp_pages.specs.InARow.{PagesStandInARow, RowIsPrintable};
ghost use Rattle.fkp_pages.specs.Rows.{LongerTablesNameBoth};
ghost use Rattle.fkp_pages.specs.Found.{RunsAreFound, PlacesHaveLists, ListsHaveProperties};

/// Runs are put onto pages in one way at most.
pub fn packing_is_one()
    ensures { PackingIsOne }
{}

/// Runs have one list of pages, so their bytes are a function of the runs.
pub fn pages_are_one()
    ensures { PagesAreOne }
{}

/// The pages that are made run by run are right for the runs.
pub fn runs_have_pages()
    ensures { RunsHavePages }
{}

/// A run alone fits into a page, so no run is left out.
pub fn run_fits_alone()
    ensures { RunFitsAlone }
{}

/// Pages have 512 bytes each, and their first fcs ascend.
pub fn pages_are_whole()
    ensures { PagesAreWhole }
{}

/// Each run is found at each of its places in one of its pages.
pub fn runs_are_found()
    ensures { RunsAreFound }
{}

/// Through a bin table that names the pages, each place of a run has the list of the run.
pub fn places_have_lists()
    ensures { PlacesHaveLists }
{}

/// Pages that are one after the other are where the ranges that number them say.
pub fn pages_stand_in_a_row()
    ensures { PagesStandInARow }
{}

/// A bin table can have the ranges that number pages.
pub fn row_is_printable()
    ensures { RowIsPrintable }
{}

/// A table of the ranges of an old table and then of those of a row names both.
pub fn longer_tables_name_both()
    ensures { LongerTablesNameBoth }
{}

/// The list of a run has its style number, and acting with it on the empty map gives its properties.
pub fn lists_have_properties()
    ensures { ListsHaveProperties }
{}
