// Laws over the definitions alone.
ghost use Rattle.doc_fit.specs.Laws.{AcceptedFilesBreakNone};
ghost use Rattle.doc_fit.specs.UnitsStay.{FitUnitsStay};

/// A file that docbin accepts breaks none of the rules that are left.
pub fn accepted_files_break_none()
    ensures { AcceptedFilesBreakNone }
{}

/// The units of the mended document of a file are those of what the file means, but for what is printed of the mends;
/// the texts of stories that are to be notes are held whole.
pub fn fit_units_stay()
    ensures { FitUnitsStay }
{}
