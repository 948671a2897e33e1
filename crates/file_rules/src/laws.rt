// Laws over the definitions alone.
ghost use Rattle.file_rules.specs.PartRules.{PartsAreOne};
ghost use Rattle.file_rules.specs.FileRules.{FirstFileFaultIsLeast};

/// A document has one list of each kind.
pub fn parts_are_one()
    ensures { PartsAreOne }
{}

/// The first broken rule of a file is the least of all that are broken, at its least place.
pub fn first_file_fault_is_least()
    ensures { FirstFileFaultIsLeast }
{}
