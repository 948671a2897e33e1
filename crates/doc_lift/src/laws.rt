// A law over the definitions alone.
ghost use Rattle.doc_lift.specs.LiftedFiles.{FirstLiftedFaultIsLeast};

/// The first broken one of the rules that are left is the least of all that are broken, at its least place.
pub fn first_lifted_fault_is_least()
    ensures { FirstLiftedFaultIsLeast }
{}
