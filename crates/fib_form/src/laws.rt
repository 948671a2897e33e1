// Laws over the definitions alone.
ghost use Rattle.fib_form.specs.FibBytes.{FibIsReadBack};
ghost use Rattle.fib_form.specs.FibRules.{FirstIsLeast};

/// The first broken rule is the least of all that are broken, at its least place.
pub fn first_fib_fault_is_least()
    ensures { FirstIsLeast }
{}

/// What was written breaks no rule and is read as the same fields.
pub fn fib_is_read_back()
    ensures { FibIsReadBack }
{}
