// Laws over the definitions alone.
ghost use Rattle.edit_guards.specs.Laws.{FirstRefuserIsOne};

/// There is one first refuser at most, and none where all policies grant.
pub fn first_refuser_is_one()
    ensures { FirstRefuserIsOne }
{}
