// Laws over the definitions alone.
ghost use Rattle.property_sets.specs.Laws.{ValuesAreBounded};

/// The values of a set have no more bytes in all than the set.
pub fn values_are_bounded()
    ensures { ValuesAreBounded }
{}
