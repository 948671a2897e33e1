// Laws over the definitions alone.
ghost use Rattle.nested_tables.specs.Laws.{TablesAreWhole};

/// No table of a depth is there but a whole one.
pub fn tables_are_whole()
    ensures { TablesAreWhole }
{}
