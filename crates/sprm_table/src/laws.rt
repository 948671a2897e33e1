// Laws over the definitions alone.
ghost use Rattle.sprm_table.specs.Sprm.{SprmListIsOne, FirstFaultIsOne};

/// Bytes spell one list of sprms at most.
pub fn sprm_list_is_one()
    ensures { SprmListIsOne }
{}

/// A list has one first fault at most.
pub fn first_fault_is_one()
    ensures { FirstFaultIsOne }
{}
