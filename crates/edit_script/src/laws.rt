// Laws over the definitions alone.
ghost use Rattle.edit_script.specs.Laws.{ScriptIsOne, FaultIsOne, PropertiesAreAsKeyed};

/// Bytes are a script of one list of commands at most.
pub fn script_is_one()
    ensures { ScriptIsOne }
{}

/// Bytes have one fault at most, and none where they are a script.
pub fn script_fault_is_one()
    ensures { FaultIsOne }
{}

/// The properties of an object are what its keys say.
pub fn properties_are_as_keyed()
    ensures { PropertiesAreAsKeyed }
{}
