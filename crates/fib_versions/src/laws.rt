// Laws over the definitions alone.
ghost use Rattle.fib_versions.specs.VersionRules.{FirstVersionFaultIsLeast};

/// The first broken rule is the least of all that are broken, at its least place.
pub fn first_version_fault_is_least()
    ensures { FirstVersionFaultIsLeast }
{}
