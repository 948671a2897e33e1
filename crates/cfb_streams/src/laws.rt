// Laws over the definitions alone.
ghost use Rattle.cfb_streams.specs.Laws.{FirstIsLeast, HoldOrFirst, ContentsAreOne, EntryOrderIsNameOrder};
ghost use Rattle.cfb_streams.specs.Laws.{StoragesAreOne, AcceptedIsOuter};

/// The first broken rule is the least of all that are broken, at its least place.
pub fn first_is_least()
    ensures { FirstIsLeast }
{}

/// No file holds all rules and has a first broken one.
pub fn hold_or_first()
    ensures { HoldOrFirst }
{}

/// A file has one answer: its streams in their order, each with its bytes, and the CLSID.
pub fn contents_are_one()
    ensures { ContentsAreOne }
{}

/// One entry comes before another exactly where its name comes before the other's.
pub fn entry_order_is_name_order()
    ensures { EntryOrderIsNameOrder }
{}

/// A file has one list of the storages that have something.
pub fn storages_are_one()
    ensures { StoragesAreOne }
{}

/// Where the rules 1 to 14 hold, they hold without rule 10, none of these is broken, and no storage has something.
pub fn accepted_is_outer()
    ensures { AcceptedIsOuter }
{}
