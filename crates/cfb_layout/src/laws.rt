// Laws over the definitions alone.
ghost use Rattle.cfb_layout.specs.Laws.{BreaksNoRule, HoldsItsStreams, FatIsLeast, NoFileIsShorter};

/// The canonical container breaks none of the rules 1 to 14.
pub fn breaks_no_rule()
    ensures { BreaksNoRule }
{}

/// It is read as exactly its streams, in their order, with their sectors, and its CLSID.
pub fn holds_its_streams()
    ensures { HoldsItsStreams }
{}

/// The FAT has the least number of sectors in which each sector has an entry.
pub fn fat_is_least()
    ensures { FatIsLeast }
{}

/// No accepted file has fewer sectors than the canonical container of its streams.
pub fn no_file_is_shorter()
    ensures { NoFileIsShorter }
{}
