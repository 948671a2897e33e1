// Laws over the definitions alone.
ghost use Rattle.cfb_in_place.specs.Laws.{
  FatGrowsLeast,
  FatFitsTheHeader,
  SectorsAreReckoned,
  SaveBreaksNoRule,
  SaveHasContents,
  SaveIsThere,
  SaveStaysInPlace,
  StaysOverTwo,
};

/// The FAT gets the least number of sectors more with which each sector has an entry.
pub fn fat_grows_least()
    ensures { FatGrowsLeast }
{}

/// Its sectors fit the list of the header where the file has no more sectors than a file may.
pub fn fat_fits_the_header()
    ensures { FatFitsTheHeader }
{}

/// How many sectors the file has after, by the bytes that are reckoned.
pub fn sectors_are_reckoned()
    ensures { SectorsAreReckoned }
{}

/// There is such a file for each file before and each change that may be put there.
pub fn save_is_there()
    ensures { SaveIsThere }
{}

/// The file after breaks none of the rules 1 to 14.
pub fn save_breaks_no_rule()
    ensures { SaveBreaksNoRule }
{}

/// It holds the streams of before but for two, and the CLSID.
pub fn save_has_contents()
    ensures { SaveHasContents }
{}

/// A save leaves the stream that grows in its place.
pub fn save_stays_in_place()
    ensures { SaveStaysInPlace }
{}

/// A stream that stays in its place over each of two saves stays over both.
pub fn stays_over_two()
    ensures { StaysOverTwo }
{}
