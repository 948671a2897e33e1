// Laws over the definitions alone.
ghost use Rattle.doc_mends.specs.Mending.{MendsAreOne, MendsKeepBookmarks, SoundHasNoMends};
ghost use Rattle.doc_mends.specs.UnitsStay.{UnitsStay};
ghost use Rattle.doc_mends.specs.WholeRows.{MendedRowsAreWhole};

/// A document is mended in one way.
pub fn mends_are_one()
    ensures { MendsAreOne }
{}

/// A document that breaks no rule has no mends.
pub fn sound_has_no_mends()
    ensures { SoundHasNoMends }
{}

/// Mends keep bookmarks formed.
pub fn mends_keep_bookmarks()
    ensures { MendsKeepBookmarks }
{}

/// No row of a mended document breaks rule 63.
pub fn mended_rows_are_whole()
    ensures { MendedRowsAreWhole }
{}

/// The units of a mended document are those that it had, but for what is printed of its mends.
pub fn units_stay()
    ensures { UnitsStay }
{}
