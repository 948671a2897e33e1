// Laws over the definitions alone: what a printer wrote is read back.
ghost use Rattle.doc_parts.specs.Sections.{SectionsAreReadBack};
ghost use Rattle.doc_parts.specs.Fields.{FieldsAreReadBack};
ghost use Rattle.doc_parts.specs.Stories.{RefsAreReadBack, CutsAreReadBack};
ghost use Rattle.doc_parts.specs.PrintedBookmarks.{BookmarksAreReadBack};

/// Printed sections break no rule, and they alone are read back.
pub fn sections_are_read_back()
    ensures { SectionsAreReadBack }
{}

/// Printed field characters break no rule, and they alone are read back.
pub fn fields_are_read_back()
    ensures { FieldsAreReadBack }
{}

/// Printed references to notes break no rule, and they alone are read back.
pub fn refs_are_read_back()
    ensures { RefsAreReadBack }
{}

/// Printed CPs of texts break no rule, and they alone are read back.
pub fn texts_are_read_back()
    ensures { CutsAreReadBack }
{}

/// Printed bookmarks break no rule, and they alone are read back.
pub fn bookmarks_are_read_back()
    ensures { BookmarksAreReadBack }
{}
