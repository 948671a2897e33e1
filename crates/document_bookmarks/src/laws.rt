// Laws over the definitions alone.
ghost use Rattle.document_bookmarks.specs.Bookmarks.{MovesKeepForm};
ghost use Rattle.document_bookmarks.specs.Names.{NamesDiffer};

/// A splice of a main text leaves its bookmarks in order and within it.
pub fn moves_keep_form()
    ensures { MovesKeepForm }
{}

/// No bookmark has the name of an earlier one exactly where no name is there twice.
pub fn names_differ()
    ensures { NamesDiffer }
{}
