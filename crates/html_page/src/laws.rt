// Laws over the definitions alone.
ghost use Rattle.html_page.specs.Laws.{PagesAreReadBack, PagesNest, TagsAreKnown};

/// A page is read as the characters and tags that it was printed of.
pub fn pages_are_read_back()
    ensures { PagesAreReadBack }
{}

/// Each tag that is read of a page is one of a closed list.
pub fn tags_are_known()
    ensures { TagsAreKnown }
{}

/// The tags that are read of a page nest.
pub fn pages_nest()
    ensures { PagesNest }
{}
