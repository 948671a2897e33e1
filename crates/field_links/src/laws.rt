// Laws over the definitions alone.
ghost use Rattle.field_links.specs.Laws.{AnchorsDiffer, UrlsAreAllowed};

/// Each URL has one of the five schemes, or leads to a bookmark of the document.
pub fn links_are_allowed()
    ensures { UrlsAreAllowed }
{}

/// Bookmarks of different names have different anchors.
pub fn anchors_differ()
    ensures { AnchorsDiffer }
{}
