// A law over the definitions alone.
ghost use Rattle.further_notes.specs.Noted.{SpliceIsOne};
ghost use Rattle.further_notes.specs.UnitsStay.{StoriesAreHeld};

/// Endnotes and comments become notes in one way.
pub fn splice_is_one()
    ensures { SpliceIsOne }
{}

/// Where the texts of further stories are notes, each is held whole at the item that referred to it, and each note of
/// the document is one as it was.
pub fn stories_are_held()
    ensures { StoriesAreHeld }
{}
