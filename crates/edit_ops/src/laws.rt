// Laws over the definitions alone.
ghost use Rattle.edit_ops.specs.Laws.{EditHasOneOutcome, ChangesAreFew, ChangesCanBeMade, FormattingMovesNoItems};
ghost use Rattle.edit_ops.specs.Laws.{EditsKeepBookmarks};
ghost use Rattle.edit_ops.specs.Runs.{RunsAreFew};

/// An edit has one fault at most, and none where it is accepted.
pub fn edit_has_one_outcome()
    ensures { EditHasOneOutcome }
{}

/// A command makes three changes at most.
pub fn changes_are_few()
    ensures { ChangesAreFew }
{}

/// The changes of an edit that may be tried can be made, one after another.
pub fn changes_can_be_made()
    ensures { ChangesCanBeMade }
{}

/// An edit that may be tried leaves bookmarks in order and within the main text.
pub fn edits_keep_bookmarks()
    ensures { EditsKeepBookmarks }
{}

/// By its facts a command that sets codes, clears them or names a style adds and removes no item.
pub fn formatting_moves_no_items()
    ensures { FormattingMovesNoItems }
{}

/// A command puts no more runs of characters and paragraphs than are reckoned for it.
pub fn runs_are_few()
    ensures { RunsAreFew }
{}
