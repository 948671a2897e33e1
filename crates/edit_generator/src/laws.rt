// Laws over the definitions alone.
ghost use Rattle.edit_generator.specs.FewRuns.{EditsAddFewRuns};
ghost use Rattle.edit_generator.specs.SmallSaves.{SmallDocumentsHaveSmallSaves};

/// An insertion adds no run to the tables of a full save, a split one, and a command that sets characters two.
pub fn edits_add_few_runs()
    ensures { EditsAddFewRuns }
{}

/// A document with as few items and runs as what is generated has a small full save.
pub fn small_documents_have_small_saves()
    ensures { SmallDocumentsHaveSmallSaves }
{}
