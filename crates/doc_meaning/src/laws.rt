// Laws over the definitions alone.
ghost use Rattle.doc_meaning.specs.Meaning.{HeldIsMeant, MeaningIsOne, MeantIsHeld};
ghost use Rattle.doc_meaning.specs.Loaded.{LoadedIsMeant};
ghost use Rattle.doc_meaning.specs.Filled.{FilledIsMeant};

/// A file means the document that it holds.
pub fn held_is_meant()
    ensures { HeldIsMeant }
{}

/// A file whose bin tables are tables means one document at most.
pub fn meaning_is_one()
    ensures { MeaningIsOne }
{}

/// A file that holds a document means no other one.
pub fn meant_is_held()
    ensures { MeantIsHeld }
{}

/// The document of a text that is loaded in place of the one that the streams name is what the streams mean.
pub fn loaded_is_meant()
    ensures { LoadedIsMeant }
{}

/// The document of such a text, with its gaps filled, is what the streams mean.
pub fn filled_is_meant()
    ensures { FilledIsMeant }
{}
