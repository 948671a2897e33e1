// Laws over the definitions alone.
ghost use Rattle.plain_doc.specs.Sound.{FirstDocFaultIsLeast, SoundSheetIsWritable};
ghost use Rattle.plain_doc.specs.RightDocument.{SoundDocumentsAreValid};
ghost use Rattle.doc_model.specs.Settings.{EqualPropertiesAreSame};
ghost use Rattle.doc_model.specs.Stretches.{ItemsAreCutIntoStretches, StretchesAreOne};

/// The first broken rule of a document is the least of all that are broken, at its least place.
pub fn first_doc_fault_is_least()
    ensures { FirstDocFaultIsLeast }
{}

/// The styles of a sound document can be printed.
pub fn sound_sheet_is_writable()
    ensures { SoundSheetIsWritable }
{}

/// A document breaks no rule exactly where it is right in each place.
pub fn sound_documents_are_valid()
    ensures { SoundDocumentsAreValid }
{}

/// The stretches of items are the items, in their order; within a stretch each item joins the next
/// one, and the last of a stretch does not join the first of the stretch after it.
pub fn items_are_cut_into_stretches()
    ensures { ItemsAreCutIntoStretches }
{}

/// No other lists of items cut them so.
pub fn stretches_are_one()
    ensures { StretchesAreOne }
{}

/// Properties are equal exactly where they are the same map.
pub fn equal_properties_are_same()
    ensures { EqualPropertiesAreSame }
{}
