// Laws over the definitions alone.
ghost use Rattle.fast_save.specs.Laws.{FullSavesHold, FullSavesAreRead, FullSavesAreCanonical};
ghost use Rattle.fast_save.specs.Laws.{FullSavesAreFixed, EqualFilesHaveOneSave};
ghost use Rattle.fast_save.specs.Edited.{EditsAddLittle};

/// The full save of a well-formed sound document that fits is accepted and holds it.
pub fn full_saves_hold()
    ensures { FullSavesHold }
{}

/// It is read as the streams and the text of its layout.
pub fn full_saves_are_read()
    ensures { FullSavesAreRead }
{}

/// Two such documents have one full save exactly where they are the same.
pub fn full_saves_are_canonical()
    ensures { FullSavesAreCanonical }
{}

/// The full save of what a full save holds is the same bytes.
pub fn full_saves_are_fixed()
    ensures { FullSavesAreFixed }
{}

/// Two accepted files whose documents fit hold one document exactly where its full saves are the same bytes.
pub fn equal_files_have_one_save()
    ensures { EqualFilesHaveOneSave }
{}

/// An accepted edit adds so little that 4,096 of them leave room for one more.
pub fn edits_add_little()
    ensures { EditsAddLittle }
{}
