// Laws over the definitions alone.
ghost use Rattle.save_laws.specs.Laws.{SavedDocumentsAreHeld, SavedFilesHold, PlansGive, FastSavesAreSaves};
ghost use Rattle.save_laws.specs.Laws.{KeptPropertiesAreThere};
ghost use Rattle.save_laws.specs.Laws.{KeptPlacesGive, GivenFilesStand, GivenSectionsAreSaved};
ghost use Rattle.save_laws.specs.ByRuns.{BoundedTextsHaveTheirParagraphs};
ghost use Rattle.save_laws.specs.FullByRuns.{FullSavesAreBounded};
ghost use Rattle.save_laws.specs.FullSaves.{FullSavesAreSaves};
ghost use Rattle.save_laws.specs.Sessions.{SplicesStayTogether, ModifiedStayTogether, LongerPlansKeep, MainSplices};

/// A well-formed sound document that is saved is held by the contents, which break none of the rules 15 to 57.
pub fn saved_documents_are_held()
    ensures { SavedDocumentsAreHeld }
{}

/// A file with these contents is accepted and holds the document, by the text that was saved.
pub fn saved_files_hold()
    ensures { SavedFilesHold }
{}

/// Added text whose units and pages are in the stream is given there as it was planned.
pub fn plans_give()
    ensures { PlansGive }
{}

/// What a stream gives at a place, one gives that keeps its bytes and pages.
pub fn kept_places_give()
    ensures { KeptPlacesGive }
{}

/// The properties of a section that are in a stream are in one that keeps its bytes.
pub fn kept_properties_are_there()
    ensures { KeptPropertiesAreThere }
{}

/// Contents with the layout of a full save are a save of its document.
pub fn full_saves_are_saves()
    ensures { FullSavesAreSaves }
{}

/// What a session writes behind an old stream is a save of its document.
pub fn fast_saves_are_saves()
    ensures { FastSavesAreSaves }
{}

/// The places of the text of a file that holds a document are together with the document's slots.
pub fn given_files_stand()
    ensures { GivenFilesStand }
{}

/// The sections of a file that holds a document are saved sections of it.
pub fn given_sections_are_saved()
    ensures { GivenSectionsAreSaved }
{}

/// Places and slots of a session that are spliced alike are together as before.
pub fn splices_stay_together()
    ensures { SplicesStayTogether }
{}

/// Places and slots of a session on which a modifier acts are together as before.
pub fn modified_stay_together()
    ensures { ModifiedStayTogether }
{}

/// What is in the old stream or in the added text is there where more text is added.
pub fn longer_plans_keep()
    ensures { LongerPlansKeep }
{}

/// A splice of the main text is one of the whole text.
pub fn main_splices()
    ensures { MainSplices }
{}

/// Where each unit agrees with the runs at its place, the standard's paragraphs are those of the marks.
pub fn bounded_texts_have_their_paragraphs()
    ensures { BoundedTextsHaveTheirParagraphs }
{}

/// Each unit of a full save agrees with the runs at its place.
pub fn full_saves_are_bounded()
    ensures { FullSavesAreBounded }
{}
