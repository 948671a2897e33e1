// Laws on what edits do to the whole text of a session.
ghost use Rattle.session_text.specs.StoryMarks.{NotesSplice, HeadsSplice, TextsSplice, OneTextSplices};
ghost use Rattle.session_text.specs.SessionChanges.{ModifiersAct, SectionsSplice, SectionsStay, StylesStay};
ghost use Rattle.session_text.specs.SessionChanges.{BookmarksStay, OneSectionIsSet};
ghost use Rattle.session_text.specs.Blocks.{BlocksStand};
ghost use Rattle.session_text.specs.EditSteps.{CommandsAreSteps, PiecesAreFew};
ghost use Rattle.session_text.specs.SessionText.{TextCounted};
ghost use Rattle.session_text.specs.Starts.{SavedTextsStand, PropertiesAreListed, SavedSectionsStand};

/// A splice of the notes is one of the whole text, with the marks that come or go.
pub fn notes_splice()
    ensures { NotesSplice }
{}

/// A splice of the header texts is one of the whole text, with the marks that come or go.
pub fn heads_splice()
    ensures { HeadsSplice }
{}

/// A splice of texts is one of their items.
pub fn texts_splice()
    ensures { TextsSplice }
{}

/// A splice within one text is one of the items of all.
pub fn one_text_splices()
    ensures { OneTextSplices }
{}

/// A modifier on the items of a text acts on their slots.
pub fn modifiers_act()
    ensures { ModifiersAct }
{}

/// A splice of the main text is one of the properties of its sections.
pub fn sections_splice()
    ensures { SectionsSplice }
{}

/// The places of pieces represent the text where properties of a section are set.
pub fn sections_stay()
    ensures { SectionsStay }
{}

/// No other section is set but the one that ends at the item.
pub fn one_section_is_set()
    ensures { OneSectionIsSet }
{}

/// The whole text stays where a style changes.
pub fn styles_stay()
    ensures { StylesStay }
{}

/// The whole text stays where bookmarks are set.
pub fn bookmarks_stay()
    ensures { BookmarksStay }
{}

/// A block of added text represents the slots that its items were added for.
pub fn blocks_stand()
    ensures { BlocksStand }
{}

/// The text of a document that is saved is in a session on it.
pub fn saved_texts_stand()
    ensures { SavedTextsStand }
{}

/// The properties of sections by their items are those that are listed by CP.
pub fn properties_are_listed()
    ensures { PropertiesAreListed }
{}

/// Saved sections are planned ones, each with its place.
pub fn saved_sections_stand()
    ensures { SavedSectionsStand }
{}

/// The changes of an accepted edit are a modifier alone, or puts of items, one after another.
pub fn commands_are_steps()
    ensures { CommandsAreSteps }
{}

/// A command adds four pieces at most.
pub fn pieces_are_few()
    ensures { PiecesAreFew }
{}

/// The pieces of a text have as many CPs as the whole text.
pub fn text_counted()
    ensures { TextCounted }
{}
