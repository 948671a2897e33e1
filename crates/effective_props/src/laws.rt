// Laws over the definitions alone.
ghost use Rattle.effective_props.specs.Laws.{ToggleIsSaidByLastValue, LastLayerDecides, EffectiveMapIsOne, StopsAreOne};
ghost use Rattle.effective_props.specs.Laws.{EffectiveCharacterIsOne, EffectiveParagraphIsOne};
ghost use Rattle.effective_props.specs.Laws.{EffectiveCharactersExist, EffectiveParagraphsExist};

/// A toggle is said by its last value that goes by nothing, and by how often later values turn it
/// round.
pub fn toggle_is_said_by_last_value()
    ensures { ToggleIsSaidByLastValue }
{}

/// A code that is no toggle has the value of the last layer that has it.
pub fn last_layer_decides()
    ensures { LastLayerDecides }
{}

/// Layers make one map.
pub fn effective_map_is_one()
    ensures { EffectiveMapIsOne }
{}

/// Layers make one list of tab stops.
pub fn stops_are_one()
    ensures { StopsAreOne }
{}

/// A character has one map of effective properties.
pub fn effective_character_is_one()
    ensures { EffectiveCharacterIsOne }
{}

/// A paragraph mark has one map of effective properties, and one list of tab stops.
pub fn effective_paragraph_is_one()
    ensures { EffectiveParagraphIsOne }
{}

/// A character of a paragraph with a style has effective properties.
pub fn effective_characters_exist()
    ensures { EffectiveCharactersExist }
{}

/// A paragraph mark with a style has effective properties and tab stops.
pub fn effective_paragraphs_exist()
    ensures { EffectiveParagraphsExist }
{}
