// Laws over the definitions alone.
ghost use Rattle.direct_props.specs.Laws.{DirectCharacterIsOne, DirectMarkIsOne, FirstPageFaultIsLeast};
ghost use Rattle.direct_props.specs.RightLists.{RightListsAreValid, RightPlacesHaveLists, RightPlacesHold};
ghost use Rattle.direct_props.specs.Laws.{RightPlacesHaveProperties};

/// A character has one map of direct properties.
pub fn direct_character_is_one()
    ensures { DirectCharacterIsOne }
{}

/// A mark has one style number and one map of direct properties.
pub fn direct_mark_is_one()
    ensures { DirectMarkIsOne }
{}

/// The first broken rule on pages is the least of all broken ones, at its least place.
pub fn first_page_fault_is_least()
    ensures { FirstPageFaultIsLeast }
{}

/// A bin table and a right list make a right place.
pub fn right_lists_are_valid()
    ensures { RightListsAreValid }
{}

/// A right place that has a list has a right list.
pub fn right_places_have_lists()
    ensures { RightPlacesHaveLists }
{}

/// Where each place is right the rules on pages hold.
pub fn right_places_hold()
    ensures { RightPlacesHold }
{}

/// A right place has direct properties.
pub fn right_places_have_properties()
    ensures { RightPlacesHaveProperties }
{}
