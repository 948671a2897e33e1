// Laws over the definitions alone.
ghost use Rattle.prop_map.specs.Laws.{SaidCodeByCode, ListsActInTurn, ActingIsOne, ModifierIsOne, PropertiesStayFormed};
ghost use Rattle.prop_map.specs.Laws.{OverIsOverlay, ComposedIsOne, ListsMakeMaps};

/// What a list leaves at a code, by its last entry that sets or removes it.
pub fn said_code_by_code()
    ensures { SaidCodeByCode }
{}

/// Acting with two lists joined is acting with the first and then with the second.
pub fn lists_act_in_turn()
    ensures { ListsActInTurn }
{}

/// There is one map after a list.
pub fn acting_is_one()
    ensures { ActingIsOne }
{}

/// There is one modifier of a list.
pub fn modifier_is_one()
    ensures { ModifierIsOne }
{}

/// A map that may be at a place stays one when a property of the place is put into it.
pub fn properties_stay_formed()
    ensures { PropertiesStayFormed }
{}

/// One map put over another is their overlay.
pub fn over_is_overlay()
    ensures { OverIsOverlay }
{}

/// One modifier and then another are one modifier.
pub fn composed_is_one()
    ensures { ComposedIsOne }
{}

/// A map is there after each list.
pub fn lists_make_maps()
    ensures { ListsMakeMaps }
{}
