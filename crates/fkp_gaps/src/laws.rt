// Laws over the definitions alone.
ghost use Rattle.fkp_gaps.specs.Laws.{GapsHaveNoList, FilledPlacesHaveLists, FilledBinIsOne};

/// A place that has a list is no gap.
pub fn gaps_have_no_list()
    ensures { GapsHaveNoList }
{}

/// Once the gaps are filled a place has the list that it had, or the one without properties.
pub fn filled_places_have_lists()
    ensures { FilledPlacesHaveLists }
{}

/// A bin table is filled in one way.
pub fn filled_bin_is_one()
    ensures { FilledBinIsOne }
{}
