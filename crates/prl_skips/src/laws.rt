// Laws over the definitions alone.
ghost use Rattle.prl_skips.specs.Laws.{PlacesHoldNoPictures, SkipsAreAccepted, SkipsMakeTheSame, SkipsNameTheSame};
ghost use Rattle.prl_skips.specs.Laws.{SkipsActTheSame, SkipsModifyTheSame};

/// No place of a document holds the group that skipped codes get.
pub fn places_hold_no_pictures()
    ensures { PlacesHoldNoPictures }
{}

/// No place finds a fault in a list whose refused codes are skipped.
pub fn skips_are_accepted()
    ensures { SkipsAreAccepted }
{}

/// Skipped entries make of properties what the entries make of them.
pub fn skips_make_the_same()
    ensures { SkipsMakeTheSame }
{}

/// Skipped entries name the style that the entries name.
pub fn skips_name_the_same()
    ensures { SkipsNameTheSame }
{}

/// Bytes with skipped codes act as the bytes act.
pub fn skips_act_the_same()
    ensures { SkipsActTheSame }
{}

/// Bytes with skipped codes are the modifier that the bytes are.
pub fn skips_modify_the_same()
    ensures { SkipsModifyTheSame }
{}
