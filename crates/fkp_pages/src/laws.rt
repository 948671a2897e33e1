// Laws over the definitions alone.
ghost use Rattle.fkp_pages.specs.Laws.{RunAnswerIsOne, BinPageIsOne, ListIsSpelled, SpelledListIsRead};
ghost use Rattle.fkp_pages.specs.Properties.{ListAtIsOne};

/// A page has one answer at a place.
pub fn run_answer_is_one()
    ensures { RunAnswerIsOne }
{}

/// A bin table names one page at a place.
pub fn bin_page_is_one()
    ensures { BinPageIsOne }
{}

/// Where a list is read, it is as it is spelled.
pub fn list_is_spelled()
    ensures { ListIsSpelled }
{}

/// Where a list is as it is spelled, it is read.
pub fn spelled_list_is_read()
    ensures { SpelledListIsRead }
{}

/// A byte place of `WordDocument` has one list of properties.
pub fn list_at_is_one()
    ensures { ListAtIsOne }
{}
