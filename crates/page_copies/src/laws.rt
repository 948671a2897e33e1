// Laws over the definitions alone.
ghost use Rattle.page_copies.specs.Laws.{CopiesAnswer, CopiesAnswerAlone, ListCopiesActTheSame};
ghost use Rattle.page_copies.specs.Laws.{SkippedPagesKeepLists, PagesAreSkippedAlone};

/// Where a page has a list, its copy has that list, skipped.
pub fn copies_answer()
    ensures { CopiesAnswer }
{}

/// Where the copy of a page has a list, the page has it before its codes are skipped.
pub fn copies_answer_alone()
    ensures { CopiesAnswerAlone }
{}

/// The list of a copy means what the list means without the codes that are not read.
pub fn list_copies_act_the_same()
    ensures { ListCopiesActTheSame }
{}

/// Where a stream with skipped pages has a list, the stream has the list that was skipped, or the same one.
pub fn skipped_pages_keep_lists()
    ensures { SkippedPagesKeepLists }
{}

/// The pages of a stream are skipped in one way.
pub fn pages_are_skipped_alone()
    ensures { PagesAreSkippedAlone }
{}
