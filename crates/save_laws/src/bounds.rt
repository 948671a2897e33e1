// Laws over the definitions alone.
ghost use Rattle.save_laws.specs.ClxLengths.{ClxIsShort, ReckonedPrcsAreShort};
ghost use Rattle.save_laws.specs.BinLengths.{BinTableIsLong, LongerTablesAreShort};
ghost use Rattle.save_laws.specs.RunCounts.{TextRunsAreCounted, RunCountsAdd, PagesAreFew};
ghost use Rattle.save_laws.specs.SharedPages.{BareRunsShare, PageBoundsAreFewer, PageBoundsAdd, TextPagesAreFew};
ghost use Rattle.save_laws.specs.SharedPages.{BareMarksShare};
ghost use Rattle.save_laws.specs.TableLengths.{TablesDifferByOwnParts, TablesAreShort};
ghost use Rattle.save_laws.specs.SectorCounts.{LongerStreamsFit, NamedStreamsAreRenewed};
ghost use Rattle.save_laws.specs.FastSizes.{CountsBoundStreams, SepxIsShort};
ghost use Rattle.save_laws.specs.FastFiles.{FastSavesFit, FastStreamsFit};
ghost use Rattle.save_laws.specs.FilesBehind.{SavesBehindAreFew};

/// A Clx has for each piece a CP, a Pcd and one Prc at most.
pub fn clx_is_short()
    ensures { ClxIsShort }
{}

/// The Prcs of pieces take no more than is reckoned for them.
pub fn reckoned_prcs_are_short()
    ensures { ReckonedPrcsAreShort }
{}

/// A bin table has four bytes, and eight for each range.
pub fn bin_table_is_long()
    ensures { BinTableIsLong }
{}

/// A bin table that keeps ranges of an older one is eight bytes longer for each further page at most.
pub fn longer_tables_are_short()
    ensures { LongerTablesAreShort }
{}

/// A text has no more runs than are counted, but for items behind its last paragraph mark.
pub fn text_runs_are_counted()
    ensures { TextRunsAreCounted }
{}

/// Texts that are joined have no more runs than both.
pub fn run_counts_add()
    ensures { RunCountsAdd }
{}

/// Runs of paragraphs take no more pages than are begun where 29 for which nothing is written share one.
pub fn bare_runs_share()
    ensures { BareRunsShare }
{}

/// A text has no more pages so than runs where each mark is one.
pub fn page_bounds_are_fewer()
    ensures { PageBoundsAreFewer }
{}

/// Texts that are joined have no more pages than both.
pub fn page_bounds_add()
    ensures { PageBoundsAdd }
{}

/// The runs of a text take no more pages than are counted, but for one behind the last paragraph mark.
pub fn text_pages_are_few()
    ensures { TextPagesAreFew }
{}

/// Up to 29 marks for which nothing is written begin one page at most.
pub fn bare_marks_share()
    ensures { BareMarksShare }
{}

/// Runs have no more pages than runs, of 512 bytes each.
pub fn pages_are_few()
    ensures { PagesAreFew }
{}

/// Two table streams of a document with as many sections differ by bin tables and Clx alone.
pub fn tables_differ_by_own_parts()
    ensures { TablesDifferByOwnParts }
{}

/// The table stream of a save is no longer than that of the full save and its own bin tables and Clx.
pub fn tables_are_short()
    ensures { TablesAreShort }
{}

/// Two streams that are longer by so many bytes need no more than so many sectors more.
pub fn longer_streams_fit()
    ensures { LongerStreamsFit }
{}

/// Where streams of a file have new bytes by their names, two of their lengths are renewed.
pub fn named_streams_are_renewed()
    ensures { NamedStreamsAreRenewed }
{}

/// What is counted bounds the two streams of a fast save.
pub fn counts_bound_streams()
    ensures { CountsBoundStreams }
{}

/// What is counted bounds the sectors of a fast save.
pub fn fast_saves_fit()
    ensures { FastSavesFit }
{}

/// The Sepx of properties that are printed in 500 bytes has three bytes more at most.
pub fn sepx_is_short()
    ensures { SepxIsShort }
{}

/// The streams of a fast save fit a file where their counts say so, and it has no more sectors than are reckoned.
pub fn fast_streams_fit()
    ensures { FastStreamsFit }
{}

/// What is counted bounds the sectors of a fast save in the file's own sectors.
pub fn saves_behind_are_few()
    ensures { SavesBehindAreFew }
{}
