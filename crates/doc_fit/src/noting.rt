// A file is opened with its endnotes and its comments as notes, where they can be.
ghost use Rattle.std.specs.Prelude.{◌≡◌, [], ◌∷◌, ◌++◌, not, map, filter, IsTrue, IfOk, OnOk, Some, None};
ghost use Rattle.std.specs.Prelude.{MatchOption, MatchResult};
ghost use Rattle.file_rules.specs.Faults.{IsReadFault};
ghost use Rattle.doc_mends.specs.declared.mends.Mend.TheVariants.{MakeNote};
ghost use Rattle.doc_lift.specs.LiftedFiles.{IsLifted};
ghost use Rattle.doc_fit.specs.Losses.{HasLiftedStreams};
ghost use Rattle.doc_fit.specs.Opened.{HasDeletions, AreFoundLosses};
ghost use Rattle.doc_fit.specs.Noted.{AreNoted, CannotNote, HasFileStreams, HasNoSpliceOf, IsFirstNoted, LacksStory};
ghost use Rattle.doc_fit.specs.Noted.{IsSplicedOf, IsStruckLifted, IsNotedReport, IsOpenedFirst, IsOpenedNoted};
ghost use Rattle.doc_fit.specs.Noted.{IsOpenedAsNoted, IsOpenedFit, choices, one_story};
ghost use Rattle.doc_fit.specs.Noted.{is_note_line as is_of_notes, lacks_some as lacks_some_of, lines_left};
ghost use Rattle.doc_fit.specs.Noted.{is_endnote_line as is_of_endnotes, is_comment_line as is_of_comments};
ghost use Rattle.doc_fit.specs.Rules.{fit_rules};

use crate::losses::{Found, found_in};
use crate::opening::{OpenedAny, Report, open_lifted, open_parts};
use crate::streams::{fib_of, main_stream, table_stream};
use doc_bits::{Memory, Text, drop_then};
use doc_lift::{Lifted, ReadFault, lift};
use doc_mends::{MadeNote, Mend, mend};
use doc_read::check_document;
use fib_versions::{AnyFib, Further};
use further_notes::{NotedStories, Spliced, with_further_notes};
use huge_papx::strike_and_define;
use loss_report::LossLines;
use std::alloc::Global;
use std::mem;

/// Opens a file as `open_any` does; where it is not to be plain its endnotes and its comments become notes, if its
/// document is sound then.
pub fn open_fit(alloc: Global, file: &[u8], plain: bool) -> Result<OpenedAny, ReadFault>
    ensures { MatchResult result (IsOpenedFit plain file.now) (IsReadFault (fit_rules file.now)) }
{
    match lift(alloc, file) {
        Ok(lifted) => open_lifted_fit(alloc, file, lifted, plain),
        Err(fault) => Err(fault),
    }
}

/// Opens what was lifted out of a file.
fn open_lifted_fit(
    alloc: Global,
    file: &[u8],
    lifted: Lifted,
    plain: bool,
) -> Result<OpenedAny, ReadFault>
    requires { IsLifted file.now lifted }
    ensures { MatchResult result (IsOpenedFit plain file.now) (IsReadFault (fit_rules file.now)) }
{
    let Ok(noted) = noted_unless(alloc, file, &lifted, plain) else {
        return drop_then(lifted, Err(ReadFault::Memory));
    };
    match open_lifted(alloc, file, lifted) {
        Ok(opened) => Ok(noted_or(noted, opened)),
        Err(fault) => drop_then(noted, Err(fault)),
    }
}

/// The file with its further stories as notes, where they can be, unless it is to be plain.
fn noted_unless(
    alloc: Global,
    file: &[u8],
    lifted: &Lifted,
    plain: bool,
) -> Result<Option<OpenedAny>, Memory>
    requires { IsLifted file.now lifted.now }
    ensures { IfOk result (λ found. MatchOption found
        (AreNoted plain file.now None)
        (IsOpenedAsNoted plain file.now)) }
{
    if plain {
        return Ok(None);
    }
    open_first(alloc, file, lifted)
}

/// What was opened with notes, where there is something, or else what was opened.
fn noted_or(noted: Option<OpenedAny>, opened: OpenedAny) -> OpenedAny
    ensures { MatchOption noted (result ≡ opened) (λ found. result ≡ found) }
{
    match noted {
        Some(found) => drop_then(opened, found),
        None => opened,
    }
}

/// A file with both stories as notes, or else its endnotes, or else its comments.
fn open_first(alloc: Global, file: &[u8], lifted: &Lifted) -> Result<Option<OpenedAny>, Memory>
    requires { IsLifted file.now lifted.now }
    ensures { IfOk result (λ found. MatchOption found
        (IsFirstNoted choices file.now None)
        (IsOpenedFirst choices file.now)) }
{
    let both = open_stories(alloc, file, lifted, NotedStories::Both)?;
    match both {
        Some(opened) => Ok(Some(opened)),
        None => open_either(alloc, file, lifted),
    }
}

/// A file with its endnotes as notes, or else its comments.
fn open_either(alloc: Global, file: &[u8], lifted: &Lifted) -> Result<Option<OpenedAny>, Memory>
    requires { IsLifted file.now lifted.now }
    ensures { IfOk result (λ found. MatchOption found
        (IsFirstNoted one_story file.now None)
        (IsOpenedFirst one_story file.now)) }
{
    let endnotes = open_stories(alloc, file, lifted, NotedStories::Endnotes)?;
    match endnotes {
        Some(opened) => Ok(Some(opened)),
        None => {
            let comments = open_stories(alloc, file, lifted, NotedStories::Comments)?;
            Ok(comments)
        }
    }
}

/// A file with these stories as notes, where it has something of each and they can be.
fn open_stories(
    alloc: Global,
    file: &[u8],
    lifted: &Lifted,
    stories: NotedStories,
) -> Result<Option<OpenedAny>, Memory>
    requires { IsLifted file.now lifted.now }
    ensures { IfOk result (λ found. MatchOption found
        (CannotNote stories file.now)
        (IsOpenedNoted stories file.now)) }
{
    if lacks_story(lifted, stories) {
        return Ok(None);
    }
    open_noted(alloc, file, stories)
}

/// Whether what was lifted has nothing of one of these stories.
fn lacks_story(lifted: &Lifted, stories: NotedStories) -> bool
    requires { HasLiftedStreams lifted.now }
    ensures { IsTrue result → LacksStory stories lifted.now }
{
    let fib = fib_of(main_stream(&lifted.outer));
    lacks_some(&fib, stories)
}

/// Whether a file has nothing of one of these stories.
fn lacks_some(fib: &AnyFib<'_>, stories: NotedStories) -> bool
    ensures { result ≡ lacks_some_of stories fib.now }
{
    match stories {
        NotedStories::Both => {
            fib.further(Further::Endnotes) == 0 || fib.further(Further::Comments) == 0
        }
        NotedStories::Endnotes => fib.further(Further::Endnotes) == 0,
        NotedStories::Comments => fib.further(Further::Comments) == 0,
    }
}

/// A file with these stories as notes, where they can be.
fn open_noted(
    alloc: Global,
    file: &[u8],
    stories: NotedStories,
) -> Result<Option<OpenedAny>, Memory>
    ensures { IfOk result (λ found. MatchOption found
        (CannotNote stories file.now)
        (IsOpenedNoted stories file.now)) }
{
    match lift(alloc, file) {
        Ok(lifted) => open_lifted_noted(alloc, file, stories, lifted),
        Err(ReadFault::Refused { .. }) => Ok(None),
        Err(ReadFault::Memory) => Err(Memory),
    }
}

/// What was lifted out of a file, with these stories as notes, where they can be.
fn open_lifted_noted(
    alloc: Global,
    file: &[u8],
    stories: NotedStories,
    mut lifted: Lifted,
) -> Result<Option<OpenedAny>, Memory>
    requires { IsLifted file.now lifted }
    ensures { IfOk result (λ found. MatchOption found
        (CannotNote stories file.now)
        (IsOpenedNoted stories file.now)) }
{
    match note_lifted(alloc, file, stories, &mut lifted) {
        Ok(Some(report)) => Ok(Some(open_parts(lifted, report))),
        Ok(None) => drop_then(lifted, Ok(None)),
        Err(fault) => drop_then(lifted, Err(fault)),
    }
}

/// Makes notes of these stories of what was lifted, mends it and tells of it, where its document is sound then.
fn note_lifted(
    alloc: Global,
    file: &[u8],
    stories: NotedStories,
    lifted: &mut Lifted,
) -> Result<Option<Report>, Memory>
    requires { IsLifted file.now lifted.old }
    ensures { IfOk result (λ found. MatchOption found
        (CannotNote stories file.now)
        (λ report. IsNotedReport stories file.now lifted.old lifted.new report.losses report.mends.items)) }
{
    let found = found_in(alloc, lifted)?;
    let strikes = strike_lifted(alloc, lifted, &found)?;
    let Some(spliced) = splice_lifted(alloc, stories, lifted)? else {
        return Ok(None);
    };
    let Spliced { document, made } = spliced;
    lifted.document = document;
    let others = mend(alloc, &mut lifted.document, &found.marks)?;
    match check_document(alloc, &lifted.document) {
        Ok(()) => {
            let losses = other_lines(alloc, stories, &found.losses)?;
            let mends = noted_mends(alloc, &made, strikes, &others)?;
            Ok(Some(Report { losses, mends }))
        }
        Err(ReadFault::Refused { .. }) => Ok(None),
        Err(ReadFault::Memory) => Err(Memory),
    }
}

/// Strikes what a reviser deleted of what was lifted, and gives rows the cells that Data has for them.
fn strike_lifted(alloc: Global, lifted: &mut Lifted, found: &Found) -> Result<Vec<Mend>, Memory>
    requires deletions { HasDeletions lifted.old }
    requires found { AreFoundLosses lifted.old found.now }
    ensures { IfOk result (λ strikes. IsStruckLifted lifted.old lifted.new strikes.items) }
{
    let deleted = mem::replace(&mut lifted.deleted, Vec::new(alloc));
    let offsets = mem::replace(&mut lifted.offsets, Vec::new(alloc));
    let strikes = strike_and_define(
        alloc,
        &mut lifted.document,
        found.begins,
        &deleted,
        &offsets,
    )?;
    Ok(strikes)
}

/// The document of what was lifted with these stories as notes, where they can be.
fn splice_lifted(
    alloc: Global,
    stories: NotedStories,
    lifted: &Lifted,
) -> Result<Option<Spliced>, Memory>
    requires { HasFileStreams lifted.now }
    ensures { IfOk result (λ found. MatchOption found
        (HasNoSpliceOf stories lifted.now)
        (IsSplicedOf stories lifted.now)) }
{
    let wd = main_stream(&lifted.outer);
    let fib = fib_of(wd);
    let table = table_stream(&lifted.outer, &fib);
    with_further_notes(alloc, stories, &fib, wd, table, &lifted.document)
}

/// The mends of it then: the notes that were made are the first.
fn noted_mends(
    alloc: Global,
    made: &[MadeNote],
    strikes: Vec<Mend>,
    others: &[Mend],
) -> Result<Vec<Mend>, Memory>
    ensures { IfOk result (λ mends. mends.items ≡ map MakeNote made.now ++ (strikes.items ++ others.now)) }
{
    let mut mends = note_mends(alloc, made)?;
    mends.extend_from_slice(&strikes)?;
    mends.extend_from_slice(others)?;
    Ok(mends)
}

/// The mends of these notes.
fn note_mends(alloc: Global, made: &[MadeNote]) -> Result<Vec<Mend>, Memory>
    ensures { IfOk result (λ mends. mends.items ≡ map MakeNote made.now) }
{
    let mut mends = Vec::with_capacity(alloc, made.len())?;
    for k in 0..made.len() {
        mends.push(Mend::MakeNote(made[k]))?;
    }
    Ok(mends)
}

/// The lines that are not of these stories.
fn other_lines(alloc: Global, stories: NotedStories, lines: &LossLines) -> Result<LossLines, Memory>
    ensures { IfOk result (λ left. left ≡ lines_left (Some stories) lines.now) }
{
    let mut left = LossLines::new(alloc);
    for k in 0..lines.len() {
        add_other(alloc, stories, &mut left, lines.line(k))?;
    }
    Ok(left)
}

/// Puts a line behind others, where it is not of these stories.
fn add_other(
    alloc: Global,
    stories: NotedStories,
    left: &mut LossLines,
    line: &str,
) -> Result<(), Memory>
    ensures { OnOk result
        (left.new ≡ left.old ++ filter (λ line. not (is_of_notes stories line)) (line.now ∷ [])) }
{
    if is_note_line(stories, line) {
        return Ok(());
    }
    let mut copy = Text::new(alloc);
    copy.push_all(line)?;
    left.add(copy)?;
    Ok(())
}

/// Whether a line is of the parts or the texts of these stories.
fn is_note_line(stories: NotedStories, line: &str) -> bool
    ensures { result ≡ is_of_notes stories line.now }
{
    match stories {
        NotedStories::Both => is_endnote_line(line) || is_comment_line(line),
        NotedStories::Endnotes => is_endnote_line(line),
        NotedStories::Comments => is_comment_line(line),
    }
}

/// Whether a line is of the parts or the story of endnotes.
fn is_endnote_line(line: &str) -> bool
    ensures { result ≡ is_of_endnotes line.now }
{
    let line = line.as_bytes();
    line.starts_with(b"part 46 ")
        || line.starts_with(b"part 47 ")
        || line.starts_with(b"part 48 ")
        || line.starts_with(b"story endnotes ")
}

/// Whether a line is of the parts or the story of comments.
fn is_comment_line(line: &str) -> bool
    ensures { result ≡ is_of_comments line.now }
{
    let line = line.as_bytes();
    line.starts_with(b"part 4 ")
        || line.starts_with(b"part 5 ")
        || line.starts_with(b"part 19 ")
        || line.starts_with(b"story comments ")
}
