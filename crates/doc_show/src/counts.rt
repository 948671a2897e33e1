// The line on a document that breaks no rule: how much it has.
ghost use Rattle.std.specs.Prelude.{◌≡◌, ◌^◌, ◌<◌, is_some, replicate, IfOk};
ghost use Rattle.std.specs.List.{count_by};
ghost use Rattle.run_lists.specs.Spread.{expanded, total_len};
ghost use Rattle.plain_doc.specs.RulesOfSheet.{section_count};
ghost use Rattle.doc_show.specs.Counts.{accepted_line_of, counts_line, counts_of, style_count};

use doc_bits::{Memory, Text};
use doc_columns::{Attached, ColumnDocument, Columns, all_items};
use plain_doc::Document;
use run_lists::Run;
use std::alloc::Global;
use style_sheet::StyleSheet;

/// How much a document has.
#[derive(Clone, Copy)]
pub struct Counts {
    /// The items of all texts.
    pub units: u128,
    pub styles: usize,
    pub sections: usize,
    pub notes: usize,
    pub streams: usize,
}

/// The line that says how much an accepted document has: the items of all its texts, its styles,
/// its sections, its notes, and the streams that it carries along. The document is put by columns first.
pub fn accepted_line(alloc: Global, document: &Document) -> Result<Text, Memory>
    ensures { IfOk result (λ text. text ≡ accepted_line_of document.now) }
{
    let columns = ColumnDocument::from_document(alloc, document)?;
    let made = accepted_line_of_columns(alloc, &columns);
    drop(columns);
    made
}

/// The line that says how much an accepted document has, by columns. It is linear in the runs, the notes, the header
/// texts and the slots of the sheet.
pub fn accepted_line_of_columns(alloc: Global, document: &ColumnDocument) -> Result<Text, Memory>
    ensures { IfOk result (λ text. text ≡ accepted_line_of document.now) }
{
    counts_text(alloc, &counts_in(document))
}

/// How much a document has.
fn counts_in(document: &ColumnDocument) -> Counts
    ensures { result ≡ counts_of document.now }
{
    Counts {
        units: all_items(document),
        styles: styles_in(&document.sheet),
        sections: sections_in(&document.main),
        notes: document.notes.len(),
        streams: document.carried.streams.count(),
    }
}

/// How many sections end in a text.
fn sections_in(text: &Columns) -> usize
    ensures { result ≡ section_count text.now }
{
    let _len = text.len();
    ends_in(text.attachments())
}

/// How many sections end in runs.
fn ends_in(runs: &[Run<Attached>]) -> usize
    requires { total_len runs.now < 2 ^ 32 }
    ensures { result ≡ count_by (λ attached. is_some attached.sect) (expanded runs.now) }
{
    let mut count = 0;
    for run in runs {
        count += ends_in_run(run);
    }
    count
}

/// How many sections end in a run.
fn ends_in_run(run: &Run<Attached>) -> usize
    ensures { result ≡ count_by (λ attached. is_some attached.sect) (replicate run.now.count run.now.value) }
{
    if run.value.sect.is_some() {
        run.count as usize
    } else {
        0
    }
}

/// The line on these counts.
fn counts_text(alloc: Global, counts: &Counts) -> Result<Text, Memory>
    ensures { IfOk result (λ text. text ≡ counts_line counts.now) }
{
    let Counts {
        units,
        styles,
        sections,
        notes,
        streams,
    } = counts;
    let line = format!(in alloc;
        "accepted: units {units} styles {styles} sections {sections} notes {notes} streams {streams}\n"
    )?;
    Ok(Text::from_string(line))
}

/// How many slots of a sheet have a style.
fn styles_in(sheet: &StyleSheet) -> usize
    ensures { result ≡ style_count sheet.now }
{
    let mut count = 0;
    for istd in 0..sheet.slots() {
        if sheet.get(istd as u16).is_some() {
            count += 1;
        }
    }
    count
}
