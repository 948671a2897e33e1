// One run: the page of a document goes to the standard output, or why there is none to the standard error.
ghost use Rattle.std.specs.Prelude.{◌≡◌, ◌≢◌, ◌↔◌, ◌⊎◌, ℕ, List, map, None, Some, OnOk, IsErrOf};
ghost use Rattle.std.specs.String.{string_bytes};
ghost use Rattle.doc_bits.specs.Number.{AreBytes};
ghost use Rattle.plain_doc.specs.Sound.{IsSound};
ghost use Rattle.run_stages.specs.Leaves.{IsCaused, IsOnlyRead};
ghost use Rattle.run_stages.specs.Outcomes.{says};
ghost use Rattle.docview_run.specs.Endings.{IsEnding, IsOfFile, IsPageInForm, PrintsPage, RunEnds, ShowsFile};
ghost use Rattle.docview_run.specs.Endings.{ShowsName, bare_source};
ghost use Rattle.html_page.specs.Sources.{page_source_of};
ghost use Rattle.docview_run.specs.Pictured.{Leaves};
ghost use Rattle.docview_run.specs.Requests.{requested, shown_folder, shown_view};
ghost use Rattle.docview_run.specs.Safe.{IsSafePage};
ghost use Rattle.docview_run.specs.declared.view.View.{View as ViewOf};
ghost use Rattle.doc_outer.specs.Counts.{Rose};
ghost use Rattle.doc_outer.specs.Written.{Appends, AppendsPrefix};

use crate::file_properties::show_properties;
use crate::lifting::show_lifted;
use crate::pictures::{Pictured, show_pictured};
use crate::words::{Asked, asked_by};
use crate::{Form, View};
use doc_bits::{Memory, Where};
use doc_columns::ColumnDocument;
use doc_html::write_html;
use doc_markdown::write_markdown;
use doc_outer::{Shelf, Sink, write_all};
use doc_pictures::{Images, Pictures};
use doc_read::open;
use doc_view::{ViewFault, write_page};
use file_rules::ReadFault;
use html_page::Source;
use run_stages::{
    STATUS_DONE, STATUS_MEMORY, STATUS_REFUSED, STATUS_SINK_FAULT, STATUS_USAGE, Stage, part_name,
    reason_of_name, take_file, tell_reason, why_refused,
};
use std::alloc::Global;

/// The name that is before what is told.
pub const PROGRAM: &str = "docview";

/// How the program is called.
pub const HELP: &str =
    "usage: docview [--hidden] [--headers] [--strict] [text | markdown | html] FILE\n       docview [--hidden] [--headers] [--strict] (text | markdown | html) --pictures FOLDER [--force] FILE\n       docview meta [--json] FILE\n\nPrints the text of a document of Word 97 to 2007 as people read it, in UTF-8, as text, or as a page in Markdown or in HTML. With meta it prints the properties of a file. FILE - is the standard input.\n  --hidden   hidden text too\n  --headers  headers and footers too, in text\n  --strict   only files that docbin accepts\n  --pictures the files of pictures, written into FOLDER, which is there\n  --force    over files that are there\n  --json     properties as JSON\n  --help     this text\n  --version  the version\n";

pub const VERSION: &str = "docview 1.0.0\n";

const USAGE: &str =
    "usage: docview [--hidden] [--headers] [--strict] [text | markdown | html] FILE | (text | markdown | html) --pictures FOLDER [--force] FILE | meta [--json] FILE | --help | --version\n";

/// Runs the words over the files of a shelf, and answers the status. The page goes to `out`, and to `reasons`, whose
/// faults change nothing, why there is none, or what of a file is left out of it.
pub fn docview_run<S: Shelf, K: Sink, E: Sink>(
    alloc: Global,
    words: &[String],
    shelf: &mut S,
    out: &mut K,
    reasons: &mut E,
) -> u8
    // The shelf is read and nothing else, unless pictures are asked for: then their files are written, or those before one
    // that cannot be, and all other names hold what they held.
    ensures leaves { Leaves S.Shelf (requested (map string_bytes words.now)) result shelf.old shelf.new }

    // A run ends as its words and the shelf decide, by its status: with the page printed where that is 0; where the sink
    // failed it has taken a prefix of the page; without memory nothing is printed.
    ensures ends { RunEnds (IsEnding (map string_bytes words.now) (S.held shelf.old)) K.Sink out.old out.new result }

    // A page is safe, whatever document it is of: in text it has no control, in HTML and in Markdown the stated readers read
    // it as the tokens that it was printed of. Images of a page in HTML are files in the folder that is asked for.
    ensures safe { result ≡ 0 → (view : ViewOf) → shown_view (requested (map string_bytes words.now)) ≡ Some view
        → (bytes : List ℕ) × (IsSafePage view (shown_folder (requested (map string_bytes words.now))) bytes × Appends (K.written out.old) (K.written out.new) bytes) }

    // The status of words that ask for nothing is theirs alone.
    ensures usage { result ≡ 2 ↔ requested (map string_bytes words.now) ≡ None }

    // A status for what failed outside shows in a count of this run.
    ensures cause { IsCaused S.Shelf shelf.old shelf.new result }
{
    match asked_by(words) {
        None => {
            let _ = write_all(reasons, USAGE.as_bytes());
            STATUS_USAGE
        }
        Some(Asked::Help) => print(out, HELP),
        Some(Asked::Version) => print(out, VERSION),
        Some(Asked::Page { view, file }) => show_name(alloc, shelf, file, view, out, reasons),
        Some(Asked::Pictured { view, album, file }) => {
            let asked = Pictured {
                name: file,
                view,
                album,
            };
            show_pictured(alloc, shelf, &asked, out, reasons)
        }
        Some(Asked::Properties { form, file }) => {
            show_properties(alloc, shelf, file, form, out, reasons)
        }
    }
}

/// Prints a text.
pub(crate) fn print<K: Sink>(out: &mut K, text: &str) -> u8
    ensures ends { RunEnds (λ outcome. outcome ≡ says 0 text.now) K.Sink out.old out.new result }
    ensures status { (result ≡ 0) ⊎ (result ≡ 5) }
{
    match write_all(out, text.as_bytes()) {
        Ok(()) => STATUS_DONE,
        Err(_) => STATUS_SINK_FAULT,
    }
}

/// Shows the document of the file of a name.
fn show_name<S: Shelf, K: Sink, E: Sink>(
    alloc: Global,
    shelf: &mut S,
    name: &str,
    view: View,
    out: &mut K,
    reasons: &mut E,
) -> u8
    ensures read { IsOnlyRead S.Shelf shelf.old shelf.new }
    ensures ends { RunEnds (ShowsName view None name.now (S.held shelf.old)) K.Sink out.old out.new result }
    ensures cause { IsCaused S.Shelf shelf.old shelf.new result }
    ensures asked { result ≢ 2 }
{
    match take_file(alloc, shelf, name) {
        Ok(Stage::Go(bytes)) => show_file(alloc, name, bytes.as_slice(), view, out, reasons),
        Ok(Stage::Stop(ending)) => {
            tell_reason(reasons, PROGRAM, &ending);
            ending.status()
        }
        Err(_) => STATUS_MEMORY,
    }
}

/// Shows the document of a file. One that breaks a rule is lifted out of it, but for a strict view.
pub(crate) fn show_file<K: Sink, E: Sink>(
    alloc: Global,
    name: &str,
    file: &[u8],
    view: View,
    out: &mut K,
    reasons: &mut E,
) -> u8
    ensures ends { RunEnds (ShowsFile view None name.now file.now) K.Sink out.old out.new result }
    ensures bytes { AreBytes file.now }
    ensures after { IsOfFile result }
{
    match open(alloc, file) {
        Ok(opened) => {
            let status = show_document(alloc, opened.document(), view, out);
            drop(opened);
            status
        }
        Err(ReadFault::Memory) => STATUS_MEMORY,
        Err(
            ReadFault::Refused {
                rule,
                place,
                offset,
            },
        ) => {
            if !view.strict {
                return show_lifted(alloc, name, file, view, out, reasons);
            }
            let why = why_refused(rule, file);
            match tell_refusal(alloc, name, rule, (place, offset), why, reasons) {
                Ok(()) => STATUS_REFUSED,
                Err(_) => STATUS_MEMORY,
            }
        }
    }
}

/// Writes the page of a document. It names no file of a picture.
pub(crate) fn show_document<K: Sink>(
    alloc: Global,
    document: &ColumnDocument,
    view: View,
    out: &mut K,
) -> u8
    requires { IsSound document.now }
    ensures ends { RunEnds (PrintsPage view (bare_source document.now)) K.Sink out.old out.new result }
    ensures after { IsOfFile result }
{
    let pictures = Pictures::none(alloc);
    let source = Source {
        document,
        images: Images {
            folder: "",
            pictures: &pictures,
        },
    };
    show_source(alloc, &source, view, out)
}

/// Writes the page of a document, which names the files of its pictures in HTML.
pub(crate) fn show_source<K: Sink>(
    alloc: Global,
    source: &Source<'_>,
    view: View,
    out: &mut K,
) -> u8
    requires { IsSound source.now.document.now }
    ensures ends { RunEnds (PrintsPage view (page_source_of source.now)) K.Sink out.old out.new result }
    ensures after { IsOfFile result }
{
    match write_view(alloc, source, view, out) {
        Ok(()) => STATUS_DONE,
        Err(ViewFault::Sink) => STATUS_SINK_FAULT,
        Err(ViewFault::Memory) => STATUS_MEMORY,
    }
}

/// Writes the page of a document in its form.
fn write_view<K: Sink>(
    alloc: Global,
    source: &Source<'_>,
    view: View,
    out: &mut K,
) -> Result<(), ViewFault>
    requires { IsSound source.now.document.now }
    ensures ok { OnOk result ((bytes : List ℕ) × (IsPageInForm view.form view.options (page_source_of source.now) bytes
        × Appends (K.written out.old) (K.written out.new) bytes)) }
    ensures prefix { IsErrOf result ViewFault.Sink → (bytes : List ℕ)
        × (IsPageInForm view.form view.options (page_source_of source.now) bytes
        × AppendsPrefix (K.written out.old) (K.written out.new) bytes) }
    ensures failed { IsErrOf result ViewFault.Sink → Rose (K.faults out.old) (K.faults out.new) }
    ensures memory { IsErrOf result ViewFault.Memory → K.written out.new ≡ K.written out.old }
{
    match view.form {
        Form::Text => write_page(alloc, source.document, view.options, out),
        Form::Html => write_html(alloc, source, view.options, out),
        Form::Markdown => write_markdown(alloc, source.document, view.options, out),
    }
}

/// Tells why a file is not shown.
pub(crate) fn tell_refusal<E: Sink>(
    alloc: Global,
    name: &str,
    rule: u8,
    place: (Where, u32),
    why: &str,
    reasons: &mut E,
) -> Result<(), Memory> {
    let part = part_name(alloc, place.0)?;
    let part = part.as_str();
    let offset = place.1;
    let reason = format!(in alloc; "not shown: rule {rule} {part} {offset} ({why})")?;
    let reason = reason_of_name(alloc, name, reason.as_str())?;
    tell(reasons, ["", reason.as_str(), "\n"]);
    Ok(())
}

/// Tells a line, of three parts, as far as the sink takes it.
pub(crate) fn tell<E: Sink>(reasons: &mut E, parts: [&str; 3]) {
    let [front, line, end] = parts;
    for part in [PROGRAM, ": ", front, line, end] {
        if write_all(reasons, part.as_bytes()).is_err() {
            return;
        }
    }
}
