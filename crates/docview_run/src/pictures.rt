// The page of a document, behind the files of its pictures.
ghost use Rattle.std.specs.Prelude.{◌≡◌, ◌≢◌, ◌⊎◌, ◌<◌, List, ℕ, false, Some, IfOk, IsErrOf, OnErr};
ghost use Rattle.doc_bits.specs.Number.{AreBytes};
ghost use Rattle.doc_outer.specs.Counts.{Rose};
ghost use Rattle.doc_outer.specs.Held.{StaysAt};
ghost use Rattle.doc_read.specs.Holds.{IsAccepted};
ghost use Rattle.doc_fit.specs.ReadAs.{IsOpenedFile};
ghost use Rattle.html_page.specs.Sources.{page_source_of};
ghost use Rattle.plain_doc.specs.Sound.{IsSound};
ghost use Rattle.run_stages.specs.Leaves.{IsCaused};
ghost use Rattle.docview_run.specs.Endings.{IsOfFile, PrintsPage, RunEnds, ShowsHeld, ShowsPictured, ShowsTaken};
ghost use Rattle.docview_run.specs.Endings.{pictured_source};
ghost use Rattle.docview_run.specs.Pictured.{CutsIn, CutsOf, IsDataIn, IsFileThere, IsPictureName, LeavesHeld};
ghost use Rattle.docview_run.specs.Pictured.{LeavesPictures, LeavesTaken, WritesIn, WritesOf, fault_status};

use crate::View;
use crate::lifting::{MendedDocument, lines_of, tell_read_fault};
use crate::run::{PROGRAM, show_file, show_source, tell};
use cfb_streams::Container;
use doc_bits::drop_then;
use doc_columns::ColumnDocument;
use doc_fit::{OpenedFile, open_file};
use doc_outer::{Shelf, Sink};
use doc_pictures::{Album, AlbumFault, Images, Pictures, pictures_of, write_pictures};
use doc_read::open;
use file_rules::ReadFault;
use html_page::Source;
use huge_papx::DATA;
use run_stages::{STATUS_DONE, STATUS_MEMORY, STATUS_SHELF_FAULT, Stage, take_file, tell_reason};
use std::alloc::Global;

/// A file of a picture is there, and files are not written over.
const STATUS_THERE: u8 = 8;

/// The name of a file, what of it is shown, and where the files of its pictures are written.
#[derive(Clone, Copy)]
pub(crate) struct Pictured<'a> {
    pub(crate) name: &'a str,
    pub(crate) view: View,
    pub(crate) album: Album<'a>,
}

/// What is asked for, and the bytes of the file, or what is read in place of it.
#[derive(Clone, Copy)]
struct Taken<'a> {
    asked: Pictured<'a>,
    file: &'a [u8],
}

/// Writes the files of the pictures of the document of the file of a name, and shows its page.
pub(crate) fn show_pictured<S: Shelf, K: Sink, E: Sink>(
    alloc: Global,
    shelf: &mut S,
    asked: &Pictured<'_>,
    out: &mut K,
    reasons: &mut E,
) -> u8
    ensures ends { RunEnds (ShowsPictured asked.now.view asked.now.album.force asked.now.album.folder.now asked.now.name.now
        (S.held shelf.old)) K.Sink out.old out.new result }
    ensures leaves { LeavesPictures S.Shelf asked.now.view.strict asked.now.album.force asked.now.album.folder.now asked.now.name.now
        result shelf.old shelf.new }
    ensures cause { IsCaused S.Shelf shelf.old shelf.new result }
    ensures asked { result ≢ 2 }
{
    match take_file(alloc, shelf, asked.name) {
        Ok(Stage::Go(bytes)) => show_taken(alloc, shelf, asked, bytes.as_slice(), out, reasons),
        Ok(Stage::Stop(ending)) => {
            tell_reason(reasons, PROGRAM, &ending);
            ending.status()
        }
        Err(_) => STATUS_MEMORY,
    }
}

/// Shows a file that was read, and writes the files of its pictures.
fn show_taken<S: Shelf, K: Sink, E: Sink>(
    alloc: Global,
    shelf: &mut S,
    asked: &Pictured<'_>,
    file: &[u8],
    out: &mut K,
    reasons: &mut E,
) -> u8
    ensures ends { RunEnds (ShowsTaken asked.now.view asked.now.album.force asked.now.album.folder.now asked.now.name.now
        (S.held shelf.old) file.now) K.Sink out.old out.new result }
    ensures leaves { LeavesTaken asked.now.view.strict asked.now.album.force asked.now.album.folder.now file.now result
        (S.held shelf.old) (S.held shelf.new) }
    ensures failed { result ≡ 4 → Rose (S.faults shelf.old) (S.faults shelf.new) }
    ensures after { (result < 2) ⊎ (3 < result) }
    ensures bytes { AreBytes file.now }
{
    match open(alloc, file) {
        Ok(opened) => {
            let taken = Taken {
                asked: *asked,
                file,
            };
            let status = show_held(alloc, shelf, &taken, opened.document(), out, reasons);
            drop_then(opened, status)
        }
        Err(ReadFault::Memory) => STATUS_MEMORY,
        Err(ReadFault::Refused { .. }) => show_refused(alloc, shelf, asked, file, out, reasons),
    }
}

/// Shows a file that breaks a rule as docfit reads it, and writes the files of its pictures.
fn show_refused<S: Shelf, K: Sink, E: Sink>(
    alloc: Global,
    shelf: &mut S,
    asked: &Pictured<'_>,
    file: &[u8],
    out: &mut K,
    reasons: &mut E,
) -> u8
    requires { ¬ (IsAccepted file.now) }
    ensures ends { RunEnds (ShowsTaken asked.now.view asked.now.album.force asked.now.album.folder.now asked.now.name.now
        (S.held shelf.old) file.now) K.Sink out.old out.new result }
    ensures leaves { LeavesTaken asked.now.view.strict asked.now.album.force asked.now.album.folder.now file.now result
        (S.held shelf.old) (S.held shelf.new) }
    ensures failed { result ≡ 4 → Rose (S.faults shelf.old) (S.faults shelf.new) }
    ensures after { (result < 2) ⊎ (3 < result) }
{
    if asked.view.strict {
        return show_file(alloc, asked.name, file, asked.view, out, reasons);
    }
    let Ok(found) = open_file(alloc, file, false) else {
        return STATUS_MEMORY;
    };
    let taken = Taken {
        asked: *asked,
        file,
    };
    let status = show_found(alloc, shelf, &taken, &found, out, reasons);
    drop_then(found, status)
}

/// Shows the document that was opened in place of a file with its pictures, or says why none was.
fn show_found<S: Shelf, K: Sink, E: Sink>(
    alloc: Global,
    shelf: &mut S,
    taken: &Taken<'_>,
    found: &OpenedFile,
    out: &mut K,
    reasons: &mut E,
) -> u8
    requires refused { ¬ (IsAccepted taken.now.file.now) }
    requires lifts { taken.now.asked.view.strict ≡ false }
    requires opened { IsOpenedFile false taken.now.file.now found.now }
    ensures ends { RunEnds (ShowsTaken taken.now.asked.view taken.now.asked.album.force taken.now.asked.album.folder.now
        taken.now.asked.name.now (S.held shelf.old) taken.now.file.now) K.Sink out.old out.new result }
    ensures leaves { LeavesTaken taken.now.asked.view.strict taken.now.asked.album.force taken.now.asked.album.folder.now
        taken.now.file.now result (S.held shelf.old) (S.held shelf.new) }
    ensures failed { result ≡ 4 → Rose (S.faults shelf.old) (S.faults shelf.new) }
    ensures after { (result < 2) ⊎ (3 < result) }
{
    let read = found.mended.bytes(taken.file);
    match &found.opened {
        Ok(opened) => {
            let mended = MendedDocument {
                opened,
                mends: found.mended.mends(),
            };
            let taken = Taken {
                asked: taken.asked,
                file: read,
            };
            show_opened(alloc, shelf, &taken, &mended, out, reasons)
        }
        Err(fault) => tell_read_fault(alloc, taken.asked.name, read, *fault, reasons),
    }
}

/// Shows a document that was opened with its pictures, and says what is left out of it and what is mended.
fn show_opened<S: Shelf, K: Sink, E: Sink>(
    alloc: Global,
    shelf: &mut S,
    taken: &Taken<'_>,
    mended: &MendedDocument<'_>,
    out: &mut K,
    reasons: &mut E,
) -> u8
    requires { IsSound mended.now.opened.now.lifted.document }
    ensures ends { RunEnds (ShowsHeld taken.now.asked.view taken.now.asked.album.force taken.now.asked.album.folder.now
        taken.now.file.now mended.now.opened.now.lifted.document (S.held shelf.old)) K.Sink out.old out.new result }
    ensures leaves { LeavesHeld taken.now.asked.album.force taken.now.asked.album.folder.now taken.now.file.now
        mended.now.opened.now.lifted.document result (S.held shelf.old) (S.held shelf.new) }
    ensures failed { result ≡ 4 → Rose (S.faults shelf.old) (S.faults shelf.new) }
    ensures after { (result < 2) ⊎ (3 < result) }
{
    let Ok(lines) = lines_of(alloc, taken.asked.name, mended) else {
        return STATUS_MEMORY;
    };
    let status = show_held(
        alloc,
        shelf,
        taken,
        &mended.opened.lifted.document,
        out,
        reasons,
    );
    if status == STATUS_DONE {
        lines.tell(reasons, &mended.opened.losses);
    }
    status
}

/// Writes the files of the pictures of a document of a file, and shows its page.
fn show_held<S: Shelf, K: Sink, E: Sink>(
    alloc: Global,
    shelf: &mut S,
    taken: &Taken<'_>,
    document: &ColumnDocument,
    out: &mut K,
    reasons: &mut E,
) -> u8
    requires { IsSound document.now }
    ensures ends { RunEnds (ShowsHeld taken.now.asked.view taken.now.asked.album.force taken.now.asked.album.folder.now
        taken.now.file.now document.now (S.held shelf.old)) K.Sink out.old out.new result }
    ensures leaves { LeavesHeld taken.now.asked.album.force taken.now.asked.album.folder.now taken.now.file.now document.now
        result (S.held shelf.old) (S.held shelf.new) }
    ensures failed { result ≡ 4 → Rose (S.faults shelf.old) (S.faults shelf.new) }
    ensures after { (result < 2) ⊎ (3 < result) }
{
    let album = &taken.asked.album;
    match write_pictures_of(alloc, shelf, album, taken.file, document) {
        Ok(pictures) => show_images(alloc, &taken.asked, document, &pictures, out),
        Err(fault) => tell_fault(reasons, album, fault),
    }
}

/// Shows the page of a document, which names the files of these pictures.
fn show_images<K: Sink>(
    alloc: Global,
    asked: &Pictured<'_>,
    document: &ColumnDocument,
    pictures: &Pictures,
    out: &mut K,
) -> u8
    requires { IsSound document.now }
    ensures ends { RunEnds (PrintsPage asked.now.view
        (pictured_source document.now asked.now.album.folder.now pictures.now)) K.Sink out.old out.new result }
    ensures after { IsOfFile result }
{
    let source = Source {
        document,
        images: Images {
            folder: asked.album.folder,
            pictures,
        },
    };
    show_source(alloc, &source, asked.view, out)
}

/// Tells why the files of pictures are not written, and answers the status.
fn tell_fault<E: Sink>(reasons: &mut E, album: &Album<'_>, fault: AlbumFault) -> u8
    ensures { result ≡ fault_status fault }
{
    match fault {
        AlbumFault::There => {
            let parts = [
                album.folder,
                ": a file of a picture is there: --force writes over it",
                "\n",
            ];
            tell(reasons, parts);
            STATUS_THERE
        }
        AlbumFault::Failed => STATUS_SHELF_FAULT,
        AlbumFault::Memory => STATUS_MEMORY,
    }
}

/// Writes the files of the pictures of a document of a file.
fn write_pictures_of<S: Shelf>(
    alloc: Global,
    shelf: &mut S,
    album: &Album<'_>,
    file: &[u8],
    document: &ColumnDocument,
) -> Result<Pictures, AlbumFault>
    ensures written { IfOk result (λ pictures. WritesOf album.now.force album.now.folder.now file.now document.now pictures
        (S.held shelf.old) (S.held shelf.new)) }
    ensures cut { OnErr result ((S.held shelf.new ≡ S.held shelf.old) ⊎ CutsOf album.now.force album.now.folder.now file.now
        document.now (S.held shelf.old) (S.held shelf.new)) }
    ensures others { (other : List ℕ) → ¬ (IsPictureName album.now.folder.now other)
        → StaysAt other (S.held shelf.old) (S.held shelf.new) }
    ensures there { IsErrOf result AlbumFault.There
        → IsFileThere album.now.force album.now.folder.now (S.held shelf.old) }
    ensures failed { IsErrOf result AlbumFault.Failed → Rose (S.faults shelf.old) (S.faults shelf.new) }
{
    match Container::load_outer(alloc, file) {
        Ok(outer) => {
            let stream = data_of(outer.container());
            write_pictures_in(alloc, shelf, album, stream, document)
        }
        // The file was opened, so its container breaks no rule, and memory ran out.
        Err(_) => Err(AlbumFault::Memory),
    }
}

/// Writes the files of the pictures whose bytes the stream with pictures has.
fn write_pictures_in<S: Shelf>(
    alloc: Global,
    shelf: &mut S,
    album: &Album<'_>,
    stream: &[u8],
    document: &ColumnDocument,
) -> Result<Pictures, AlbumFault>
    ensures written { IfOk result (λ pictures. WritesIn album.now.force album.now.folder.now stream.now document.now pictures
        (S.held shelf.old) (S.held shelf.new)) }
    ensures cut { OnErr result ((S.held shelf.new ≡ S.held shelf.old) ⊎ CutsIn album.now.force album.now.folder.now
        stream.now document.now (S.held shelf.old) (S.held shelf.new)) }
    ensures others { (other : List ℕ) → ¬ (IsPictureName album.now.folder.now other)
        → StaysAt other (S.held shelf.old) (S.held shelf.new) }
    ensures there { IsErrOf result AlbumFault.There
        → IsFileThere album.now.force album.now.folder.now (S.held shelf.old) }
    ensures failed { IsErrOf result AlbumFault.Failed → Rose (S.faults shelf.old) (S.faults shelf.new) }
{
    match pictures_of(alloc, document, stream) {
        Ok(pictures) => match write_pictures(alloc, shelf, album, stream, pictures.as_slice()) {
            Ok(()) => Ok(pictures),
            Err(fault) => Err(fault),
        },
        Err(_) => Err(AlbumFault::Memory),
    }
}

/// The bytes of the stream with pictures. Where it is not there it has none.
fn data_of(container: &Container) -> &[u8]
    ensures { IsDataIn container.now.streams result.now }
{
    match container.stream(&DATA) {
        Some(bytes) => bytes,
        None => &[],
    }
}
