// Real files. What they hold is known by nobody: this is the trusted edge.
ghost use Rattle.std.specs.Prelude.{◌≡◌, ◌≤◌, length, None, IfOk, IsErrOf};
ghost use Rattle.doc_outer.specs.Counts.{Rose, CountGoesOn};
ghost use Rattle.doc_outer.specs.HostCounts.{no_counts};
ghost use Rattle.doc_outer.specs.Puts.{faults_putting};
ghost use Rattle.doc_outer.specs.Reads.{faults_after, missed_after};

use crate::file_put::put_file;
use crate::{PutFault, Shelf, ShelfFault};
use doc_bits::{Memory, Text};
use std::alloc::Global;
use std::io::{Eprint, ErrorKind, Read, Seek, SeekFrom};
use std::marker::Model;
use std::rt::Files;
use std::{fs, io};

/// How often a read that a signal cut short is tried.
const TRIES: usize = 64;

/// The file that was read last, and the byte where its next read begins. It stays open, so that a
/// pipe can be read in order.
#[derive(Drop)]
struct LastFile<F> {
    name: Text,
    file: F,
    at: u64,
}

/// The files of the system, by their paths. Why a call failed is written to the standard error.
#[derive(Drop)]
pub struct HostShelf<R: Files + Drop, E: Eprint + Drop> {
    alloc: Global,
    program: &'static str,
    files: R,
    reasons: E,
    last: Option<LastFile<R::File>>,
    faults: u64,
    put_faults: u64,
    missed: u64,
}

impl<R: Files + Drop, E: Eprint + Drop> Model for HostShelf<R, E> {
    ghost use Rattle.doc_outer.specs.HostCounts.{HostCounts};

    ghost Value = { HostCounts };

    ghost view = { λ s. record { faults = s.faults; put_faults = s.put_faults; missed = s.missed } };
}

impl<R: Files + Drop, E: Eprint + Drop> HostShelf<R, E> {
    /// The files of a runtime, and whose standard error is told why a call failed, in lines that begin with the
    /// program's name. The allocator is for the name of the file that was read last.
    pub fn new(alloc: Global, program: &'static str, files: R, reasons: E) -> HostShelf<R, E>
        ensures { result ≡ no_counts }
    {
        HostShelf {
            alloc,
            program,
            files,
            reasons,
            last: None,
            faults: 0,
            put_faults: 0,
            missed: 0,
        }
    }
}

/// Tells why the system failed at a name, as far as the standard error takes it.
fn tell<E: Eprint>(reasons: &E, program: &str, name: &str, error: &io::Error) {
    let _ = reasons.eprintln(format_args!("{program}: {name:?}: {error}"));
}

/// What a refusal of the system is to a caller.
fn fault_of(error: &io::Error) -> ShelfFault {
    match error.kind() {
        ErrorKind::NotFound => ShelfFault::Missing,
        ErrorKind::OutOfMemory => ShelfFault::Memory,
        _ => ShelfFault::Failed,
    }
}

/// What a refused read is to a caller. A failed one is told.
fn read_fault<E: Eprint>(reasons: &E, program: &str, name: &str, error: io::Error) -> ShelfFault {
    let fault = fault_of(&error);
    if let ShelfFault::Failed = fault {
        tell(reasons, program, name, &error);
    }
    fault
}

/// What a refused put is to a caller. A failed one is told.
fn put_fault<E: Eprint>(reasons: &E, program: &str, name: &str, error: io::Error) -> PutFault {
    if error.kind() == ErrorKind::OutOfMemory {
        return PutFault::Memory;
    }
    tell(reasons, program, name, &error);
    PutFault::Failed
}

/// Opens a file for reads from `at` on.
fn open_at<R: Files>(
    alloc: Global,
    files: &R,
    name: &str,
    at: u64,
) -> io::Result<LastFile<R::File>> {
    let mut key = Text::new(alloc);
    if key.push_all(name).is_err() {
        return Err(ErrorKind::OutOfMemory.into());
    }
    let mut file = fs::open(files, name)?;
    if at != 0 {
        file.seek(SeekFrom::Start(at))?;
    }
    Ok(LastFile {
        name: key,
        file,
        at,
    })
}

/// One read. Where a signal cut it short it is tried again.
fn read_some<F: Read>(file: &mut F, buf: &mut [u8]) -> io::Result<usize>
    ensures { IfOk result (λ count. count ≤ length buf.old) }
{
    for _ in 0..TRIES {
        match file.read(buf) {
            Err(error) if error.kind() == ErrorKind::Interrupted => {}
            answer => return answer,
        }
    }
    Err(ErrorKind::Interrupted.into())
}

/// Reads on in the file that was read last where its next read begins at `at`, and else in a file that
/// is opened anew.
fn read_on<R: Files>(
    alloc: Global,
    files: &R,
    last: &mut Option<LastFile<R::File>>,
    name: &str,
    at: u64,
    buf: &mut [u8],
) -> io::Result<usize>
    ensures { IfOk result (λ count. count ≤ length buf.old) }
{
    let mut opened = match last.take() {
        Some(opened) if opened.at == at && opened.name.as_str() == name => opened,
        _ => open_at(alloc, files, name, at)?,
    };
    let count = read_some(&mut opened.file, buf)?;
    if count > 0 {
        opened.at = at.saturating_add(count as u64);
        *last = Some(opened);
    }
    Ok(count)
}

impl<R: Files + Drop, E: Eprint + Drop> Shelf for HostShelf<R, E> {
    ghost held = { λ _. None };

    ghost faults = { λ s. s.faults };

    ghost put_faults = { λ s. s.put_faults };

    ghost missed = { λ s. s.missed };

    fn read_at(&mut self, name: &str, at: u64, buf: &mut [u8]) -> Result<usize, ShelfFault>
        // As every shelf, but nothing is known.
        ensures within { IfOk result (λ count. count ≤ length buf.old) }
        ensures failed { IsErrOf result ShelfFault.Failed → Rose self.old.faults self.new.faults }
        ensures missing { IsErrOf result ShelfFault.Missing → Rose self.old.missed self.new.missed }
        ensures no_fault { IsErrOf result ShelfFault.Missing → self.new.faults ≡ self.old.faults }
        ensures memory { IsErrOf result ShelfFault.Memory
            → (self.new.faults ≡ self.old.faults) × (self.new.missed ≡ self.old.missed) }
        ensures faults { CountGoesOn self.old.faults self.new.faults }
        ensures missed { CountGoesOn self.old.missed self.new.missed }
        ensures put_faults { self.new.put_faults ≡ self.old.put_faults }

        // Exactly.
        ensures faults_exact { self.new.faults ≡ faults_after result self.old.faults }
        ensures missed_exact { self.new.missed ≡ missed_after result self.old.missed }
    {
        let read = read_on(self.alloc, &self.files, &mut self.last, name, at, buf);
        let answer = read.map_err(|error| read_fault(&self.reasons, self.program, name, error));
        match answer {
            Err(ShelfFault::Failed) => self.faults = self.faults.saturating_add(1),
            Err(ShelfFault::Missing) => self.missed = self.missed.saturating_add(1),
            _ => {}
        }
        answer
    }

    fn put(&mut self, name: &str, bytes: &[u8]) -> Result<(), PutFault>
        // As every shelf, but nothing is known.
        ensures failed { IsErrOf result PutFault.Failed
            → Rose self.old.faults self.new.faults × Rose self.old.put_faults self.new.put_faults }
        ensures memory { IsErrOf result PutFault.Memory
            → (self.new.faults ≡ self.old.faults)
            × ((self.new.put_faults ≡ self.old.put_faults) × (self.new.missed ≡ self.old.missed)) }
        ensures faults { CountGoesOn self.old.faults self.new.faults }
        ensures put_faults { CountGoesOn self.old.put_faults self.new.put_faults }
        ensures missed { CountGoesOn self.old.missed self.new.missed }

        // Exactly.
        ensures faults_exact { self.new.faults ≡ faults_putting result self.old.faults }
        ensures put_faults_exact { self.new.put_faults ≡ faults_putting result self.old.put_faults }
        ensures missed_exact { self.new.missed ≡ self.old.missed }
    {
        // The file that stays open may be the one that is replaced.
        self.last = None;
        let put = put_file(self.alloc, &self.files, name, bytes);
        let answer = put.map_err(|error| put_fault(&self.reasons, self.program, name, error));
        if let Err(PutFault::Failed) = answer {
            self.faults = self.faults.saturating_add(1);
            self.put_faults = self.put_faults.saturating_add(1);
        }
        answer
    }
}
