// Puts where the system refuses a call: a full disk, a folder in which no file is made, a signal. The
// files are those of the system, of which two calls can be refused.
use crate::puts::{NEW, holds, put_by};
use doc_outer::PutFault;
use std::alloc::Allocator;
use std::fs::{Metadata, OpenFile, OpenOptions, Permissions};
use std::io::{Eprint, ErrorKind, PipeReader, PipeWriter, Read, Seek, SeekFrom, Write};
use std::os::fd::BorrowedFd;
use std::os::unix::net::SocketAddr;
use std::path::PathBuf;
use std::rt::Files;
use std::test::Fail;
use std::{fs, io};

const OLD: &[u8] = b"old";

/// What is refused.
#[derive(Clone, Copy)]
struct Refusals {
    /// Each call that is to make a file of a name that nobody has.
    making: Option<ErrorKind>,
    /// Each write; where a signal cuts it short, the first one alone.
    writing: Option<ErrorKind>,
}

/// The files of the system, with refusals.
#[derive(Drop)]
struct Refusing<R: Drop> {
    files: R,
    refusals: Refusals,
}

#[derive(Drop)]
struct RefusingFile<F: Drop> {
    file: F,
    writing: Option<ErrorKind>,
}

impl<F: Read + Drop> Read for RefusingFile<F> {
    fn read(&mut self, buf: &mut [u8]) -> io::Result<usize> {
        self.file.read(buf)
    }
}

impl<F: Write + Drop> Write for RefusingFile<F> {
    /// Takes four bytes at most.
    fn write(&mut self, buf: &[u8]) -> io::Result<usize> {
        if let Some(kind) = self.writing {
            if kind == ErrorKind::Interrupted {
                self.writing = None;
            }
            return Err(kind.into());
        }
        self.file.write(&buf[..buf.len().min(4)])
    }

    fn flush(&mut self) -> io::Result<()> {
        self.file.flush()
    }
}

impl<F: Seek + Drop> Seek for RefusingFile<F> {
    fn seek(&mut self, to: SeekFrom) -> io::Result<u64> {
        self.file.seek(to)
    }
}

impl<F: OpenFile + Drop> OpenFile for RefusingFile<F> {
    fn metadata(&self) -> io::Result<Metadata> {
        self.file.metadata()
    }

    fn set_len(&self, size: u64) -> io::Result<()> {
        self.file.set_len(size)
    }

    fn sync_all(&self) -> io::Result<()> {
        self.file.sync_all()
    }

    fn sync_data(&self) -> io::Result<()> {
        self.file.sync_data()
    }

    fn set_permissions(&self, permissions: Permissions) -> io::Result<()> {
        self.file.set_permissions(permissions)
    }
}

impl<R: Files + Drop> Files for Refusing<R> {
    type File = RefusingFile<R::File>;

    type Dir = R::Dir;

    fn open_file(&self, how: &OpenOptions, path: &str) -> io::Result<RefusingFile<R::File>> {
        if let Some(kind) = self.refusals.making {
            if how.asks_create_new() {
                return Err(kind.into());
            }
        }
        let file = self.files.open_file(how, path)?;
        Ok(RefusingFile {
            file,
            writing: self.refusals.writing,
        })
    }

    fn open_dir(&self, path: &str) -> io::Result<R::Dir> {
        self.files.open_dir(path)
    }

    fn metadata(&self, path: &str) -> io::Result<Metadata> {
        self.files.metadata(path)
    }

    fn symlink_metadata(&self, path: &str) -> io::Result<Metadata> {
        self.files.symlink_metadata(path)
    }

    fn copy(&self, from: &str, to: &str) -> io::Result<u64> {
        self.files.copy(from, to)
    }

    fn rename(&self, from: &str, to: &str) -> io::Result<()> {
        self.files.rename(from, to)
    }

    fn remove_file(&self, path: &str) -> io::Result<()> {
        self.files.remove_file(path)
    }

    fn create_dir(&self, path: &str) -> io::Result<()> {
        self.files.create_dir(path)
    }

    fn remove_dir(&self, path: &str) -> io::Result<()> {
        self.files.remove_dir(path)
    }

    fn remove_dir_all<B: Allocator>(&self, alloc: B, path: &str) -> io::Result<()> {
        self.files.remove_dir_all(alloc, path)
    }

    // The puts below call none of these. Passed on, they are less dear to prove than as the trait has them.
    fn canonicalize<B: Allocator>(&self, alloc: B, path: &str) -> io::Result<PathBuf<B>> {
        self.files.canonicalize(alloc, path)
    }

    fn read_link<B: Allocator>(&self, alloc: B, path: &str) -> io::Result<PathBuf<B>> {
        self.files.read_link(alloc, path)
    }

    fn hard_link(&self, original: &str, link: &str) -> io::Result<()> {
        self.files.hard_link(original, link)
    }

    fn set_permissions(&self, path: &str, permissions: Permissions) -> io::Result<()> {
        self.files.set_permissions(path, permissions)
    }

    fn symlink(&self, original: &str, link: &str) -> io::Result<()> {
        self.files.symlink(original, link)
    }

    fn pipe(&self) -> io::Result<(PipeReader, PipeWriter)> {
        self.files.pipe()
    }

    fn chown(&self, path: &str, uid: Option<u32>, gid: Option<u32>) -> io::Result<()> {
        self.files.chown(path, uid, gid)
    }

    fn lchown(&self, path: &str, uid: Option<u32>, gid: Option<u32>) -> io::Result<()> {
        self.files.lchown(path, uid, gid)
    }

    fn create_dir_with_mode(&self, path: &str, mode: u32) -> io::Result<()> {
        self.files.create_dir_with_mode(path, mode)
    }

    fn bind_unix(&self, socket: BorrowedFd<'_>, addr: &SocketAddr) -> io::Result<()> {
        self.files.bind_unix(socket, addr)
    }
}

/// What a put answers with these refusals.
fn put<R: Files + Eprint + AllocGlobal>(rt: &R, refusals: Refusals) -> Result<(), PutFault> {
    let files = Refusing {
        files: rt,
        refusals,
    };
    put_by(rt.alloc(), files, rt, "refused")
}

/// What is refused, what a put answers, and what its name holds then.
struct Row(
    Option<ErrorKind>,
    Option<ErrorKind>,
    Result<(), PutFault>,
    &'static [u8],
);

const NONE: Option<ErrorKind> = Some(ErrorKind::OutOfMemory);

const FULL: Option<ErrorKind> = Some(ErrorKind::StorageFull);

const DENIED: Option<ErrorKind> = Some(ErrorKind::PermissionDenied);

const SIGNAL: Option<ErrorKind> = Some(ErrorKind::Interrupted);

const ROWS: [Row; 8] = [
    // A full disk leaves the old file.
    Row(None, FULL, Err(PutFault::Failed), OLD),
    Row(FULL, None, Err(PutFault::Failed), OLD),
    // A file in a folder that takes none is written directly.
    Row(DENIED, None, Ok(()), NEW),
    Row(DENIED, FULL, Err(PutFault::Failed), b""),
    // A write that a signal cut short goes on.
    Row(None, SIGNAL, Ok(()), NEW),
    // Want of memory leaves the old file.
    Row(NONE, None, Err(PutFault::Memory), OLD),
    Row(None, NONE, Err(PutFault::Memory), OLD),
    Row(DENIED, NONE, Err(PutFault::Failed), b""),
];

/// Whether a put over an old file answers as a row says, and the name then holds what it says.
fn is_put<R: Files + Eprint + AllocGlobal>(rt: &R, row: &Row) -> io::Result<bool> {
    fs::write(rt, "refused", OLD)?;
    let refusals = Refusals {
        making: row.0,
        writing: row.1,
    };
    let answer = put(rt, refusals);
    let held = holds(rt, "refused", row.3);
    let left = fs::exists(rt, ".docbin-0.tmp")?;
    fs::remove_file(rt, "refused")?;
    Ok(answer == row.2 && held && !left)
}

/// Whether each put of the rows is answered so.
fn are_put<R: Files + Eprint + AllocGlobal>(rt: &R, rows: &[Row]) -> io::Result<bool> {
    for row in rows {
        if !is_put(rt, row)? {
            return Ok(false);
        }
    }
    Ok(true)
}

#[test]
fn what_the_system_refuses_leaves_the_old_file(rt: HostRuntime) -> Result<(), Fail> {
    assert!(rt; are_put(&rt, &ROWS)?);
    Ok(())
}
