// Bytes are put under the name of a real file. What is there is replaced whole, or not at all, where
// the system lets a file be made beside it.
use std::alloc::Global;
use std::fs::{OpenFile, OpenOptions, Permissions};
use std::io::{ErrorKind, Write};
use std::os::unix::fs::OpenOptionsExt;
use std::path::PathBuf;
use std::rt::Files;
use std::{fs, io};

/// How many names are tried for the file that is made beside another.
const MAX_NAMES: u32 = 1_000;

/// Who may read and write a file while it is written that is to have the permissions of another.
const OWNER_ONLY: u32 = 0o600;

/// A regular file, or a name that nobody has: here a new file can take the place.
#[derive(Drop)]
struct Place {
    path: PathBuf,
    /// Those of the file that is there.
    permissions: Option<Permissions>,
}

/// A file that was made under a name that nobody had.
#[derive(Drop)]
struct NewFile<F> {
    path: PathBuf,
    file: F,
}

/// Lets a name hold exactly these bytes. They are written into a new file beside it, which then takes its
/// place; a name whose place cannot be taken is written directly.
pub(crate) fn put_file<R: Files>(
    alloc: Global,
    files: &R,
    name: &str,
    bytes: &[u8],
) -> io::Result<()> {
    if let Some(place) = place_of(alloc, files, name)? {
        if let Some(new) = new_beside(alloc, files, &place)? {
            return replace(files, place, new, bytes);
        }
    }
    write_directly(files, name, bytes)
}

/// The place that a new file can take: that of a regular file which may be written, or a new one. A link
/// is followed to its file. A pipe, a device and a link that leads nowhere have none.
fn place_of<R: Files>(alloc: Global, files: &R, name: &str) -> io::Result<Option<Place>> {
    match files.metadata(name) {
        Ok(there) if there.is_file() => old_place(alloc, files, name),
        Ok(_) => Ok(None),
        Err(error) if error.kind() == ErrorKind::NotFound => new_place(alloc, files, name),
        Err(error) => Err(error),
    }
}

/// The place of a regular file, by the name that is no link.
fn old_place<R: Files>(alloc: Global, files: &R, name: &str) -> io::Result<Option<Place>> {
    let old = OpenOptions::new().write(true).open(files, name)?;
    let permissions = Some(old.metadata()?.permissions());
    let path = if files.symlink_metadata(name)?.is_symlink() {
        if_granted(files.canonicalize(alloc, name))?
    } else {
        Some(PathBuf::from_str(alloc, name)?)
    };
    Ok(path.map(|path| Place { path, permissions }))
}

/// The place of a name that nobody has.
fn new_place<R: Files>(alloc: Global, files: &R, name: &str) -> io::Result<Option<Place>> {
    if files.symlink_metadata(name).is_ok() {
        return Ok(None);
    }
    let path = PathBuf::from_str(alloc, name)?;
    Ok(Some(Place {
        path,
        permissions: None,
    }))
}

/// Nothing where the system does not grant it. A want of memory and a full disk stay errors.
fn if_granted<T: Drop>(answer: io::Result<T>) -> io::Result<Option<T>> {
    match answer {
        Ok(value) => Ok(Some(value)),
        Err(error) => match error.kind() {
            ErrorKind::OutOfMemory | ErrorKind::StorageFull | ErrorKind::QuotaExceeded => Err(
                error,
            ),
            _ => Ok(None),
        },
    }
}

/// A new file in the folder of a place, where the system grants one.
fn new_beside<R: Files>(
    alloc: Global,
    files: &R,
    place: &Place,
) -> io::Result<Option<NewFile<R::File>>> {
    let mut options = OpenOptions::new();
    options.write(true).create_new(true);
    if place.permissions.is_some() {
        options.mode(OWNER_ONLY);
    }
    for number in 0..MAX_NAMES {
        let name = format!(in alloc; ".docbin-{number}.tmp")?;
        let path = place.path.as_path().with_file_name(alloc, name.as_str())?;
        match options.open(files, path.as_path()) {
            Err(error) if error.kind() == ErrorKind::AlreadyExists => {}
            answer => return Ok(if_granted(answer)?.map(|file| NewFile { path, file })),
        }
    }
    Ok(None)
}

/// Fills the new file and lets it take the place. Where anything fails it is removed.
fn replace<R: Files>(
    files: &R,
    place: Place,
    new: NewFile<R::File>,
    bytes: &[u8],
) -> io::Result<()> {
    let path = new.path;
    let filled = fill(new.file, place.permissions, bytes);
    let answer = match filled {
        Ok(()) => fs::rename(files, path.as_path(), place.path.as_path()),
        Err(error) => Err(error),
    };
    if answer.is_err() {
        let _removed = fs::remove_file(files, path.as_path());
    }
    answer
}

/// Writes all bytes to the disk, and closes the file.
fn fill<F: Write + OpenFile + Drop>(
    mut file: F,
    permissions: Option<Permissions>,
    bytes: &[u8],
) -> io::Result<()> {
    file.write_all(bytes)?;
    if let Some(permissions) = permissions {
        file.set_permissions(permissions)?;
    }
    file.sync_all()
}

/// Writes into what the name represents. Once that is opened it is no longer as it was, so that no
/// failure from there on is want of memory; else it keeps the system's reason.
fn write_directly<R: Files>(files: &R, name: &str, bytes: &[u8]) -> io::Result<()> {
    let mut file = fs::create(files, name)?;
    match file.write_all(bytes) {
        Err(error) if error.kind() == ErrorKind::OutOfMemory => Err(ErrorKind::Other.into()),
        answer => answer,
    }
}
