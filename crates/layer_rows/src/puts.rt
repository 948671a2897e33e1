// Puts into real files, links, pipes and folders. What a name holds afterwards is read by std alone.
use crate::outside::reads;
use doc_outer::{HostShelf, PutFault, Shelf};
use std::alloc::Global;
use std::fs::Permissions;
use std::io::{Eprint, Read};
use std::os::fd::AsRawFd;
use std::os::unix::fs::{PermissionsExt, symlink};
use std::rt::Files;
use std::test::Fail;
use std::{fs, io};

pub(crate) const NEW: &[u8] = b"new bytes";

/// What a put of `NEW` under a name answers.
fn put_new<S: Shelf>(shelf: &mut S, name: &str) -> Result<(), PutFault> {
    shelf.put(name, NEW)
}

/// What a put of `NEW` under a name answers, by these files.
pub(crate) fn put_by<F: Files + Drop, E: Eprint + Drop>(
    alloc: Global,
    files: F,
    reasons: E,
    name: &str,
) -> Result<(), PutFault> {
    let mut shelf = HostShelf::new(alloc, "layer_rows", files, reasons);
    put_new(&mut shelf, name)
}

/// What a put of `NEW` under a name answers, by the files of the system.
fn put<R: Files + Eprint + AllocGlobal>(rt: &R, name: &str) -> Result<(), PutFault> {
    put_by(rt.alloc(), rt, rt, name)
}

/// Whether a file holds exactly these bytes.
pub(crate) fn holds<R: Files + AllocGlobal>(rt: &R, name: &str, bytes: &[u8]) -> bool {
    match fs::read(rt, name) {
        Ok(all) => all.as_slice() == bytes,
        Err(_) => false,
    }
}

#[test]
fn a_put_makes_a_file_or_replaces_it(rt: HostRuntime) -> Result<(), Fail> {
    fs::create_dir(&rt, "made")?;
    assert!(rt; put(&rt, "made/out").is_ok());
    assert!(rt; holds(&rt, "made/out", NEW));
    fs::write(
        &rt,
        "made/out",
        b"more bytes than the new ones are".as_slice(),
    )?;
    assert!(rt; put(&rt, "made/out").is_ok());
    assert!(rt; holds(&rt, "made/out", NEW));
    assert!(rt; !fs::exists(&rt, "made/.docbin-0.tmp")?);
    fs::remove_dir_all(&rt, "made")?;
    Ok(())
}

/// The permissions of a file.
fn mode<R: Files>(rt: &R, name: &str) -> io::Result<u32> {
    Ok(fs::metadata(rt, name)?.permissions().mode() & 0o777)
}

#[test]
fn a_file_that_is_replaced_keeps_its_permissions(rt: HostRuntime) -> Result<(), Fail> {
    fs::write(&rt, "kept", b"old".as_slice())?;
    fs::set_permissions(&rt, "kept", Permissions::from_mode(0o640))?;
    assert!(rt; put(&rt, "kept").is_ok());
    assert!(rt; holds(&rt, "kept", NEW));
    assert!(rt; mode(&rt, "kept")? == 0o640);
    fs::remove_file(&rt, "kept")?;
    Ok(())
}

#[test]
fn a_link_is_followed_to_its_file(rt: HostRuntime) -> Result<(), Fail> {
    fs::create_dir(&rt, "linked")?;
    fs::write(&rt, "linked/file", b"old".as_slice())?;
    symlink(&rt, "file", "linked/link")?;
    assert!(rt; put(&rt, "linked/link").is_ok());
    assert!(rt; holds(&rt, "linked/file", NEW));
    assert!(rt; fs::symlink_metadata(&rt, "linked/link")?.is_symlink());
    symlink(&rt, "nowhere", "linked/loose")?;
    assert!(rt; put(&rt, "linked/loose").is_ok());
    assert!(rt; holds(&rt, "linked/nowhere", NEW));
    assert!(rt; !fs::exists(&rt, "linked/.docbin-0.tmp")?);
    fs::remove_dir_all(&rt, "linked")?;
    Ok(())
}

#[test]
fn a_name_that_somebody_has_is_not_taken(rt: HostRuntime) -> Result<(), Fail> {
    fs::create_dir(&rt, "shared")?;
    fs::write(&rt, "shared/.docbin-0.tmp", b"another's".as_slice())?;
    assert!(rt; put(&rt, "shared/out").is_ok());
    assert!(rt; holds(&rt, "shared/out", NEW));
    assert!(rt; holds(&rt, "shared/.docbin-0.tmp", b"another's"));
    assert!(rt; !fs::exists(&rt, "shared/.docbin-1.tmp")?);
    fs::remove_dir_all(&rt, "shared")?;
    Ok(())
}

/// Whether a file that is read on in order gives the bytes that were put in between.
fn reads_on<S: Shelf>(shelf: &mut S, name: &str) -> bool {
    let first = reads(shelf, name, 0, b"some");
    let put = put_new(shelf, name).is_ok();
    first && put && reads(shelf, name, 4, b"byte")
}

/// Whether a file of these files that is read on in order gives the bytes that were put in between.
fn is_let_go<F: Files + Drop, E: Eprint + Drop>(
    alloc: Global,
    files: F,
    reasons: E,
    name: &str,
) -> bool {
    let mut shelf = HostShelf::new(alloc, "layer_rows", files, reasons);
    reads_on(&mut shelf, name)
}

#[test]
fn the_file_that_was_read_last_is_let_go_of(rt: HostRuntime) -> Result<(), Fail> {
    fs::write(&rt, "read", b"some more bytes".as_slice())?;
    assert!(rt; is_let_go(rt.alloc(), &rt, &rt, "read"));
    fs::remove_file(&rt, "read")?;
    Ok(())
}

#[test]
fn a_pipe_is_written_directly(rt: HostRuntime) -> Result<(), Fail> {
    let (mut reader, writer) = io::pipe(&rt)?;
    let number = writer.as_raw_fd();
    let name = format!(in rt.alloc(); "/dev/fd/{number}")?;
    assert!(rt; put(&rt, name.as_str()).is_ok());
    let mut buf = [0u8; 16];
    assert!(rt; reader.read(&mut buf)? == 9);
    assert!(rt; buf[..9] == NEW[..9]);
    Ok(())
}

#[test]
fn what_cannot_be_put_fails(rt: HostRuntime) -> Result<(), Fail> {
    assert!(rt; put(&rt, "no_folder/out") == Err(PutFault::Failed));
    assert!(rt; put(&rt, ".") == Err(PutFault::Failed));
    assert!(rt; put(&rt, "") == Err(PutFault::Failed));
    assert!(rt; put(&rt, "/dev/full") == Err(PutFault::Failed));
    assert!(rt; !fs::exists(&rt, ".docbin-0.tmp")?);
    Ok(())
}
