//! A bundle as a directory.

use crate::lock;
use crate::status::Fault;
use redo_bundle::{Plain, read_bundle_by_line};
use redo_dir::Lockable;
use redo_pack::{SystemTop, UnpackFault, unpack};
use redo_run::{Cause, Said};
use std::alloc::Global;
use std::io::ErrorKind;
use std::path::Path as SystemPath;
use std::rt::Runtime;
use std::{fs, io};

/// Makes a directory, unless one stands there.
fn make_top<H: Runtime>(rt: &H, dir: &str) -> io::Result<()> {
    match fs::create_dir(rt, SystemPath::new(dir)) {
        Err(error) if error.kind() == ErrorKind::AlreadyExists => Ok(()),
        outcome => outcome,
    }
}

/// Whether a directory has no names.
fn is_empty<H: Runtime>(rt: &H, alloc: Global, dir: &str) -> io::Result<bool> {
    let reader = (rt, alloc);
    let mut names = fs::read_dir(&reader, SystemPath::new(dir))?;
    match names.next() {
        None => Ok(true),
        // A name that isn't UTF-8 is one, too.
        Some(Err(error)) if error.kind() != ErrorKind::InvalidFilename => Err(error),
        Some(_) => Ok(false),
    }
}

/// The fault of a directory that can't be made or read. The cause says what the system said of it.
fn unmade(cause: &mut Cause, error: io::Error) -> Fault {
    match error.kind() {
        ErrorKind::OutOfMemory => Fault::Memory,
        kind => {
            cause.said = Some(Said::System(kind));
            Fault::Directory
        }
    }
}

/// Makes the directories and files of a bundle on standard input, in a directory that is empty or new.
pub(crate) fn unpack_into<H: Runtime>(
    rt: &H,
    alloc: Global,
    dir: &str,
    cause: &mut Cause,
) -> Result<bool, Fault>
where
    H::File: Send + Lockable,
{
    let mut reader = Plain::new(rt.reader());
    let tree = read_bundle_by_line(alloc, &mut reader, &mut cause.header)?;
    make_top(rt, dir).map_err(|error| unmade(cause, error))?;
    let _lock = lock(rt, alloc, dir, cause)?;
    if !is_empty(rt, alloc, dir).map_err(|error| unmade(cause, error))? {
        return Err(Fault::NotEmpty);
    }
    match unpack(alloc, &mut SystemTop::new(rt, alloc, dir), &tree) {
        Ok(()) => Ok(true),
        Err(UnpackFault::Memory) => Err(Fault::Memory),
        Err(UnpackFault::Device(path, said)) => {
            cause.place.extend_from_slice(path.text())?;
            cause.said = Some(Said::System(said));
            Err(Fault::Unstored)
        }
    }
}
