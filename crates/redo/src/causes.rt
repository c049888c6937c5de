//! The cause of a message, which `-v` adds if it is known.

use crate::damaged;
use crate::status::Fault;
use bstr::BStr;
use redo_bundle::BundleFault;
use redo_line::{Action, Input, MOST_TARGETS, Storing};
use redo_run::{Cause, Said};
use std::alloc::{AllocError, Global};
use std::fmt::Display;
use std::io::ErrorKind;
use std::rt::Runtime;

/// A cause in words, or `None` if no more is known than the message says.
pub(crate) type Words = Result<Option<String>, AllocError>;

/// The directory that is read, if one is.
fn directory_in(input: &Input) -> &str {
    match input {
        Input::Directory(dir) => dir,
        Input::Bundle => "",
    }
}

/// The directory that this is done to, if it is one.
fn directory_of(action: &Action) -> &str {
    match action {
        Action::Build(build) => directory_in(&build.input),
        Action::Dead(dead) => directory_in(&dead.build.input),
        Action::Whichdo(_, input) => directory_in(input),
        Action::Ask(query) => directory_in(&query.input),
        Action::OutOfDate(listing) => directory_in(&listing.input),
        Action::Shadowed(shadows) => directory_in(&shadows.input),
        Action::Pack(packing) => &packing.dir,
        Action::Unpack(dir) => dir,
        Action::Clean(cleaning) => &cleaning.dir,
    }
}

/// Whether files are stored before anything is printed.
fn stores_first(action: &Action) -> bool {
    match action {
        Action::Build(build) => {
            matches!(build.input, Input::Directory(_)) && build.storing != Storing::Nothing
        }
        _ => false,
    }
}

/// The cause of a run's fault: the entry of the bundle, the directory or file, the book, or the limit.
pub(crate) fn of_fault<H: Runtime>(
    rt: &H,
    alloc: Global,
    fault: Fault,
    cause: &Cause,
    action: &Action,
) -> Words {
    match fault {
        Fault::Bundle(fault) => of_bundle(alloc, fault, &cause.header),
        Fault::Directory | Fault::Memory => of_unread(alloc, cause, directory_of(action)),
        Fault::Unstored | Fault::Unremoved | Fault::Journal | Fault::Left => {
            of_place(alloc, cause)
        }
        Fault::NoBook => Ok(Some(format!(in alloc;
            "no run has left a book in {:?}, so every file there counts as yours",
            directory_of(action)
        )?)),
        Fault::NotEmpty => Ok(Some(format!(in alloc;
            "{:?} has names; a bundle is unpacked into an empty directory or a new one",
            directory_of(action)
        )?)),
        Fault::Output if stores_first(action) => of_lost_report(alloc, cause),
        Fault::Output => Ok(None),
        Fault::Busy => Ok(Some(format!(in alloc;
            "the lock of {:?} is held; a run gives it back when it ends, however it ends",
            directory_of(action)
        )?)),
        Fault::Book(line) => {
            let words = damaged::words_of(rt, alloc, directory_of(action), line);
            Ok(Some(String::from_str(alloc, words)?))
        }
        Fault::Unbuilt => Ok(Some(format!(in alloc; "redo -k -n -v says why it fails")?)),
        Fault::TooMany => Ok(Some(format!(in alloc;
            "more than {MOST_TARGETS} targets are needed"
        )?)),
    }
}

/// Why a report can't be written after all files were stored.
fn of_lost_report(alloc: Global, cause: &Cause) -> Words {
    let words = match cause.said {
        Some(Said::System(ErrorKind::BrokenPipe)) => {
            "the reader of the report has gone; the files and the book are stored"
        }
        _ => "the files and the book are stored; only the report is lost",
    };
    Ok(Some(String::from_str(alloc, words)?))
}

/// The entry at which a bundle is refused.
fn of_bundle(alloc: Global, fault: BundleFault, header: &[u8]) -> Words {
    match fault {
        BundleFault::Path(_, why) => of_path(alloc, path_in(header), why),
        BundleFault::Tree(_, why) => of_path(alloc, path_in(header), why),
        BundleFault::Line(_) | BundleFault::Truncated => {
            let header = BStr::new(header);
            Ok(Some(format!(in alloc; "the last header is {header:?}")?))
        }
        BundleFault::Read | BundleFault::Memory => Ok(None),
    }
}

/// What can't be read, a directory or something in it, by its name in the system, and why: memory may have run out.
fn of_unread(alloc: Global, cause: &Cause, dir: &str) -> Words {
    let Some(said) = cause.said else {
        return Ok(None);
    };
    let mut place = Vec::new(alloc);
    place.extend_from_slice(dir.as_bytes())?;
    if !cause.place.is_empty() {
        place.extend_from_slice(b"/")?;
        place.extend_from_slice(&cause.place)?;
    }
    let place = BStr::new(&place);
    Ok(Some(format!(in alloc; "{place:?}: {said}")?))
}

/// The file that can't be stored, and what the system said of it.
fn of_place(alloc: Global, cause: &Cause) -> Words {
    match cause.said {
        Some(said) => {
            let place = BStr::new(&cause.place);
            Ok(Some(format!(in alloc; "{place:?}: {said}")?))
        }
        None => Ok(None),
    }
}

/// A path, and what is wrong with it.
fn of_path<E: Display + Drop>(alloc: Global, path: &[u8], why: E) -> Words {
    let path = BStr::new(path);
    Ok(Some(format!(in alloc; "{path:?}: {why}")?))
}

/// The path in an entry's header line: what follows `dir`, or `file` and the length.
fn path_in(header: &[u8]) -> &[u8] {
    if let Some(path) = header.strip_prefix(b"dir ") {
        return path;
    }
    match header.splitn(3, |byte| *byte == b' ').nth(2) {
        Some(path) => path,
        None => header,
    }
}
