//! The directory that a run is over, and directories above it.

use crate::commands::{DIRECTORY, TOP};
use crate::line::Line;
use crate::refusal::Refusal;
use redo_path::{Path, PathFault, resolve};
use std::alloc::{AllocError, Global};
use std::io::ErrorKind;
use std::path::Path as SystemPath;
use std::rt::Runtime;
use std::{env, fs, io};

/// Where a run is, and where the words of its command line are read.
#[derive(Drop)]
pub(crate) struct Here {
    /// The top of the tree, as the system names it.
    pub(crate) top: String,
    /// The directory in which words are read, from the top.
    pub(crate) below: Path,
}

/// The name of the book.
const BOOK_NAME: &str = ".redo-book";

/// Whether a directory has a book. What can't be looked at counts as none.
pub fn has_book<H: Runtime>(rt: &H, alloc: Global, dir: SystemPath<'_>) -> bool {
    let Ok(book) = dir.join(alloc, BOOK_NAME) else {
        return false;
    };
    match fs::symlink_metadata(rt, book.as_path()) {
        Ok(about) => about.is_file(),
        Err(_) => false,
    }
}

/// Why the current directory isn't known.
fn unknown(error: io::Error) -> Refusal {
    match error.kind() {
        ErrorKind::OutOfMemory => Refusal::Memory,
        _ => Refusal::Directory,
    }
}

/// The nearest directory that has a book, the current one or one above it; words are read in the current one.
fn nearest<H: Runtime>(rt: &H, alloc: Global) -> Result<Here, Refusal> {
    let current = env::current_dir(rt).map_err(unknown)?;
    for dir in current.ancestors() {
        if has_book(rt, alloc, dir) {
            let Ok(rest) = current.strip_prefix(dir) else {
                return Err(Refusal::NoTop);
            };
            let below = if rest.as_str().is_empty() {
                Path::root()
            } else {
                resolve(alloc, &Path::root(), rest.as_str().as_bytes())?
            };
            let top = String::from_str(alloc, dir.as_str())?;
            return Ok(Here { top, below });
        }
    }
    Err(Refusal::NoTop)
}

/// Where the options want a run to be.
pub(crate) fn place_of<H: Runtime>(
    rt: &H,
    alloc: Global,
    line: &Line<'_>,
) -> Result<Here, Refusal> {
    if line.has(TOP) {
        return nearest(rt, alloc);
    }
    let top = String::from_str(alloc, line.word(DIRECTORY).unwrap_or("."))?;
    Ok(Here {
        top,
        below: Path::root(),
    })
}

/// The number of levels from a directory up to the nearest one above it with a book, if there is one.
pub fn levels_to_book<H: Runtime>(rt: &H, alloc: Global, dir: &str) -> Option<usize> {
    let Ok(place) = fs::canonicalize(rt, SystemPath::new(dir)) else {
        return None;
    };
    for (levels, above) in place.ancestors().enumerate() {
        if levels > 0 && has_book(rt, alloc, above) {
            return Some(levels);
        }
    }
    None
}

/// How an absolute path that is below a directory is written from there.
fn from_dir<H: Runtime>(
    rt: &H,
    alloc: Global,
    dir: &str,
    word: &str,
) -> Result<Option<String>, AllocError> {
    let Ok(place) = fs::canonicalize(rt, SystemPath::new(dir)) else {
        return Ok(None);
    };
    let Some(rest) = word.strip_prefix(place.as_str()) else {
        return Ok(None);
    };
    match rest.strip_prefix('/') {
        Some(path) if !path.is_empty() => Ok(Some(format!(in alloc; "{path:?}")?)),
        _ => Ok(None),
    }
}

/// A hint for a word that names no target, if there is one: how an absolute path is named from the top, or that there
/// is a book above the top.
pub(crate) fn instead_of<H: Runtime>(
    rt: &H,
    alloc: Global,
    here: &Here,
    word: &str,
    why: PathFault,
) -> Result<Option<String>, AllocError> {
    match why {
        PathFault::Absolute if here.below.text().is_empty() => {
            from_dir(rt, alloc, here.top.as_str(), word)
        }
        PathFault::Above => match levels_to_book(rt, alloc, here.top.as_str()) {
            Some(1) => Ok(Some(format!(in alloc; "redo --top, as .. has a book")?)),
            Some(_) => Ok(Some(format!(in alloc; "redo --top, as a directory above has a book")?)),
            None => Ok(None),
        },
        _ => Ok(None),
    }
}
