//! Why a directory was not read, or a file not written.

ghost use Rattle.std.specs.Prelude.{◌≡◌};

use redo_path::Path;
use std::alloc::{AllocError, AllocFailed};
use std::io::ErrorKind;
use thiserror::Error;

/// Why a directory was not read.
#[derive(Drop, Debug, Error)]
pub enum LoadFault {
    /// What stands at this path of the tree can't be read (the root is the directory itself), and what the system says of
    /// it: it isn't there, its rights forbid it, or (`InvalidData`) it changed meanwhile.
    #[error("the directory can't be read: {1}")]
    Device(Path, ErrorKind),
    /// No memory was left.
    #[error("out of memory")]
    Memory,
}

impl From<AllocError> for LoadFault {
    ghost use Rattle.redo_dir.specs.declared.faults.LoadFault.TheVariants.{Memory};

    ghost from_gives = { λ _ fault. fault ≡ Memory };

    fn from(_error: AllocError) -> LoadFault {
        LoadFault::Memory
    }
}

impl<T: Drop> From<AllocFailed<T>> for LoadFault {
    ghost use Rattle.redo_dir.specs.declared.faults.LoadFault.TheVariants.{Memory};

    ghost from_gives = { λ _ fault. fault ≡ Memory };

    fn from(_error: AllocFailed<T>) -> LoadFault {
        LoadFault::Memory
    }
}

/// Why a file was not stored: its place in the list, counted from 0. The files before it were.
#[derive(Clone, Copy, Debug, PartialEq, Eq, Error)]
pub enum StoreFault {
    /// The file can't be written, and what the system says of it.
    #[error("file {0} can't be written: {1}")]
    Device(usize, ErrorKind),
    /// The path isn't UTF-8.
    #[error("the path of file {0} isn't UTF-8")]
    Name(usize),
    /// No memory was left.
    #[error("out of memory")]
    Memory(usize),
}

/// Why a run did not store all by its journal.
#[derive(Clone, Copy, Debug, PartialEq, Eq, Error)]
pub enum JournalFault {
    /// The journal can't be written, and what the system says of it. Nothing was stored.
    #[error("the journal can't be written: {0}")]
    Journal(ErrorKind),
    /// A file can't be stored or, at the place behind the last, the book can't.
    #[error("{0}")]
    File(StoreFault),
}

impl From<StoreFault> for JournalFault {
    ghost use Rattle.redo_dir.specs.declared.faults.JournalFault.TheVariants.{File};

    ghost from_gives = { λ error fault. fault ≡ File error };

    fn from(error: StoreFault) -> JournalFault {
        JournalFault::File(error)
    }
}
