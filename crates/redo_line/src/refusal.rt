//! Why a command line is refused.

use redo_path::PathFault;
use std::alloc::{AllocError, AllocFailed};
use std::io;
use std::io::ErrorKind;
use thiserror::Error;

/// Why the command line is refused, apart from what its parser refuses.
#[derive(Clone, Copy, Debug, PartialEq, Eq, Error)]
pub(crate) enum Refusal {
    #[error("-k is required")]
    NoKeepGoing,
    #[error("{0} and {1} exclude each other")]
    Excluded(&'static str, &'static str),
    #[error("{0} goes only with {1}")]
    Alone(&'static str, &'static str),
    #[error("{0} takes no targets")]
    TargetsBeside(&'static str),
    #[error("REDOFLAGS isn't UTF-8")]
    FlagsNoText,
    #[error("bad target")]
    BadTarget,
    #[error("no book here or above")]
    NoTop,
    #[error("directory not readable")]
    Directory,
    #[error("out of memory")]
    Memory,
}

impl From<AllocError> for Refusal {
    fn from(_error: AllocError) -> Refusal {
        Refusal::Memory
    }
}

impl<T: Drop> From<AllocFailed<T>> for Refusal {
    fn from(_error: AllocFailed<T>) -> Refusal {
        Refusal::Memory
    }
}

/// The words of the command line can't be read: one that isn't UTF-8 names no target.
impl From<io::Error> for Refusal {
    fn from(error: io::Error) -> Refusal {
        match error.kind() {
            ErrorKind::OutOfMemory => Refusal::Memory,
            _ => Refusal::BadTarget,
        }
    }
}

impl From<PathFault> for Refusal {
    fn from(fault: PathFault) -> Refusal {
        match fault {
            PathFault::Memory => Refusal::Memory,
            _ => Refusal::BadTarget,
        }
    }
}
