//! Why a clean stops.

ghost use Rattle.std.specs.Prelude.{◌≡◌};

use redo_dir::StoreFault;
use redo_path::Path;
use std::alloc::AllocError;
use std::io::ErrorKind;
use thiserror::Error;

/// Why a clean stops before its end.
#[derive(Drop, Debug, Error)]
pub enum CleanFault {
    /// What a run has left that was broken off can't be cleared away. No file of the plan was looked at.
    #[error("what a broken-off run has left can't be cleared away: {0}")]
    Left(StoreFault),
    /// The file at this path can't be looked at or removed, and what the system says of it. The files before it are
    /// done with; the book still stands.
    #[error("a file can't be removed: {1}")]
    Device(Path, ErrorKind),
    /// No memory was left.
    #[error("out of memory")]
    Memory,
}

impl From<AllocError> for CleanFault {
    ghost use Rattle.redo_clean.specs.declared.faults.CleanFault.TheVariants.{Memory};

    ghost from_gives = { λ _ fault. fault ≡ Memory };

    fn from(_error: AllocError) -> CleanFault {
        CleanFault::Memory
    }
}
