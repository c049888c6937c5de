//! Why a run over a directory has no result.

ghost use Rattle.std.specs.Prelude.{◌≡◌};
ghost use Rattle.redo_run.specs.DirFaults.{of_left as left_fault};

use crate::RunFault;
use redo_book::BookFault;
use redo_bundle::Broken;
use redo_dir::{JournalFault, StoreFault};
use std::alloc::AllocError;
use std::io::ErrorKind;
use thiserror::Error;

/// Why a run over a directory has no result.
#[derive(Clone, Copy, Debug, PartialEq, Eq, Error)]
pub enum RunDirFault {
    #[error("the directory could not be read")]
    Load,
    /// The book of the last run is refused, for its line of this number, counted from 1.
    #[error("the book of the last run is refused for its line {0}")]
    Book(u64),
    #[error("more targets are needed than the limit allows")]
    TooMany,
    /// The file at this place could not be stored, and those before it were. Places are counted from 0 among the files
    /// that the run stores, in path order; the book is behind the last.
    #[error("the built file at place {0} could not be stored")]
    Store(usize),
    /// The journal could not be written, and so nothing was stored.
    #[error("the journal could not be written")]
    Journal,
    /// What a run has left that was broken off could not be cleared away, and so nothing was stored.
    #[error("what a broken-off run has left could not be cleared away")]
    Left,
    #[error("the writer failed")]
    Device,
    #[error("out of memory")]
    Memory,
}

impl From<AllocError> for RunDirFault {
    ghost use Rattle.redo_run.specs.declared.dir_fault.RunDirFault.TheVariants.{Memory};

    ghost from_gives = { λ _ fault. fault ≡ Memory };

    fn from(_error: AllocError) -> RunDirFault {
        RunDirFault::Memory
    }
}

impl From<Broken> for RunDirFault {
    ghost use Rattle.redo_run.specs.declared.dir_fault.RunDirFault.TheVariants.{Device};

    ghost from_gives = { λ _ fault. fault ≡ Device };

    fn from(_error: Broken) -> RunDirFault {
        RunDirFault::Device
    }
}

impl From<RunFault> for RunDirFault {
    ghost use Rattle.redo_run.specs.DirFaults.{of_run};

    ghost from_gives = { λ error fault. fault ≡ of_run error };

    fn from(error: RunFault) -> RunDirFault {
        match error {
            RunFault::Book(line) => RunDirFault::Book(line),
            RunFault::TooMany => RunDirFault::TooMany,
            RunFault::Memory => RunDirFault::Memory,
        }
    }
}

impl From<BookFault> for RunDirFault {
    ghost use Rattle.redo_run.specs.DirFaults.{of_past};

    ghost from_gives = { λ error fault. fault ≡ of_past error };

    fn from(error: BookFault) -> RunDirFault {
        match error {
            BookFault::Line(line) => RunDirFault::Book(line),
            BookFault::Memory => RunDirFault::Memory,
        }
    }
}

/// Want of memory in the store is that of the run.
impl From<JournalFault> for RunDirFault {
    ghost use Rattle.redo_run.specs.DirFaults.{of_journal_fault};

    ghost from_gives = { λ error fault. fault ≡ of_journal_fault error };

    fn from(error: JournalFault) -> RunDirFault {
        match error {
            JournalFault::Journal(ErrorKind::OutOfMemory) => RunDirFault::Memory,
            JournalFault::Journal(_) => RunDirFault::Journal,
            JournalFault::File(StoreFault::Device(place, _) | StoreFault::Name(place)) => {
                RunDirFault::Store(place)
            }
            JournalFault::File(StoreFault::Memory(_)) => RunDirFault::Memory,
        }
    }
}

/// The fault of a run that couldn't clear away what another has left.
pub(crate) fn of_left(fault: StoreFault) -> RunDirFault
    ensures { result ≡ left_fault fault }
{
    match fault {
        StoreFault::Device(_, _) | StoreFault::Name(_) => RunDirFault::Left,
        StoreFault::Memory(_) => RunDirFault::Memory,
    }
}
