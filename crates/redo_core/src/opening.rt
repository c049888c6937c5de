//! Why no build was opened, or a build has no report.
ghost use Rattle.std.specs.Prelude.{◌≡◌};

use crate::board::Stop;
use redo_book::BookFault;
use std::alloc::AllocError;
use thiserror::Error;

/// Why no build was opened, or why a build has no report. The book is looked at first.
#[derive(Clone, Copy, Debug, PartialEq, Eq, Error)]
pub enum OpenFault {
    /// The book of the last run has a fault, first in this line, counted from 1.
    #[error("the book of the last run is refused for its line {0}")]
    Book(u64),
    /// More targets are needed than the limit allows. Where a board is opened, those are the ones requested and those that
    /// its first looks ask for.
    #[error("more targets are needed than the limit allows")]
    TooMany,
    /// Memory ran out, or a thread of the build couldn't be started.
    #[error("out of memory")]
    Memory,
}

impl From<BookFault> for OpenFault {
    ghost use Rattle.redo_core.specs.Faults.{past_fault_of};

    ghost from_gives = { λ error fault. fault ≡ past_fault_of error };

    fn from(error: BookFault) -> OpenFault {
        match error {
            BookFault::Line(line) => OpenFault::Book(line),
            BookFault::Memory => OpenFault::Memory,
        }
    }
}

impl From<Stop> for OpenFault {
    ghost use Rattle.redo_core.specs.Faults.{opening_fault_of};

    ghost from_gives = { λ stop fault. fault ≡ opening_fault_of stop };

    fn from(stop: Stop) -> OpenFault {
        match stop {
            Stop::TooMany => OpenFault::TooMany,
            Stop::Memory => OpenFault::Memory,
        }
    }
}

impl From<AllocError> for OpenFault {
    ghost use Rattle.redo_core.specs.declared.opening.OpenFault.TheVariants.{Memory};

    ghost from_gives = { λ _ fault. fault ≡ Memory };

    fn from(_error: AllocError) -> OpenFault {
        OpenFault::Memory
    }
}
