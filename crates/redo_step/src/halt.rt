//! Why a command doesn't go on.

ghost use Rattle.std.specs.Prelude.{◌≡◌};

use crate::wait::WaitingChange;
use redo_path::Path;
use redo_record::Why;
use std::alloc::{AllocError, AllocFailed};

/// How a script ends: with a status, or with a fault.
#[derive(Clone, Copy, Debug, PartialEq, Eq)]
pub enum Ending {
    Exited(u8),
    Faulted(Why),
}

/// Why a command doesn't go on.
#[derive(Debug, Drop)]
pub(crate) enum Halt {
    /// The script ends here.
    Ended(Ending),
    /// These paths have no answer yet.
    Lacks(Vec<Path>),
    /// These have none either, and a redo-ifchange waits for them.
    Waits(Vec<Path>, WaitingChange),
    Memory,
}

impl Halt {
    /// The script ends here with a fault.
    pub(crate) fn fault(why: Why) -> Halt
        ensures { result ≡ Halt.Ended (Ending.Faulted why) }
    {
        Halt::Ended(Ending::Faulted(why))
    }

    /// The script ends here with a status.
    pub(crate) fn exit(status: u8) -> Halt
        ensures { result ≡ Halt.Ended (Ending.Exited status) }
    {
        Halt::Ended(Ending::Exited(status))
    }
}

impl From<AllocError> for Halt {
    ghost use Rattle.redo_step.specs.declared.halt.Halt.TheVariants.{Memory};

    ghost from_gives = { λ _ stop. stop ≡ Memory };

    fn from(_error: AllocError) -> Halt {
        Halt::Memory
    }
}

impl<T: Drop> From<AllocFailed<T>> for Halt {
    ghost use Rattle.redo_step.specs.declared.halt.Halt.TheVariants.{Memory};

    ghost from_gives = { λ _ stop. stop ≡ Memory };

    fn from(_error: AllocFailed<T>) -> Halt {
        Halt::Memory
    }
}
