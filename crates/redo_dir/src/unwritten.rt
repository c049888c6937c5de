//! Why one file was not stored.

ghost use Rattle.std.specs.Prelude.{◌≡◌};
ghost use Rattle.redo_dir.specs.inside.Batches.{fault_at, unwritten_by};

use crate::StoreFault;
use std::alloc::{AllocError, AllocFailed};
use std::io;
use std::io::ErrorKind;

/// Why one file was not stored.
#[derive(Clone, Copy, Debug, PartialEq, Eq)]
pub(crate) enum Unwritten {
    Device(ErrorKind),
    Name,
    Memory,
}

impl Unwritten {
    /// What an error of the system means.
    pub fn of(kind: ErrorKind) -> Unwritten
        ensures { result ≡ unwritten_by kind }
    {
        match kind {
            ErrorKind::OutOfMemory => Unwritten::Memory,
            kind => Unwritten::Device(kind),
        }
    }

    /// The fault of the file at a place of the list.
    pub fn at(self, place: usize) -> StoreFault
        ensures { result ≡ fault_at self place }
    {
        match self {
            Unwritten::Device(kind) => StoreFault::Device(place, kind),
            Unwritten::Name => StoreFault::Name(place),
            Unwritten::Memory => StoreFault::Memory(place),
        }
    }
}

impl From<AllocError> for Unwritten {
    ghost use Rattle.redo_dir.specs.declared.unwritten.Unwritten.TheVariants.{Memory};

    ghost from_gives = { λ _ fault. fault ≡ Memory };

    fn from(_error: AllocError) -> Unwritten {
        Unwritten::Memory
    }
}

impl<T: Drop> From<AllocFailed<T>> for Unwritten {
    ghost use Rattle.redo_dir.specs.declared.unwritten.Unwritten.TheVariants.{Memory};

    ghost from_gives = { λ _ fault. fault ≡ Memory };

    fn from(_error: AllocFailed<T>) -> Unwritten {
        Unwritten::Memory
    }
}

impl From<io::Error> for Unwritten {
    ghost use Rattle.std.specs.IoError.{error_kind};
    ghost use Rattle.redo_dir.specs.inside.Batches.{unwritten_by};

    ghost from_gives = { λ error fault. fault ≡ unwritten_by (error_kind error) };

    fn from(error: io::Error) -> Unwritten {
        Unwritten::of(error.kind())
    }
}
