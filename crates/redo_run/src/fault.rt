//! Why a run has no result.

ghost use Rattle.std.specs.Prelude.{◌≡◌};

use crate::RunFault;
use redo_bundle::{Broken, BundleFault, WriteFault};
use std::alloc::AllocError;
use thiserror::Error;

/// Why a run over a bundle has no result.
#[derive(Clone, Copy, Debug, PartialEq, Eq, Error)]
pub enum RunIoFault {
    #[error("the bundle is refused: {0}")]
    Bundle(BundleFault),
    /// The book of the last run has a fault, first in this line, counted from 1.
    #[error("the book of the last run is refused for its line {0}")]
    Book(u64),
    #[error("more targets are needed than the limit allows")]
    TooMany,
    #[error("the writer failed")]
    Device,
    #[error("out of memory")]
    Memory,
}

impl From<AllocError> for RunIoFault {
    ghost use Rattle.redo_run.specs.declared.fault.RunIoFault.TheVariants.{Memory};

    ghost from_gives = { λ _ fault. fault ≡ Memory };

    fn from(_error: AllocError) -> RunIoFault {
        RunIoFault::Memory
    }
}

impl From<Broken> for RunIoFault {
    ghost use Rattle.redo_run.specs.declared.fault.RunIoFault.TheVariants.{Device};

    ghost from_gives = { λ _ fault. fault ≡ Device };

    fn from(_error: Broken) -> RunIoFault {
        RunIoFault::Device
    }
}

/// A bundle that lacked memory is a run that lacked memory.
impl From<BundleFault> for RunIoFault {
    ghost use Rattle.redo_run.specs.Faults.{of_bundle};

    ghost from_gives = { λ error fault. fault ≡ of_bundle error };

    fn from(error: BundleFault) -> RunIoFault {
        match error {
            BundleFault::Memory => RunIoFault::Memory,
            fault => RunIoFault::Bundle(fault),
        }
    }
}

impl From<WriteFault> for RunIoFault {
    ghost use Rattle.redo_run.specs.Faults.{of_write};

    ghost from_gives = { λ error fault. fault ≡ of_write error };

    fn from(error: WriteFault) -> RunIoFault {
        match error {
            WriteFault::Device => RunIoFault::Device,
            WriteFault::Memory => RunIoFault::Memory,
        }
    }
}

impl From<RunFault> for RunIoFault {
    ghost use Rattle.redo_run.specs.Faults.{of_build};

    ghost from_gives = { λ error fault. fault ≡ of_build error };

    fn from(error: RunFault) -> RunIoFault {
        match error {
            RunFault::Book(line) => RunIoFault::Book(line),
            RunFault::TooMany => RunIoFault::TooMany,
            RunFault::Memory => RunIoFault::Memory,
        }
    }
}
