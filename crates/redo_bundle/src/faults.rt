//! Why a bundle was not read or not written.

ghost use Rattle.std.specs.Prelude.{◌≡◌};

use crate::Broken;
use redo_path::PathFault;
use redo_tree::TreeFault;
use std::alloc::AllocError;
use thiserror::Error;

/// Why a bundle was refused. Headers are numbered from 1; `end` and a byte after it count on.
#[derive(Clone, Copy, Debug, PartialEq, Eq, Error)]
pub enum BundleFault {
    /// The line is no header, or no newline follows a file's bytes, or a byte follows `end`.
    #[error("line {0} is no header, or what ends an entry is missing")]
    Line(u64),
    /// The path of the header is refused.
    #[error("entry {0}: {1}")]
    Path(u64, PathFault),
    /// The tree refuses the entry, which was read whole.
    #[error("entry {0}: {1}")]
    Tree(u64, TreeFault),
    /// The input ends before the bundle does.
    #[error("the bundle is truncated")]
    Truncated,
    /// The reader failed.
    #[error("the reader failed")]
    Read,
    /// Out of memory.
    #[error("out of memory")]
    Memory,
}

impl From<Broken> for BundleFault {
    ghost use Rattle.redo_bundle.specs.declared.faults.BundleFault.TheVariants.{Read};

    ghost from_gives = { λ _ fault. fault ≡ Read };

    fn from(_error: Broken) -> BundleFault {
        BundleFault::Read
    }
}

impl From<AllocError> for BundleFault {
    ghost use Rattle.redo_bundle.specs.declared.faults.BundleFault.TheVariants.{Memory};

    ghost from_gives = { λ _ fault. fault ≡ Memory };

    fn from(_error: AllocError) -> BundleFault {
        BundleFault::Memory
    }
}

/// Why a bundle was not written. A prefix of its text has been written.
#[derive(Clone, Copy, Debug, PartialEq, Eq, Error)]
pub enum WriteFault {
    /// The writer failed.
    #[error("the writer failed")]
    Device,
    /// Out of memory.
    #[error("out of memory")]
    Memory,
}

impl From<Broken> for WriteFault {
    ghost use Rattle.redo_bundle.specs.declared.faults.WriteFault.TheVariants.{Device};

    ghost from_gives = { λ _ fault. fault ≡ Device };

    fn from(_error: Broken) -> WriteFault {
        WriteFault::Device
    }
}

impl From<AllocError> for WriteFault {
    ghost use Rattle.redo_bundle.specs.declared.faults.WriteFault.TheVariants.{Memory};

    ghost from_gives = { λ _ fault. fault ≡ Memory };

    fn from(_error: AllocError) -> WriteFault {
        WriteFault::Memory
    }
}
