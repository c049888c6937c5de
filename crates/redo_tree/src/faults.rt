//! Why a tree was not changed.

ghost use Rattle.std.specs.Prelude.{◌≡◌};

use std::alloc::AllocError;
use thiserror::Error;

/// Why nothing was added to a tree. The parent is checked first.
#[derive(Clone, Copy, Debug, PartialEq, Eq, Error)]
pub enum TreeFault {
    /// Nothing is at the parent's path.
    #[error("no such directory")]
    NoDirectory,
    /// A file was to be added where a directory is.
    #[error("a directory stands there")]
    IsDirectory,
    /// The parent is a file, or a directory was to be added where a file is.
    #[error("a file stands there")]
    IsFile,
    /// What was to be added is there already.
    #[error("it is there already")]
    Twice,
    /// Out of memory.
    #[error("out of memory")]
    Memory,
}

impl From<AllocError> for TreeFault {
    ghost use Rattle.redo_tree.specs.declared.faults.TreeFault.TheVariants.{Memory};

    ghost from_gives = { λ _ fault. fault ≡ Memory };

    fn from(_error: AllocError) -> TreeFault {
        TreeFault::Memory
    }
}
