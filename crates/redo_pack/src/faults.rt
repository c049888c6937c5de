//! Why a tree isn't packed.

ghost use Rattle.std.specs.Prelude.{◌≡◌};

use redo_bundle::WriteFault;
use redo_path::Path;
use std::alloc::AllocError;

/// Why a tree isn't packed.
#[derive(Debug, Drop)]
pub enum PackFault {
    /// The file at this path has more bytes than a bundle allows.
    TooLarge(Path),
    /// The writer failed.
    Device,
    /// Memory ran out.
    Memory,
}

impl From<WriteFault> for PackFault {
    ghost use Rattle.redo_pack.specs.Faults.{fault_of};

    ghost from_gives = { λ error fault. fault ≡ fault_of error };

    fn from(error: WriteFault) -> PackFault {
        match error {
            WriteFault::Device => PackFault::Device,
            WriteFault::Memory => PackFault::Memory,
        }
    }
}
