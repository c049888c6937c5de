//! The lock of a directory, by which two runs are kept apart.

ghost use Rattle.std.specs.Prelude.{◌≡◌, ◌≢◌, IfErr, IfOk, false, true};
ghost use Rattle.redo_dir.specs.Locks.{is_busy};
ghost use Rattle.redo_dir.specs.declared.lock.LockFault.TheVariants.{Busy};

use std::alloc::{AllocError, Global};
use std::fs::{File, TryLockError};
use std::io::ErrorKind;
use std::marker::Model;
use std::path::Path as SystemPath;
use std::rt::Files;
use std::{fs, io};
use thiserror::Error;

/// Why a directory isn't locked.
#[derive(Clone, Copy, Debug, PartialEq, Eq, Error)]
pub enum LockFault {
    /// Another run holds its lock.
    #[error("another run is at work here")]
    Busy,
    /// It can't be opened, and what the system says of it.
    #[error("the directory can't be read: {0}")]
    Device(ErrorKind),
    /// No memory was left.
    #[error("out of memory")]
    Memory,
}

impl From<AllocError> for LockFault {
    ghost from_gives = { λ _ fault. fault ≢ Busy };

    fn from(_error: AllocError) -> LockFault {
        LockFault::Memory
    }
}

impl From<io::Error> for LockFault {
    ghost from_gives = { λ _ fault. fault ≢ Busy };

    fn from(error: io::Error) -> LockFault {
        match error.kind() {
            ErrorKind::OutOfMemory => LockFault::Memory,
            kind => LockFault::Device(kind),
        }
    }
}

/// An open directory that can be locked.
pub trait Lockable {
    ghost use Rattle.std.specs.Prelude.{Bool};

    // It was asked for its lock, and another open of the directory held that, or none did.
    ghost asked: { Self → Bool → Type 0 };

    /// Takes the lock, unless another open of the directory holds it.
    fn try_lock(&self) -> Result<(), TryLockError>
        ensures { asked self.now (is_busy result) };
}

impl Lockable for File {
    ghost asked = { λ _ _. Unit {0} };

    fn try_lock(&self) -> Result<(), TryLockError> {
        File::try_lock(self)
    }
}

/// The lock of a directory. The system takes it back when it is dropped, and at any end of the process; it leaves no file.
#[derive(Drop)]
pub struct DirLock<'a, F> {
    /// The open directory.
    dir: F,
    /// Where it is.
    top: &'a str,
}

impl<'a, F> Model for DirLock<'a, F> {
    ghost use Rattle.std.specs.Prelude.{List, ℕ};

    ghost Value = { F × List ℕ };

    ghost view = { λ l. (l.dir, l.top.now) };
}

impl<'a, F> DirLock<'a, F> {
    /// Where the directory is.
    pub fn top(&self) -> &'a str
        ensures { result.now ≡ self.now.1 }
    {
        self.top
    }
}

/// Takes the lock of a directory of the system. A directory whose file system refuses locks is not refused: a build there
/// is as good as one before there were locks.
pub fn lock_dir<'a, R: Files>(
    rt: &R,
    alloc: Global,
    top: &'a str,
) -> Result<DirLock<'a, R::File>, LockFault>
where
    R::File: Lockable,
    ensures taken { IfOk result (λ lock. R.File.asked lock.0 false) }
    ensures top { IfOk result (λ lock. lock.1 ≡ top.now) }
    ensures busy { IfErr result (λ fault. fault ≡ Busy → (dir : R.File) × R.File.asked dir true) }
{
    // With a slash behind it only a directory is opened, and no pipe is waited for.
    let place = SystemPath::new(top).join(alloc, "")?;
    let dir = fs::open(rt, place.as_path())?;
    match dir.try_lock() {
        Err(TryLockError::WouldBlock) => Err(LockFault::Busy),
        Ok(()) | Err(TryLockError::Error(_)) => Ok(DirLock { dir, top }),
    }
}
