//! Who is told of the progress of a build.

use redo_core::board::Board;
use redo_path::Path;

/// Is told of each job. It serves tests, and whoever shows the progress of a build. A call that takes long holds up the
/// thread that makes it, and no other.
pub trait Observer: Sync {
    /// The board, as it is now, has given out the script of this target, which has stopped `turn` times before. The
    /// thread with the board calls it.
    fn given_out(&self, board: &Board, target: &Path, turn: u64);

    /// The script of this target is taken up, after it has stopped `turn` times. Threads call it side by side, and it
    /// has nothing of the board.
    fn taken_up(&self, target: &Path, turn: u64);
}

/// An observer that does nothing.
#[derive(Clone, Copy, Debug, PartialEq, Eq)]
pub struct NoObserver;

impl Observer for NoObserver {
    fn given_out(&self, _board: &Board, _target: &Path, _turn: u64) {}

    fn taken_up(&self, _target: &Path, _turn: u64) {}
}
