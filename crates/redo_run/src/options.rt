//! What a run is to build.

ghost use Rattle.std.specs.Prelude.{◌≤◌};

use redo_path::Path;
use redo_step::Limits;

/// What to build, with how many workers, and how large it may grow.
#[derive(Debug, Drop)]
pub struct Options {
    /// The requested paths; `all` if there are none.
    pub targets: Vec<Path>,
    /// The files of a directory that a run takes back, by their paths: the build sees none of them, and what it makes is
    /// stored over them. A run over a bundle takes nothing back.
    pub taken: Vec<Path>,
    /// At most this many scripts run side by side, 1 to 64.
    pub workers: usize,
    pub limits: Limits,
    ghost some_workers: { 1 ≤ workers },
    ghost few_workers: { workers ≤ 64 },
}
