//! A gate that each job passes.

use crate::observer::Observer;
use redo_core::board::Board;
use redo_path::Path;

/// Is passed by each job that is taken up, before its script goes on. A gate that takes long holds up the thread that
/// has the job, and no other.
pub trait Gate: Sync {
    /// Lets the script of this target pass, which has stopped `turn` times before. Threads call it side by side, and
    /// hold no lock.
    fn enter(&self, target: &Path, turn: u64);
}

/// A gate that holds up nobody.
#[derive(Clone, Copy, Debug, PartialEq, Eq)]
pub struct NoGate;

impl Gate for NoGate {
    fn enter(&self, _target: &Path, _turn: u64) {}
}

/// An observer that lets each job pass a gate, and does nothing else.
#[derive(Drop)]
pub struct Gated<G>(pub G);

impl<G: Gate> Observer for Gated<G> {
    fn given_out(&self, _board: &Board, _target: &Path, _turn: u64) {}

    fn taken_up(&self, target: &Path, turn: u64) {
        self.0.enter(target, turn);
    }
}
