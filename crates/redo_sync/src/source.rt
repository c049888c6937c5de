//! The end of a relay that gives jobs.
ghost use Rattle.std.specs.Prelude.{◌≡◌, ◌≤◌, ◌∷◌, [], ◌++◌, length, MatchResult, IfErr};

use crate::rule::{Give, Hand, Numbered, ShareOut};
use crossbeam_deque::Worker;
use std::alloc::{AllocError, Global};
use std::marker::Model;

/// The end of a relay that gives jobs. One thread has it while others take. In a contract it is the name of its relay,
/// how many takers that has, and the numbers of the jobs it gave.
#[derive(Drop)]
pub struct JobSource<T: Numbered> {
    pub(crate) deque: Worker<T, Global, Hand, ShareOut>,
    pub(crate) takers: usize,
    pub(crate) alloc: Global,
}

impl<T: Numbered> Model for JobSource<T> {
    ghost use Rattle.std.specs.Prelude.{◌≡◌, ◌-◌, ◌≤◌, [], length};
    ghost use Rattle.crossbeam_deque.specs.Handles.{worker_deque, worker_flavor, worker_view};
    ghost use Rattle.crossbeam_deque.specs.Handles.{worker_capacity, worker_index};
    ghost use Rattle.redo_sync.specs.Relay.{Source};
    ghost use Rattle.redo_sync.specs.inside.Rule.{hand};

    ghost Value = { Source };

    ghost view = { λ s. record {
      relay = worker_deque s.deque;
      takers = s.takers;
      given = (worker_view s.deque).given;
    } };

    ghost invariant = { λ s.
        (worker_flavor s.deque ≡ 0)
        × (s.takers ≤ 65)
        × (64 ≤ worker_capacity s.deque)
        × (worker_index s.deque ≡ length (worker_view s.deque).given)
        × (worker_view s.deque ≡ hand (66 - s.takers) (worker_view s.deque).given [] []) };
}

impl<T: Numbered> JobSource<T> {
    /// Gives a job, which one taker may take. The first 64 jobs need no memory and are never refused. A later one is
    /// returned if the queue can't grow: if memory runs out, or once billions of jobs wait.
    pub fn give(&mut self, job: T) -> Result<(), (T, AllocError)>
        ensures same { (self.new.relay ≡ self.old.relay) × (self.new.takers ≡ self.old.takers) }
        ensures given { MatchResult result
            (λ _. self.new.given ≡ self.old.given ++ T.number job ∷ [])
            (λ e. (e.0 ≡ job) × (self.new.given ≡ self.old.given)) }
        ensures refused { IfErr result (λ _. 64 ≤ length self.old.given) }
    {
        match self.deque.push_as::<Give>(job) {
            Ok(()) => Ok(()),
            Err(job) => Err((job, AllocError)),
        }
    }
}
