//! The ends of a relay that take jobs.
ghost use Rattle.std.specs.Prelude.{◌≡◌, ◌∷◌, [], ◌++◌, IfOk, IsOk, OnErr};
ghost use Rattle.redo_sync.specs.Taken.{MatchTaken};

use crate::rule::{Hand, Numbered, ShareOut, Take};
use crossbeam_deque::{Pass, Steal, Stealer};
use std::alloc::{AllocError, Global};
use std::marker::Model;

/// The result of trying to take a job.
#[derive(Drop)]
pub enum Taken<T> {
    /// A job, which no other taker has.
    Job(T),
    /// At one moment of the call no job was waiting.
    Empty,
    /// Another taker was faster. A new try may find a job at once.
    Again,
}

/// One worker's end of a relay, which takes jobs. It may be sent to another thread. In a contract it is the name of its
/// relay and the numbers of the jobs it took.
#[derive(Drop)]
pub struct JobTaker<T: Numbered> {
    pub(crate) stealer: Stealer<T, Global, Hand, ShareOut>,
    pub(crate) pass: Pass<T, Hand, Global>,
}

impl<T: Numbered> Model for JobTaker<T> {
    ghost use Rattle.std.specs.Prelude.{◌≡◌, []};
    ghost use Rattle.crossbeam_deque.specs.Handles.{view as known_by, IsPassOf, stealer_deque};
    ghost use Rattle.redo_sync.specs.Relay.{Taker};
    ghost use Rattle.redo_sync.specs.inside.Rule.{hand};

    ghost Value = { Taker };

    ghost view = { λ t. record { relay = stealer_deque t.stealer; taken = (known_by t.pass).taken } };

    ghost invariant = { λ t.
        IsPassOf (stealer_deque t.stealer) t.pass
        × (known_by t.pass ≡ hand 1 [] (known_by t.pass).taken []) };
}

impl<T: Numbered> JobTaker<T> {
    /// Tries once to take a job, without waiting for one. Needs no memory and never fails. No contract says when the
    /// result is `Empty` or `Again`: a taker knows only of its own jobs, and a contract can't name what the others do
    /// meanwhile. A test shows that a job that was given is taken.
    pub fn try_take(&mut self) -> Result<Taken<T>, AllocError>
        ensures same { self.new.relay ≡ self.old.relay }
        ensures taken { IfOk result (λ r. MatchTaken r
            (λ job. self.new.taken ≡ self.old.taken ++ T.number job ∷ [])
            (self.new.taken ≡ self.old.taken)) }
        ensures err { OnErr result (self.new.taken ≡ self.old.taken) }
        ensures never { IsOk result }
    {
        match self.stealer.steal_as::<Take>(&mut self.pass) {
            Steal::Success(job) => Ok(Taken::Job(job)),
            Steal::Empty => Ok(Taken::Empty),
            Steal::Retry => Ok(Taken::Again),
        }
    }
}
