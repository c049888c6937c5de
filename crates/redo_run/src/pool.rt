//! The workers of a build, started and not.

ghost use Rattle.std.specs.Prelude.{◌≡◌, ◌≤◌, ◌+◌, ◌*◌, ◌++◌, [], IfOk, length, map, OnOk, ℕ, vec_capacity};
ghost use Rattle.redo_crew.specs.Word.{most_workers, out_for_each, places};
ghost use Rattle.redo_sync.specs.Relay.{RelayId};
ghost use Rattle.redo_run.specs.inside.Workers.{IsManned};

use crate::crew::{Advance, OwnTaker, Shared, WorkerHandle, join_all, work};
use crate::observer::Observer;
use crossbeam_channel::{Receiver, Sender};
use redo_crew::{Lead, Looking, OUT_FOR_EACH, PLACES};
use redo_sync::{JobTaker, Numbered};
use std::alloc::{AllocError, Global};
use std::snapshot::Snapshot;
use std::sync::Wait;
use std::thread::{Scope, Threads};

/// The workers of a build. One is started when a job is offered for which too few look. So a build of a few short scripts
/// starts none; one of many starts those to whom a few are offered to try how long such scripts take.
#[derive(Drop)]
pub(crate) struct Pool<'r, 's, E, J: Numbered + Drop, M: Drop, R, O> {
    pub scope: &'r Scope<'s, E>,
    pub rt: &'s R,
    pub observer: &'s O,
    /// The owner's part in the crew of these workers.
    pub lead: Lead<'s>,
    /// Where workers send their pieces, and where the owner reads them.
    pub sender: Sender<M>,
    pub pieces: Receiver<M>,
    /// The takers of those that aren't started.
    pub idle: Vec<JobTaker<J>>,
    /// Those that are.
    pub handles: Vec<WorkerHandle<J>>,
    /// How many jobs may be out with them at a time. The others wait on the board, where the newest goes first.
    pub most_out: usize,
}

/// A channel for pieces: with a place for each job that may be out, so that no sender waits.
fn channel<M: Drop>(alloc: Global) -> Result<(Sender<M>, Receiver<M>), AllocError> {
    crossbeam_channel::bounded(alloc, PLACES as usize)
}

/// How many jobs may be out with so many workers: there is a place for the piece of each.
fn most_out(workers: usize) -> usize
    requires { workers ≤ most_workers }
    ensures each { result ≡ workers * out_for_each }
    ensures room { result ≤ places }
{
    workers * OUT_FOR_EACH as usize
}

impl<'r, 's, E, J: Numbered + Drop, M: Drop, R: Threads + Wait, O> Pool<'r, 's, E, J, M, R, O> {
    /// The workers with these takers, of which none is started.
    pub fn new(
        scope: &'r Scope<'s, E>,
        shared: Shared<'s, R, O>,
        lead: Lead<'s>,
        alloc: Global,
        takers: Vec<JobTaker<J>>,
    ) -> Result<Pool<'r, 's, E, J, M, R, O>, AllocError>
        requires few { length takers.items ≤ most_workers }
        ensures idle { IfOk result (λ pool. pool.idle.items ≡ takers.items) }
        ensures none_started { IfOk result (λ pool. pool.handles.items ≡ []) }
        ensures most_out { IfOk result (λ pool. pool.most_out ≡ length takers.items * out_for_each) }
    {
        let Shared { rt, observer } = shared;
        let (sender, pieces) = channel(alloc)?;
        let most_out = most_out(takers.len());
        Ok(Pool {
            scope,
            rt,
            observer,
            lead,
            sender,
            pieces,
            idle: takers,
            handles: Vec::new(alloc),
            most_out,
        })
    }

    /// Tells the workers that the run is over, and waits for all of them to end. Returns their takers in `back`, which
    /// has room for them, and behind them those of the workers that weren't started.
    pub fn end(self, back: Vec<JobTaker<J>>) -> Result<Vec<JobTaker<J>>, AllocError>
        requires none { back.items ≡ [] }
        requires room { length self.handles.items ≤ vec_capacity back }
        ensures all { IfOk result (λ takers. map (λ t. t.relay) takers.items ≡
            map (λ h. h.promise.0.value.relay) self.entry.handles.items ++ map (λ t. t.relay) self.entry.idle.items) }
    {
        let Pool {
            scope: _,
            rt,
            observer: _,
            lead,
            sender: _,
            pieces: _,
            mut idle,
            handles,
            most_out: _,
        } = self;
        let ended = lead.end(rt);
        let mut takers = join_all(rt, &ended, handles, back);
        takers.append(&mut idle)?;
        Ok(takers)
    }
}

impl<
    'r,
    's,
    E,
    J: Advance<M, O> + Send + 's,
    M: Send + Drop + 's,
    R: Threads + Wait + Sync,
    O: Observer,
> Pool<'r, 's, E, J, M, R, O> {
    /// Starts one more worker, which looks for a job. Fails if there is no memory, or no thread can be started.
    pub fn start(&mut self, looking: Looking<'s>) -> Result<(), AllocError>
        ensures manned { OnOk result ((relay : RelayId) (count : ℕ) →
            IsManned relay count self.old.idle.items (map (λ h. h.promise.0.value.relay) self.old.handles.items) →
            IsManned relay count self.new.idle.items (map (λ h. h.promise.0.value.relay) self.new.handles.items)) }
        ensures few { length self.new.idle.items + length self.new.handles.items ≤
            length self.old.idle.items + length self.old.handles.items }
    {
        // A worker is hired only while one isn't started.
        let Some(taker) = self.idle.pop() else {
            return Ok(());
        };
        let pieces = self.sender.clone()?;
        let shared = Shared {
            rt: self.rt,
            observer: self.observer,
        };
        self.handles.reserve(1)?;
        let promise = OwnTaker(Snapshot::of(&taker));
        let handle = self
            .scope
            .spawn_with(promise, move || work(shared, looking, taker, pieces))?;
        self.handles.push_reserved(handle);
        Ok(())
    }
}
