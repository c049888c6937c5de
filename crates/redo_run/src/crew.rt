//! The workers of a build: how they start, what they do, and how they end.

ghost use Rattle.std.specs.Prelude.{◌≡◌, ◌≤◌, [], length, map, vec_capacity};

use crate::observer::Observer;
use crate::right::Right;
use crossbeam_channel::Sender;
use redo_crew::{Ended, Looking};
use redo_sync::{JobTaker, Numbered, Taken};
use std::snapshot::Snapshot;
use std::sync::Wait;
use std::thread::{Promise, PromisedHandle, Threads};

/// A job that a worker advances; it sends what the job comes to. The crew doesn't know what a job is made of.
pub(crate) trait Advance<M, O: Observer>: Numbered + Drop {
    /// What this job may come to.
    ghost comes_to: { Self → M → Type 0 };

    /// Tells the observer, and advances the job.
    fn advance(self, observer: &O) -> M
        ensures { comes_to self result };
}

/// A worker hands back its own taker.
#[derive(Drop)]
pub(crate) struct OwnTaker<J: Numbered + Drop>(pub Snapshot<JobTaker<J>>);

impl<J: Numbered + Drop> Promise<JobTaker<J>> for OwnTaker<J> {
    ghost kept_by = { λ p t. t.relay ≡ p.0.value.relay };
}

/// A worker that was started.
pub(crate) type WorkerHandle<J> = PromisedHandle<JobTaker<J>, OwnTaker<J>>;

/// What the threads of a run share. It outlives them.
#[derive(Drop)]
pub(crate) struct Shared<'s, R, O> {
    pub rt: &'s R,
    pub observer: &'s O,
}

/// Takes a job by the right to one. Others may be faster at the one it looks at, but as many wait as there are rights.
pub(crate) fn claimed<J: Numbered + Drop, R: Wait>(
    rt: &R,
    taker: &mut JobTaker<J>,
    _right: Right,
) -> J
    ensures { taker.new.relay ≡ taker.old.relay }
{
    'looks: for _ in rt.forever() {
        if let Ok(Taken::Job(job)) = taker.try_take() {
            return job;
        }
    }
    unreachable!()
}

/// Takes jobs and sends what they came to, until the run is over. Then nobody reads what is sent.
pub(crate) fn work<J: Advance<M, O>, M: Drop, R: Wait, O: Observer>(
    shared: Shared<'_, R, O>,
    looking: Looking<'_>,
    mut taker: JobTaker<J>,
    pieces: Sender<M>,
) -> JobTaker<J>
    ensures { result.relay ≡ taker.relay }
{
    let Shared { rt, observer } = shared;
    let mut next = looking.find(rt);
    'jobs: for _ in rt.forever() {
        let Ok(holding) = next else {
            break;
        };
        let (claim, busy) = holding.take_up();
        let job = claimed(rt, &mut taker, Right::by_claim(claim));
        let _ = pieces.send(rt, job.advance(observer));
        next = match busy.back(rt) {
            Ok(looking) => looking.find(rt),
            Err(leaving) => Err(leaving),
        };
    }
    taker
}

/// Waits for all workers to end, once they are told that the run is over. Returns their takers in `takers`, which has
/// room for them.
pub(crate) fn join_all<J: Numbered + Drop, R: Threads>(
    rt: &R,
    _ended: &Ended<'_>,
    handles: Vec<WorkerHandle<J>>,
    mut takers: Vec<JobTaker<J>>,
) -> Vec<JobTaker<J>>
    requires none { takers.items ≡ [] }
    requires room { length handles.items ≤ vec_capacity takers }
    ensures { map (λ t. t.relay) result.items ≡ map (λ h. h.promise.0.value.relay) handles.items }
{
    'handles: for handle in handles {
        takers.push_reserved(handle.join(rt));
    }
    takers
}
