//! The ledger of a relay that has ended.
ghost use Rattle.std.specs.Prelude.{◌≡◌, ◌+◌, ◌-◌, ◌<◌, ◌≤◌, ◌++◌, [], length, map, All, IfOk, OnOk, OnErr};
ghost use Rattle.crossbeam_deque.specs.Handles.{worker_deque, worker_flavor, worker_view};
ghost use Rattle.redo_sync.specs.Relay.{SharesOut, taken_by};
ghost use Rattle.redo_sync.specs.inside.Rule.{hand};

use crate::rule::{Cut, Drain, Hand, Numbered, ShareOut};
use crate::source::JobSource;
use crate::taker::JobTaker;
use crossbeam_deque::Worker;
use std::alloc::{AllocError, Global};
use std::marker::Model;

/// What became of the jobs of a relay: each was taken once or is left. Only [`gather`] makes one, of a source that gave
/// jobs of this type. In a contract it is the numbers of the jobs given, of those taken and of those left.
#[derive(Drop)]
pub struct Ledger<T: Numbered> {
    deque: Worker<T, Global, Hand, ShareOut>,
    left: Vec<T>,
}

impl<T: Numbered> Model for Ledger<T> {
    ghost use Rattle.std.specs.Prelude.{◌≡◌, map};
    ghost use Rattle.crossbeam_deque.specs.Handles.{worker_view};
    ghost use Rattle.redo_sync.specs.Relay.{Shares, SharesOut};

    ghost Value = { Shares };

    ghost view = { λ l. let v = worker_view l.deque in record { given = v.given; taken = v.taken; left = v.left } };

    ghost invariant = { λ l.
        let v = worker_view l.deque in (v.left ≡ map T.number l.left.items) × SharesOut v.given v.taken v.left };
}

impl<T: Numbered> Ledger<T> {
    /// The jobs that nobody took, in the order in which they were given. If there are none, the takers took all jobs,
    /// each exactly once.
    pub fn left(&self) -> &[T]
        ensures left { map T.number result.now ≡ self.now.left }
        ensures shared_out { SharesOut self.now.given self.now.taken self.now.left }
    {
        self.left.as_slice()
    }
}

/// Ends a relay: takes back all takers of the source, and the jobs that they left. Fails only if a job is left and
/// there is no memory to keep it; then the jobs left are dropped.
pub fn gather<T: Numbered + Drop>(
    source: JobSource<T>,
    takers: Vec<JobTaker<T>>,
) -> Result<Ledger<T>, AllocError>
    requires all { length takers.items ≡ source.takers }
    requires own { All (λ t. t.relay ≡ source.relay) takers.items }
    ensures given { IfOk result (λ l. l.given ≡ source.given) }
    ensures taken { IfOk result (λ l. l.taken ≡ taken_by takers.items) }
    ensures shared_out { IfOk result (λ l. SharesOut l.given l.taken l.left) }
    ensures err { OnErr result (SharesOut source.given (taken_by takers.items) [] → ⊥) }
{
    let JobSource {
        mut deque,
        takers: _,
        alloc,
    } = source;
    'takers: for taker in takers {
        take_in(&mut deque, taker);
    }
    let left = drain(alloc, &mut deque)?;
    Ok(Ledger { deque, left })
}

/// Takes back one taker's part and what it knows.
fn take_in<T: Numbered + Drop>(deque: &mut Worker<T, Global, Hand, ShareOut>, taker: JobTaker<T>)
    requires source { 0 < (worker_view deque.old).parts }
    requires own { taker.relay ≡ worker_deque deque.old }
    ensures relay { worker_deque deque.new ≡ worker_deque deque.old }
    ensures flavor { worker_flavor deque.new ≡ worker_flavor deque.old }
    ensures view { let v = worker_view deque.old in
        worker_view deque.new ≡ hand (v.parts + 1) v.given (v.taken ++ taker.taken) v.left }
{
    let JobTaker { stealer: _, pass } = taker;
    deque.absorb::<Cut>(pass);
}

/// Takes all jobs out of the queue. If memory runs out, there was a job in it, so not all were taken.
#[tactic(auto, using(crate::proofs::RelayLemmas::not_all_taken))]
fn drain<T: Numbered + Drop>(
    alloc: Global,
    deque: &mut Worker<T, Global, Hand, ShareOut>,
) -> Result<Vec<T>, AllocError>
    requires fifo { worker_flavor deque.old ≡ 0 }
    requires whole { (worker_view deque.old).parts ≡ 66 }
    requires first { (worker_view deque.old).left ≡ [] }
    ensures view { IfOk result (λ left.
        let v = worker_view deque.old in worker_view deque.new ≡ hand 66 v.given v.taken (map T.number left.items)) }
    ensures shared_out { OnOk result (let v = worker_view deque.new in SharesOut v.given v.taken v.left) }
    ensures err { OnErr result (let v = worker_view deque.old in SharesOut v.given v.taken [] → ⊥) }
{
    let mut left = Vec::new(alloc);
    'jobs: loop {
        match deque.pop_as::<Drain>() {
            Some(job) => left.push(job)?,
            None => return Ok(left),
        }
    }
}
