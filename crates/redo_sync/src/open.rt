//! Making a relay.
ghost use Rattle.std.specs.Prelude.{◌≡◌, ◌-◌, ◌<◌, ◌≤◌, [], length, All, IfOk};
ghost use Rattle.crossbeam_deque.specs.Handles.{worker_deque, worker_flavor, worker_view};
ghost use Rattle.crossbeam_deque.specs.Handles.{worker_capacity, worker_index};
ghost use Rattle.redo_sync.specs.inside.Rule.{hand};

use crate::rule::{Cut, Hand, Numbered, ShareOut};
use crate::source::JobSource;
use crate::taker::JobTaker;
use crossbeam_deque::Worker;
use std::alloc::{AllocError, Global};

/// How many jobs may be given before the queue grows.
const FIRST_SLOTS: usize = 64;

/// A source of jobs and its takers, 1 to 65 of them: one for each of 64 threads, and one for the thread that gives.
/// Jobs wait in a queue that grows as needed, and are taken in the order in which they were given.
pub fn relay<T: Numbered + Drop>(
    alloc: Global,
    takers: usize,
) -> Result<(JobSource<T>, Vec<JobTaker<T>>), AllocError>
    requires { (0 < takers) × (takers ≤ 65) }
    ensures source { IfOk result (λ r. (r.0.takers ≡ takers) × (r.0.given ≡ [])) }
    ensures takers { IfOk result (λ r.
        (length r.1.items ≡ takers)
        × All (λ t. (t.relay ≡ r.0.relay) × (t.taken ≡ [])) r.1.items) }
{
    let mut deque = Worker::fifo_as(alloc, FIRST_SLOTS)?;
    let mut made = Vec::new(alloc);
    'takers: for _ in 0..takers {
        made.push(another_taker(&mut deque)?)?;
    }
    let source = JobSource {
        deque,
        takers,
        alloc,
    };
    Ok((source, made))
}

/// One more taker, which gets one of the source's parts.
fn another_taker<T: Numbered + Drop>(
    deque: &mut Worker<T, Global, Hand, ShareOut>,
) -> Result<JobTaker<T>, AllocError>
    requires { 1 < (worker_view deque.old).parts }
    ensures relay { worker_deque deque.new ≡ worker_deque deque.old }
    ensures flavor { worker_flavor deque.new ≡ worker_flavor deque.old }
    ensures room { worker_capacity deque.old ≤ worker_capacity deque.new }
    ensures index { worker_index deque.new ≡ worker_index deque.old }
    ensures taker { IfOk result (λ t. (t.relay ≡ worker_deque deque.old) × (t.taken ≡ [])) }
    ensures parts { IfOk result (λ _.
        let v = worker_view deque.old in worker_view deque.new ≡ hand (v.parts - 1) v.given v.taken v.left) }
{
    let stealer = deque.stealer()?;
    let pass = deque.another::<Cut>();
    Ok(JobTaker { stealer, pass })
}
