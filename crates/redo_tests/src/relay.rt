//! Who takes the jobs of a relay, and what is left of them.
ghost use Rattle.std.specs.Prelude.{◌≡◌, All, length, IfOk};

use redo_path::{Path, PathFault, resolve};
use redo_sync::{JobSource, JobTaker, Numbered, Taken, gather, relay};
use std::alloc::{AllocError, Global};
use std::snapshot::Snapshot;
use std::sync::Wait;
use std::sync::atomic::Ordering::SeqCst;
use std::sync::atomic::{AtomicBool, AtomicU64};
use std::test::Fail;
use std::thread;
use std::thread::{Promise, PromisedHandle, Scope, Threads};

/// How many jobs each of four takers takes, of the 10,000 that are given.
const SHARE: usize = 2000;

/// How often a taker may find no job once all have been given.
const MOST_TRIES: u64 = 1_000_000;

/// A job that is nothing but its target and turn.
#[derive(Drop)]
pub(crate) struct Ticket {
    pub(crate) target: Path,
    pub(crate) turn: u64,
}

impl Numbered for Ticket {
    ghost number = { λ t. (t.target, t.turn) };

    fn target(&self) -> &Path {
        &self.target
    }

    fn turn(&self) -> u64 {
        self.turn
    }
}

/// The job of a target at a turn.
fn ticket_for(alloc: Global, target: &str, turn: u64) -> Result<Ticket, PathFault> {
    let target = resolve(alloc, &Path::root(), target.as_bytes())?;
    Ok(Ticket { target, turn })
}

/// The job that is taken within 1,000 tries.
fn taken_soon(taker: &mut JobTaker<Ticket>) -> Result<Option<Ticket>, Fail>
    ensures { taker.new.relay ≡ taker.old.relay }
{
    for _ in 0..1000 {
        if let Taken::Job(job) = taker.try_take()? {
            return Ok(Some(job));
        }
    }
    Ok(None)
}

/// The turn of the job of `a` that is taken within 1,000 tries.
fn turn_taken(taker: &mut JobTaker<Ticket>) -> Result<u64, Fail> {
    let job = taken_soon(taker)?.ok_or("no job")?;
    if job.target().text() != b"a".as_slice() {
        Err("another target")?;
    }
    Ok(job.turn())
}

#[test]
fn jobs_are_taken_in_order(rt: HostRuntime) -> Result<(), Fail> {
    let alloc = rt.alloc();
    let (mut source, mut takers) = relay(alloc, 2)?;
    let mut one = takers.pop().ok_or("no taker")?;
    let mut two = takers.pop().ok_or("no taker")?;
    assert!(rt; matches!(&one.try_take()?, Taken::Empty));
    for turn in 0..4 {
        source.give(ticket_for(alloc, "a", turn)?).map_err(|e| e.1)?;
    }
    for turn in [0, 2] {
        assert_eq!(rt; turn_taken(&mut one)?, turn);
        assert_eq!(rt; turn_taken(&mut two)?, turn + 1);
    }
    Ok(())
}

#[test]
fn what_nobody_took_is_left(rt: HostRuntime) -> Result<(), Fail> {
    let alloc = rt.alloc();
    let (mut source, takers) = relay(alloc, 2)?;
    'given: for turn in 0..100 {
        source.give(ticket_for(alloc, "a", turn)?).map_err(|e| e.1)?;
    }
    let ledger = gather(source, takers)?;
    assert_eq!(rt; ledger.left().len(), 100);
    for (turn, job) in ledger.left().iter().enumerate() {
        assert_eq!(rt; job.turn(), turn as u64);
    }
    let (source, takers) = relay::<Ticket>(alloc, 65)?;
    assert_eq!(rt; takers.len(), 65);
    assert!(rt; gather(source, takers)?.left().is_empty());
    Ok(())
}

/// How often the job of each turn was seen: those of the target `a`, and those of `b`.
#[derive(Drop)]
struct Marks {
    a: Vec<AtomicU64>,
    b: Vec<AtomicU64>,
    all_given: AtomicBool,
}

/// 5,000 counts, each 0.
fn counts(alloc: Global) -> Result<Vec<AtomicU64>, AllocError> {
    let mut counts = Vec::new(alloc);
    for _ in 0..5000 {
        counts.push(AtomicU64::new(0))?;
    }
    Ok(counts)
}

impl Marks {
    /// No job was seen.
    fn new(alloc: Global) -> Result<Marks, AllocError> {
        Ok(Marks {
            a: counts(alloc)?,
            b: counts(alloc)?,
            all_given: AtomicBool::new(false),
        })
    }

    /// Counts a job.
    fn mark(&self, job: &Ticket) {
        let row = if job.target().text() == b"a".as_slice() {
            &self.a
        } else {
            &self.b
        };
        if let Some(count) = row.get(job.turn() as usize) {
            count.fetch_add(1, SeqCst);
        }
    }

    /// How many jobs were seen exactly once.
    fn seen_once(&self) -> usize {
        let mut once = 0usize;
        for count in self.a.iter().chain(self.b.iter()) {
            if count.load(SeqCst) == 1 {
                once = once.saturating_add(1);
            }
        }
        once
    }
}

/// What the threads share.
#[derive(Drop)]
struct Shared<'s, R> {
    rt: &'s R,
    marks: &'s Marks,
}

/// Takes a share of the jobs, and marks each.
fn take_share<R: Wait>(rt: &R, taker: JobTaker<Ticket>, marks: &Marks) -> JobTaker<Ticket>
    ensures { result.relay ≡ taker.relay }
{
    let mut taker = taker;
    let mut taken = 0usize;
    let mut tries = 0u64;
    'tries: for _ in rt.forever() {
        if taken >= SHARE || tries >= MOST_TRIES {
            break;
        }
        match taker.try_take() {
            Ok(Taken::Job(job)) => {
                marks.mark(&job);
                taken += 1;
            }
            Ok(Taken::Empty | Taken::Again) => {
                if marks.all_given.load(SeqCst) {
                    tries += 1;
                }
                thread::yield_now();
            }
            Err(_) => break,
        }
    }
    taker
}

/// Gives the jobs of the targets `a` and `b` at the turns below 5,000.
fn give_all(alloc: Global, source: &mut JobSource<Ticket>) -> Result<(), Fail>
    ensures { (source.new.relay ≡ source.old.relay) × (source.new.takers ≡ source.old.takers) }
{
    'jobs: for number in 0..10_000u64 {
        let target = if number % 2 == 0 { "a" } else { "b" };
        let job = ticket_for(alloc, target, number / 2)?;
        source.give(job).map_err(|e| e.1)?;
    }
    Ok(())
}

/// A thread handles back the taker that it was given.
#[derive(Drop)]
struct SameRelay(Snapshot<JobTaker<Ticket>>);

impl Promise<JobTaker<Ticket>> for SameRelay {
    ghost kept_by = { λ p t. t.relay ≡ p.0.value.relay };
}

type TakerHandle = PromisedHandle<JobTaker<Ticket>, SameRelay>;

/// Starts a thread for each taker of a source.
fn start_all<'s, E, R: Threads + Wait + Sync>(
    scope: &Scope<'s, E>,
    shared: Shared<'s, R>,
    alloc: Global,
    source: &JobSource<Ticket>,
    takers: Vec<JobTaker<Ticket>>,
) -> Result<Vec<TakerHandle>, AllocError>
    requires { All (λ t. t.relay ≡ source.now.relay) takers.items }
    ensures { IfOk result (λ handles.
        (length handles.items ≡ length takers.items)
        × All (λ h. h.promise.0.value.relay ≡ source.now.relay) handles.items) }
{
    let Shared { rt, marks } = shared;
    let mut handles = Vec::new(alloc);
    'takers: for taker in takers {
        let promise = SameRelay(Snapshot::of(&taker));
        handles.push(scope.spawn_with(promise, move || take_share(rt, taker, marks))?)?;
    }
    Ok(handles)
}

/// The takers of a source, as their threads end.
fn join_all<R: Threads>(
    rt: &R,
    alloc: Global,
    source: &JobSource<Ticket>,
    handles: Vec<TakerHandle>,
) -> Result<Vec<JobTaker<Ticket>>, AllocError>
    requires { All (λ h. h.promise.0.value.relay ≡ source.now.relay) handles.items }
    ensures { IfOk result (λ takers.
        (length takers.items ≡ length handles.items) × All (λ t. t.relay ≡ source.now.relay) takers.items) }
{
    let mut takers = Vec::new(alloc);
    'handles: for handle in handles {
        takers.push(handle.join(rt))?;
    }
    Ok(takers)
}

/// A source with all of its takers.
#[derive(Drop)]
struct Ends {
    source: JobSource<Ticket>,
    takers: Vec<JobTaker<Ticket>>,
}

/// Gives all jobs while a thread of each taker takes its share.
fn run<'s, E, R: Threads + Wait + Sync>(
    scope: &Scope<'s, E>,
    rt: &'s R,
    alloc: Global,
    marks: &'s Marks,
    ends: Ends,
) -> Result<Ends, Fail>
    requires all { length ends.takers.items ≡ ends.source.takers }
    requires own { All (λ t. t.relay ≡ ends.source.relay) ends.takers.items }
    ensures all { IfOk result (λ e. length e.takers.items ≡ e.source.takers) }
    ensures own { IfOk result (λ e. All (λ t. t.relay ≡ e.source.relay) e.takers.items) }
{
    let Ends { mut source, takers } = ends;
    let shared = Shared { rt, marks };
    let started = start_all(scope, shared, alloc, &source, takers);
    let given = give_all(alloc, &mut source);
    marks.all_given.store(true, SeqCst);
    given?;
    let takers = join_all(rt, alloc, &source, started?)?;
    Ok(Ends { source, takers })
}

/// The same in a scope of threads.
fn run_in_scope<R: Threads + Wait + Sync>(
    rt: &R,
    alloc: Global,
    marks: &Marks,
    ends: Ends,
) -> Result<Ends, Fail>
    requires all { length ends.takers.items ≡ ends.source.takers }
    requires own { All (λ t. t.relay ≡ ends.source.relay) ends.takers.items }
    ensures all { IfOk result (λ e. length e.takers.items ≡ e.source.takers) }
    ensures own { IfOk result (λ e. All (λ t. t.relay ≡ e.source.relay) e.takers.items) }
{
    thread::scope(
        thread::scope_env(),
        rt,
        move |scope| -> Result<Ends, Fail>
            requires { (length ends.takers.items ≡ ends.source.takers)
                × All (λ t. t.relay ≡ ends.source.relay) ends.takers.items }
            ensures { IfOk result (λ e. (length e.takers.items ≡ e.source.takers)
                × All (λ t. t.relay ≡ e.source.relay) e.takers.items) }
        { run(scope, rt, alloc, marks, ends) },
    )
}

#[test]
fn each_job_is_taken_once_or_left(rt: HostRuntime) -> Result<(), Fail> {
    let alloc = rt.alloc();
    let (source, takers) = relay(alloc, 4)?;
    let marks = Marks::new(alloc)?;
    let Ends { source, takers } = run_in_scope(&rt, alloc, &marks, Ends { source, takers })?;
    assert_eq!(rt; marks.seen_once(), 8000);
    let ledger = gather(source, takers)?;
    assert_eq!(rt; ledger.left().len(), 2000);
    for job in ledger.left() {
        marks.mark(job);
    }
    assert_eq!(rt; marks.seen_once(), 10_000);
    Ok(())
}
