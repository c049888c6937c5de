//! Which jobs workers take up, how often, and how many at a time.

ghost use Rattle.redo_core.specs.Permits.{IsUnused};

use crate::trees::{DIAMOND, DIAMOND_REPORT, host_with, limits_of, paths_of, watched};
use redo_bundle::Plain;
use redo_core::board::Board;
use redo_path::Path;
use redo_run::{Cause, Exit, Host, Observer, Options, RunIoFault, run_bundle};
use std::alloc::{AllocError, Global};
use std::sync::Wait;
use std::sync::atomic::AtomicU64;
use std::sync::atomic::Ordering::SeqCst;
use std::test::Fail;
use std::thread::{Threads, yield_now};

/// Writes a target whose script is long, so that it is worth a worker.
fn write_long(bundle: &mut Vec<u8>, head: &[u8]) -> Result<(), AllocError> {
    bundle.extend_from_slice(head)?;
    for _ in 0..4096 {
        bundle.push(b'#')?;
    }
    bundle.extend_from_slice(b"\n\n")
}

/// Two targets without dependencies, and one that asks for both.
fn two(alloc: Global) -> Result<Vec<u8>, AllocError> {
    let mut bundle = Vec::new(alloc);
    write_long(&mut bundle, b"file 4104 a.do\necho a\n")?;
    write_long(&mut bundle, b"file 4104 b.do\necho b\n")?;
    bundle.extend_from_slice(b"file 18 top.do\nredo-ifchange a b\n\nend\n")?;
    Ok(bundle)
}

/// Holds whoever enters until two have entered, for at most 1,000,000 yields, and counts who waited in vain. The target
/// `top` isn't held.
#[derive(Drop)]
struct Pair {
    entered: AtomicU64,
    in_vain: AtomicU64,
}

impl Observer for Pair {
    fn given_out(&self, _board: &Board, _target: &Path, _turn: u64) {}

    fn taken_up(&self, target: &Path, _turn: u64) {
        if target.text() == b"top".as_slice() {
            return;
        }
        self.entered.fetch_add(1, SeqCst);
        for _ in 0..1_000_000u32 {
            if self.entered.load(SeqCst) >= 2 {
                return;
            }
            yield_now();
        }
        self.in_vain.fetch_add(1, SeqCst);
    }
}

/// How a run of two workers over two targets ends.
fn run_by_two<R: Threads + Wait + Sync>(
    host: &mut Host<'_, R, Pair>,
    words: &str,
) -> Result<Result<Exit, RunIoFault>, Fail>
    requires { IsUnused host.old.permit }
{
    let alloc = host.alloc();
    let options = Options {
        targets: paths_of(alloc, words)?,
        taken: Vec::new(alloc),
        workers: 2,
        limits: limits_of(3)?,
    };
    let bundle = two(alloc)?;
    match run_bundle(
        host,
        &mut Plain::new(bundle.as_slice()),
        &mut Plain::new(Vec::new(alloc)),
        &options,
        &mut Cause::new(alloc),
    ) {
        Ok(run) => Ok(Ok(run.exit)),
        Err(fault) => Ok(Err(fault)),
    }
}

/// Two targets that are requested, and two that become ready later.
#[test]
fn both_must_be_inside_a_run(rt: HostRuntime) -> Result<(), Fail> {
    for words in ["a b", "top"] {
        let pair = Pair {
            entered: AtomicU64::new(0),
            in_vain: AtomicU64::new(0),
        };
        let exit = run_by_two(&mut host_with(&rt, &pair), words)?;
        assert!(rt; exit == Ok(Exit::Good), "{words}");
        assert_eq!(rt; pair.entered.load(SeqCst), 2, "{words}");
        assert_eq!(rt; pair.in_vain.load(SeqCst), 0, "{words}");
    }
    Ok(())
}

/// The jobs of a diamond: each script from its first statement on, and three that stopped once more.
const JOBS: [(&[u8], u64); 7] = [
    (b"base", 0),
    (b"left", 0),
    (b"left", 1),
    (b"right", 0),
    (b"right", 1),
    (b"top", 0),
    (b"top", 1),
];

/// Counts how often each job entered, and how often anything else did. It holds whoever enters until more are inside
/// than there are workers, for at most 10,000 yields, and counts how often that was so.
#[derive(Drop)]
struct Crowd {
    workers: u64,
    entered: Vec<AtomicU64>,
    strange: AtomicU64,
    inside: AtomicU64,
    too_many: AtomicU64,
}

impl Crowd {
    /// Before anyone has entered.
    fn new(alloc: Global, workers: u64) -> Result<Crowd, AllocError> {
        let mut entered = Vec::new(alloc);
        for _ in JOBS {
            entered.push(AtomicU64::new(0))?;
        }
        Ok(Crowd {
            workers,
            entered,
            strange: AtomicU64::new(0),
            inside: AtomicU64::new(0),
            too_many: AtomicU64::new(0),
        })
    }

    /// Counts a job.
    fn note(&self, target: &Path, turn: u64) {
        let place = JOBS
            .iter()
            .position(|job| target.text() == job.0 && turn == job.1);
        match place.and_then(|place| self.entered.get(place)) {
            Some(count) => count.fetch_add(1, SeqCst),
            None => self.strange.fetch_add(1, SeqCst),
        };
    }

    /// Whether each job entered once, and nothing else did.
    fn saw_each_once(&self) -> bool {
        self.strange.load(SeqCst) == 0 && self.entered.iter().all(|count| count.load(SeqCst) == 1)
    }
}

impl Observer for Crowd {
    fn given_out(&self, _board: &Board, _target: &Path, _turn: u64) {}

    fn taken_up(&self, target: &Path, turn: u64) {
        self.note(target, turn);
        self.inside.fetch_add(1, SeqCst);
        for _ in 0..10_000u32 {
            if self.inside.load(SeqCst) > self.workers {
                self.too_many.fetch_add(1, SeqCst);
                break;
            }
            yield_now();
        }
        self.inside.fetch_sub(1, SeqCst);
    }
}

#[test]
fn each_job_enters_once_and_no_more_are_inside_than_workers(rt: HostRuntime) -> Result<(), Fail> {
    for workers in [1usize, 2, 8] {
        let crowd = Crowd::new(rt.alloc(), workers as u64)?;
        let text = watched(&mut host_with(&rt, &crowd), DIAMOND, "top", workers)?;
        assert_eq!(rt;
            text.as_slice(),
            DIAMOND_REPORT.as_bytes(),
            "{workers} workers"
        );
        assert!(rt; crowd.saw_each_once(), "{workers} workers");
        assert_eq!(rt; crowd.too_many.load(SeqCst), 0, "{workers} workers");
    }
    Ok(())
}
