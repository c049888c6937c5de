//! Calls that no run makes, or only behind others, with ample memory.

use crate::memory_dir::MemoryDir;
use crate::pieces::board_of;
use crate::trees::{host_with, limits_of, paths_of, tree_of, watched};
use redo_dir::{WorkDir, Writers, load_dir, store_files};
use redo_path::Path;
use redo_record::Outcome;
use redo_run::{Gate, Gated, NoGate};
use redo_script::parse;
use redo_step::{Answers, Job, JobInputs, Parsed, Step};
use redo_tree::{Content, Kind, Tree};
use redo_which::Found;
use redo_which::lookup::{candidates, find, search};
use std::alloc::{AllocError, Global};
use std::sync::Arc;
use std::sync::atomic::AtomicU64;
use std::sync::atomic::Ordering::SeqCst;
use std::test::Fail;

/// A rule for names that end in `.x`.
const RULE: &str = "file 8 default.x.do\necho hi\n\nend\n";

/// The path that a word names.
fn path_of(alloc: Global, word: &str) -> Result<Path, Fail> {
    Ok(paths_of(alloc, word)?.pop().ok_or("no path")?)
}

#[test]
fn a_tree_lists_its_files(rt: HostRuntime) -> Result<(), Fail> {
    let alloc = rt.alloc();
    let (dir, file) = (path_of(alloc, "d")?, path_of(alloc, "d/f")?);
    let mut tree = Tree::new(alloc)?;
    tree.add_dir(&dir)?;
    tree.add_file(&file, Vec::new(alloc))?;
    assert!(rt; tree.kind(&dir) == Kind::Dir && tree.file(&file).is_some());
    let files = tree.files(alloc)?;
    assert!(rt; files.len() == 1 && files.first() == Some(&&file));
    assert!(rt; file.below(&dir) == Some(b"f".as_slice()) && file.name() == b"f".as_slice());
    assert!(rt; file.parent(alloc)? == Some(dir));
    Ok(())
}

#[test]
fn a_target_has_candidates_and_a_rule(rt: HostRuntime) -> Result<(), Fail> {
    let alloc = rt.alloc();
    let tree = tree_of(alloc, RULE)?;
    let target = path_of(alloc, "a.x")?;
    assert_eq!(rt; candidates(alloc, &target)?.len(), 3);
    let found = search(alloc, &tree, &target)?;
    assert!(rt; found.missing.len() == 1 && found.chosen.is_some());
    match find(alloc, &tree, &target)? {
        Found::Rule(rule) => assert_eq!(rt; rule.args.two(), b"a".as_slice()),
        _ => Err("no rule")?,
    }
    Ok(())
}

/// Knows no outcome.
#[derive(Drop)]
struct Nothing;

impl Answers for Nothing {
    ghost use Rattle.std.specs.Prelude.{None};

    ghost ask = { λ _ _. None };

    fn answer(&self, _path: &Path) -> Option<&Outcome> {
        None
    }
}

/// Where a job's first advance stops, with what it asks for; `None` if it ends.
fn first_stop(
    inputs: JobInputs,
    answers: &Nothing,
) -> Result<Option<(Job, Vec<Path>)>, AllocError> {
    let job = Job::begin(inputs)?;
    match job.advance(answers)? {
        Step::Asks { job, paths } => Ok(Some((job, paths))),
        Step::Ended(_) => Ok(None),
    }
}

/// The inputs of the job of `a.x`, with this script.
fn inputs_of(alloc: Global, script: &[u8]) -> Result<JobInputs, Fail> {
    let tree = Arc::new(alloc, tree_of(alloc, RULE)?)?;
    let target = path_of(alloc, "a.x")?;
    let Found::Rule(rule) = find(alloc, &tree, &target)? else {
        return Err("no rule")?;
    };
    let parsed = Arc::new(alloc, Parsed::Read(parse(alloc, script)?))?;
    Ok(JobInputs {
        alloc,
        tree,
        target,
        rule,
        parsed,
        limits: limits_of(1)?,
    })
}

#[test]
fn a_job_stops_where_it_lacks_an_answer(rt: HostRuntime) -> Result<(), Fail> {
    let inputs = inputs_of(rt.alloc(), b"redo-ifchange b c\n")?;
    let (job, paths) = first_stop(inputs, &Nothing)?.ok_or("it has ended")?;
    assert!(rt; job.target().text() == b"a.x".as_slice() && job.turn() == 1);
    assert!(rt; job.declared().len() == 2 && paths.len() == 2);
    Ok(())
}

#[test]
fn a_file_is_stored_in_a_directory_that_was_read(rt: HostRuntime) -> Result<(), Fail> {
    let alloc = rt.alloc();
    let mut dir = MemoryDir::new(alloc);
    dir.journal(alloc, &Content::new(Vec::new(alloc))?)?;
    let (tree, passed) = load_dir(&rt, &dir, alloc, 1)?;
    let file = (path_of(alloc, "a")?, Content::new(Vec::new(alloc))?);
    let writers = Writers { rt: &rt, most: 1 };
    store_files(&writers, &mut dir, alloc, &tree, &[file])?;
    assert!(rt; passed == 0 && dir.done.len() == 2);
    Ok(())
}

#[test]
fn ready_targets_stand_in_a_queue(rt: HostRuntime) -> Result<(), Fail> {
    let mut board = board_of(&rt, RULE, "b.x a.x", 2)?;
    assert_eq!(rt; board.ready(), 2);
    assert!(rt; board.ready_at(0).text() == b"b.x".as_slice());
    assert!(rt; board.ready_at(1).text() == b"a.x".as_slice());
    let work = board.take(0)?;
    assert!(rt; work.target().text() == b"b.x".as_slice());
    assert_eq!(rt; board.ready(), 1);
    assert!(rt; board.ready_at(0).text() == b"a.x".as_slice());
    Ok(())
}

/// `a` asks for `b`, and stops once.
const ASKING: &str = "file 16 a.do\nredo-ifchange b\n\nfile 7 b.do\necho b\n\nend\n";

/// The report of `a`, without its files.
const ASKING_REPORT: &str = "built none a\ndep change a.do\ndep change b\n\
    built 2 b\ndep change b.do\nbegun a\nbegun b\nend\n";

/// Counts how often the script of `a` passes before and after it has stopped, that of `b`, and anything else.
#[derive(Drop)]
struct Counts {
    stops: AtomicU64,
    goes_on: AtomicU64,
    asked: AtomicU64,
    strange: AtomicU64,
}

impl Gate for Counts {
    fn enter(&self, target: &Path, turn: u64) {
        let of_a = target.text() == b"a".as_slice();
        let of_b = target.text() == b"b".as_slice();
        let count = if of_a && turn == 0 {
            &self.stops
        } else if of_a && turn == 1 {
            &self.goes_on
        } else if of_b && turn == 0 {
            &self.asked
        } else {
            &self.strange
        };
        count.fetch_add(1, SeqCst);
    }
}

#[test]
fn each_job_passes_the_gate(rt: HostRuntime) -> Result<(), Fail> {
    let gated = Gated(Counts {
        stops: AtomicU64::new(0),
        goes_on: AtomicU64::new(0),
        asked: AtomicU64::new(0),
        strange: AtomicU64::new(0),
    });
    let text = watched(&mut host_with(&rt, &gated), ASKING, "a", 2)?;
    assert_eq!(rt; text.as_slice(), ASKING_REPORT.as_bytes());
    let Gated(counts) = &gated;
    assert_eq!(rt; counts.stops.load(SeqCst), 1);
    assert_eq!(rt; counts.goes_on.load(SeqCst), 1);
    assert_eq!(rt; counts.asked.load(SeqCst), 1);
    assert_eq!(rt; counts.strange.load(SeqCst), 0);
    Ok(())
}

#[test]
fn no_gate_lets_all_pass(rt: HostRuntime) -> Result<(), Fail> {
    let text = watched(&mut host_with(&rt, &Gated(NoGate)), ASKING, "a", 2)?;
    assert_eq!(rt; text.as_slice(), ASKING_REPORT.as_bytes());
    Ok(())
}
