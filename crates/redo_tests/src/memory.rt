//! What a call leaves if it is refused memory: `tests/refused-memory` refuses each allocation of these tests in turn,
//! one in each run.

ghost use Rattle.redo_core.specs.Permits.{IsUnused};

use crate::pieces::{answer, counts, first_piece};
use crate::relay::Ticket;
use crate::trees::{
    DIAMOND, DIAMOND_REPORT, REFUSED_BOOK, RING, RING_REPORT, built_by, host_of, limits_of,
    paths_of, tree_of,
};
use redo_core::board::{Board, HandFault, Stop};
use redo_core::opening::OpenFault;
use redo_core::permit::Permit;
use redo_core::work::{Piece, Work};
use redo_path::Path;
use redo_report::{Report, report_text};
use redo_run::{Host, NoObserver, RunFault, build_one};
use redo_sync::{Cells, JobTaker, Numbered, Taken, relay};
use redo_tree::Tree;
use std::alloc::Global;
use std::marker::Brand;
use std::sync::{Arc, Wait};
use std::test::Fail;
use std::thread::Threads;

/// Each target asks for another one.
const ENDLESS: &str = "file 20 default.do\nredo-ifchange \"$1\"x\n\nend\n";

/// A rule for `hello`, and what a run has made of it.
const GENERATED: &str = "file 8 hello.do\necho hi\n\nfile 3 hello\nhi\n\nfile 82 .redo-book\n\
    target 98ea6e4f216f2fb4b69fff9b3a44842c38686ca685f3f55dc48c5d3fb1107be4 hello\nend\n\nend\n";

const GENERATED_REPORT: &str = "built 3 hello\ndep change hello.do\nbegun hello\nend\n";

/// A rule, a bundle, the requested words, and the report, without its files, or why there is none.
const BUILDS: [(&str, &str, &str, &str); 5] = [
    ("a diamond", DIAMOND, "top", DIAMOND_REPORT),
    ("a ring", RING, "t u", RING_REPORT),
    ("too many", ENDLESS, "a", "TooMany"),
    ("a generated file", GENERATED, "hello", GENERATED_REPORT),
    ("a refused book", REFUSED_BOOK, "a", "Book(2)"),
];

/// Whether a build came to what is expected, or is the first that ran out of memory.
fn is_answer(
    alloc: Global,
    found: Result<Report, RunFault>,
    expected: &str,
    was_refused: &mut bool,
) -> Result<bool, Fail> {
    match found {
        Ok(report) => Ok(report_text(alloc, &report, false)?.as_slice() == expected.as_bytes()),
        Err(RunFault::Memory) => {
            let is_first = !*was_refused;
            *was_refused = true;
            Ok(is_first)
        }
        Err(fault) => Ok(format!(in alloc; "{fault:?}")?.as_str() == expected),
    }
}

/// What a build by one thread comes to.
fn by_one_thread(
    rt: &HostRuntime,
    bundle: &str,
    words: &str,
) -> Result<Result<Report, RunFault>, Fail> {
    let alloc = rt.alloc();
    let request = paths_of(alloc, words)?;
    let mut permit = Permit::new(rt, alloc, 1);
    let tree = tree_of(alloc, bundle)?;
    let limits = limits_of(100)?;
    Ok(build_one(&mut permit, tree, &request, limits))
}

/// What a build by four workers comes to.
fn by_four_workers<R: Threads + Wait + Sync>(
    host: &mut Host<'_, R, NoObserver>,
    bundle: &str,
    words: &str,
) -> Result<Result<Report, RunFault>, Fail>
    requires { IsUnused host.old.permit }
{
    let alloc = host.alloc();
    let request = paths_of(alloc, words)?;
    let tree = tree_of(alloc, bundle)?;
    let limits = limits_of(100)?;
    let found = built_by::<Brand, R, NoObserver>(host, tree, &request, limits, 4);
    Ok(found.map(|(report, _none_left)| report))
}

#[test]
fn one_thread_answers_as_ever_or_is_out_of_memory(rt: HostRuntime) -> Result<(), Fail> {
    let mut was_refused = false;
    for (rule, bundle, words, expected) in BUILDS {
        let found = by_one_thread(&rt, bundle, words)?;
        let is_answer = is_answer(rt.alloc(), found, expected, &mut was_refused)?;
        assert!(rt; is_answer, "{rule}");
    }
    Ok(())
}

#[test]
fn four_workers_answer_as_ever_or_are_out_of_memory(rt: HostRuntime) -> Result<(), Fail> {
    let mut was_refused = false;
    for (rule, bundle, words, expected) in BUILDS {
        let found = by_four_workers(&mut host_of(&rt), bundle, words)?;
        let is_answer = is_answer(rt.alloc(), found, expected, &mut was_refused)?;
        assert!(rt; is_answer, "{rule}");
    }
    Ok(())
}

/// How often a target of the diamond is taken: `top`, `left` and `right` twice, and `base` once.
const TAKES: usize = 7;

/// Opens a board of the diamond over a tree; `None` if memory runs out.
fn opened(rt: &HostRuntime, tree: &Arc<Tree>) -> Result<Option<Board>, Fail> {
    let alloc = rt.alloc();
    let mut permit = Permit::new(rt, alloc, 1);
    let request = paths_of(alloc, "top")?;
    match Board::open(
        &mut permit,
        Arc::try_clone(tree)?,
        &request,
        limits_of(100)?,
    ) {
        Ok(board) => Ok(Some(board)),
        Err(OpenFault::Memory) => Ok(None),
        Err(OpenFault::TooMany) => Err("too many targets")?,
        Err(OpenFault::Book(_)) => Err("a book in a tree without one")?,
    }
}

/// Takes the first ready target. A take that was refused has changed nothing, so it is made again.
fn taken(board: &mut Board) -> Result<Work, Fail> {
    if board.ready() == 0 {
        Err("nothing is ready")?;
    }
    let before = counts(board);
    if let Ok(work) = board.take(0) {
        return Ok(work);
    }
    if counts(board) != before || board.ready() == 0 {
        Err("a refused take has taken something")?;
    }
    Ok(board.take(0)?)
}

/// Whether a board runs out of memory for a piece. It takes in any other.
fn is_refused(board: &mut Board, piece: Piece) -> Result<bool, Fail> {
    match answer(board, piece)? {
        None => Ok(false),
        Some(HandFault::Memory) => Ok(true),
        Some(_) => Err("a piece was refused")?,
    }
}

/// A board that was refused memory has stopped, and says so for good.
fn stays_stopped(rt: &HostRuntime, board: &mut Board) -> Result<(), Fail> {
    if board.stopped() != Some(Stop::Memory) || counts(board) != (0, 0, false) {
        Err("a board goes on without memory")?;
    }
    let later = first_piece(rt, 100)?;
    if !is_refused(board, later)? {
        Err("a stopped board takes in a piece")?;
    }
    Ok(())
}

/// Takes a target and hands it in. Returns whether there was memory for it.
fn go_on(rt: &HostRuntime, board: &mut Board) -> Result<bool, Fail> {
    let Ok(piece) = taken(board)?.advance() else {
        return Ok(false);
    };
    if is_refused(board, piece)? {
        stays_stopped(rt, board)?;
        return Ok(false);
    }
    Ok(true)
}

/// The text of a quiet board's report, or `None` if memory runs out.
fn text_of(alloc: Global, board: Board) -> Result<Option<Vec<u8>>, Fail> {
    if !board.quiet() {
        Err("not quiet")?;
    }
    match board.finish().and_then(|report| report.into_report(alloc)) {
        Ok(report) => Ok(Some(report_text(alloc, &report, false)?)),
        Err(_) => Ok(None),
    }
}

/// Builds the diamond over a tree. Returns the report's text, or `None` if memory ran out on the way.
fn built(rt: &HostRuntime, tree: &Arc<Tree>) -> Result<Option<Vec<u8>>, Fail> {
    let Some(mut board) = opened(rt, tree)? else {
        return Ok(None);
    };
    for _ in 0..TAKES {
        if !go_on(rt, &mut board)? {
            return Ok(None);
        }
    }
    text_of(rt.alloc(), board)
}

/// Whether a text, if there is one, is the diamond's report.
fn is_report(text: &Option<Vec<u8>>) -> bool {
    match text {
        Some(text) => text.as_slice() == DIAMOND_REPORT.as_bytes(),
        None => true,
    }
}

/// A job that is lost to a refused call leaves the tree that it shared whole.
#[test]
fn a_refusal_ends_one_build_alone(rt: HostRuntime) -> Result<(), Fail> {
    let alloc = rt.alloc();
    let tree = Arc::new(alloc, tree_of(alloc, DIAMOND)?)?;
    let one = built(&rt, &tree)?;
    let other = built(&rt, &tree)?;
    assert!(rt; one.is_some() || other.is_some());
    assert!(rt; is_report(&one) && is_report(&other));
    Ok(())
}

/// How many jobs are given: the queue grows twice on the way.
const JOBS: u64 = 200;

/// The turn of the job that is taken within 1,000 tries, none of which may be refused.
fn turn_taken(taker: &mut JobTaker<Ticket>) -> Result<u64, Fail> {
    for _ in 0..1000 {
        match taker.try_take() {
            Ok(Taken::Job(job)) => return Ok(job.turn()),
            Ok(Taken::Empty | Taken::Again) => (),
            Err(_) => Err("a taker was refused memory")?,
        }
    }
    Err("no job")?
}

#[test]
fn a_refused_job_comes_back_and_each_is_taken(rt: HostRuntime) -> Result<(), Fail> {
    let (mut source, mut takers) = relay(rt.alloc(), 1)?;
    for turn in 0..JOBS {
        let target = Path::root();
        if let Err((back, _)) = source.give(Ticket { target, turn }) {
            assert_eq!(rt; back.turn(), turn);
            source.give(back).map_err(|e| e.1)?;
        }
    }
    let mut taker = takers.pop().ok_or("no taker")?;
    for turn in 0..JOBS {
        assert_eq!(rt; turn_taken(&mut taker)?, turn);
    }
    Ok(())
}

#[test]
fn a_refused_value_comes_back_and_may_be_published(rt: HostRuntime) -> Result<(), Fail> {
    let cells = Cells::new(rt.alloc(), 1)?;
    for value in [7u64, 8] {
        let known = match Cells::publish(&cells, 0, value) {
            Ok(known) => known,
            Err((back, _)) => {
                assert_eq!(rt; back, value);
                Cells::publish(&cells, 0, back).map_err(|e| e.1)?
            }
        };
        assert_eq!(rt; *known.read(), value);
    }
    let seen = Cells::look(&cells, 0)?.ok_or("the cell is empty")?;
    assert_eq!(rt; *seen.read(), 7);
    Ok(())
}
