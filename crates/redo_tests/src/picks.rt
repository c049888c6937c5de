//! Builds in a given order.

use crate::trees::{
    DIAMOND, DIAMOND_REPORT, REFUSED_BOOK, RING, RING_REPORT, limits_of, paths_of, tree_of,
};
use redo_core::board::Board;
use redo_core::permit::Permit;
use redo_report::report_text;
use redo_run::{Pick, drive};
use std::alloc::Global;
use std::test::Fail;

/// A pick: `t1` takes the ready target at index 1, and `h1` hands in the job at index 1.
fn pick_of(word: &str) -> Result<Pick, Fail> {
    if let Some(place) = word.strip_prefix('t') {
        return Ok(Pick::Take(place.parse()?));
    }
    let place = word.strip_prefix('h').ok_or("no pick")?;
    Ok(Pick::HandIn(place.parse()?))
}

/// Picks, separated by blanks.
fn picks_of(alloc: Global, order: &str) -> Result<Vec<Pick>, Fail> {
    let mut picks = Vec::new(alloc);
    for word in order.split(' ') {
        if !word.is_empty() {
            picks.push(pick_of(word)?)?;
        }
    }
    Ok(picks)
}

/// The report of a quiet board, without its files. Of any other, how many picks were done, and how many targets are
/// ready and out.
fn shown(alloc: Global, board: Board, done: usize) -> Result<Vec<u8>, Fail> {
    if board.quiet() {
        let report = board.finish()?.into_report(alloc)?;
        return Ok(report_text(alloc, &report, false)?);
    }
    let (ready, out) = (board.ready(), board.out());
    Ok(format!(in alloc; "{done} done, {ready} ready, {out} out")?.into_bytes())
}

/// What a build of these words comes to in this order, or why there is none.
fn came_to(
    rt: &HostRuntime,
    bundle: &str,
    words: &str,
    targets: u32,
    order: &str,
) -> Result<Vec<u8>, Fail> {
    let alloc = rt.alloc();
    let mut permit = Permit::new(rt, alloc, 1);
    let tree = tree_of(alloc, bundle)?;
    let request = paths_of(alloc, words)?;
    let picks = picks_of(alloc, order)?;
    match drive(&mut permit, tree, &request, limits_of(targets)?, &picks) {
        Ok((board, done)) => shown(alloc, board, done),
        Err(fault) => Ok(format!(in alloc; "{fault:?}")?.into_bytes()),
    }
}

/// Orders of a diamond: one job after another; both sides out at once, twice; and `base` before the second side.
const ORDERS: [&str; 3] = [
    "t0 h0 t0 h0 t0 h0 t0 h0 t0 h0 t0 h0 t0 h0",
    "t0 h0 t1 t0 h0 h0 t0 h0 t0 t0 h1 h0 t0 h0",
    "t0 h0 t0 h0 t1 h0 t1 h0 t0 h0 t0 h0 t0 h0",
];

#[test]
fn every_order_comes_to_the_report(rt: HostRuntime) -> Result<(), Fail> {
    for order in ORDERS {
        let report = came_to(&rt, DIAMOND, "top", 4, order)?;
        assert_eq!(rt; report.as_slice(), DIAMOND_REPORT.as_bytes(), "{order}");
    }
    Ok(())
}

/// A tree with a record of `mid`, by which it is kept.
const RECORDED: &str = "file 5 mid.do\ntrue\n\nfile 18 top.do\nredo-ifchange mid\n\n\
    file 20 .redo-book\ntarget none mid\nend\n\nend\n";

const KEPT_REPORT: &str =
    "built none mid\nbuilt none top\ndep change top.do\ndep change mid\nbegun top\nend\n";

/// A rule, an order of the diamond, and the state at the first pick that isn't open, or at the end.
const CUT_SHORT: [(&str, &str, &str); 4] = [
    ("what is requested is ready", "", "0 done, 1 ready, 0 out"),
    (
        "nothing is out at the opening",
        "h0",
        "0 done, 1 ready, 0 out",
    ),
    (
        "no second target is ready",
        "t0 t0",
        "1 done, 0 ready, 1 out",
    ),
    (
        "two may be out at once",
        "t0 h0 t1 t0",
        "4 done, 0 ready, 2 out",
    ),
];

/// A rule, a bundle, the requested words, the limit of targets, an order, and what it comes to.
const ENDS: [(&str, &str, &str, u32, &str, &str); 7] = [
    ("nothing is requested", DIAMOND, "", 1, "", "end\n"),
    (
        "what stands is no pick",
        RECORDED,
        "top",
        2,
        "t0 h0 t0 h0",
        KEPT_REPORT,
    ),
    (
        "as many as the limit allows",
        RING,
        "t u",
        4,
        "t0 h0 t0 h0 t0 h0 t0 h0",
        RING_REPORT,
    ),
    (
        "one target more",
        RING,
        "t u",
        3,
        "t0 h0 t0 h0 t0 h0 t0 h0",
        "TooMany",
    ),
    ("one more that is requested", RING, "t u", 1, "", "TooMany"),
    ("a refused book", REFUSED_BOOK, "a", 1, "", "Book(2)"),
    (
        "a refused book goes first",
        REFUSED_BOOK,
        "a b",
        1,
        "",
        "Book(2)",
    ),
];

#[test]
fn an_order_ends_at_the_first_pick_that_is_not_open(rt: HostRuntime) -> Result<(), Fail> {
    for (rule, order, end) in CUT_SHORT {
        let found = came_to(&rt, DIAMOND, "top", 4, order)?;
        assert_eq!(rt; found.as_slice(), end.as_bytes(), "{rule}");
    }
    for (rule, bundle, words, targets, order, end) in ENDS {
        let found = came_to(&rt, bundle, words, targets, order)?;
        assert_eq!(rt; found.as_slice(), end.as_bytes(), "{rule}");
    }
    Ok(())
}
