//! Boards that are driven by hand, and pieces that don't belong to them.

use crate::trees::{DIAMOND, limits_of, paths_of, tree_of};
use redo_core::board::{Board, HandFault, Stop};
use redo_core::permit::Permit;
use redo_core::work::{Piece, Work};
use std::alloc::Global;
use std::sync::Arc;
use std::test::Fail;

/// A board over the tree of a bundle, for these words and with this limit of targets.
pub(crate) fn board_of(
    rt: &HostRuntime,
    bundle: &str,
    words: &str,
    targets: u32,
) -> Result<Board, Fail> {
    let alloc = rt.alloc();
    let mut permit = Permit::new(rt, alloc, 1);
    let tree = Arc::new(alloc, tree_of(alloc, bundle)?)?;
    let request = paths_of(alloc, words)?;
    Ok(Board::open(&mut permit, tree, &request, limits_of(targets)?)?)
}

/// Takes the first ready target.
fn take(board: &mut Board) -> Result<Work, Fail> {
    if board.ready() == 0 {
        Err("nothing is ready")?;
    }
    Ok(board.take(0)?)
}

/// The first piece of a board of its own.
fn first_piece_of(
    rt: &HostRuntime,
    bundle: &str,
    words: &str,
    targets: u32,
) -> Result<Piece, Fail> {
    let mut board = board_of(rt, bundle, words, targets)?;
    Ok(take(&mut board)?.advance()?)
}

/// The first piece of another board of the diamond for `top`.
pub(crate) fn first_piece(rt: &HostRuntime, targets: u32) -> Result<Piece, Fail> {
    first_piece_of(rt, DIAMOND, "top", targets)
}

/// The answer to a piece of the board's build.
pub(crate) fn answer(board: &mut Board, piece: Piece) -> Result<Option<HandFault>, Fail> {
    if !board.belongs(&piece) {
        Err("a piece of another build")?;
    }
    Ok(board.hand_in(piece).err())
}

/// How many targets are ready, how many are out, and whether the board is quiet.
pub(crate) fn counts(board: &Board) -> (usize, usize, bool) {
    (board.ready(), board.out(), board.quiet())
}

/// Takes the first ready target and hands it in, `steps` times.
fn go(board: &mut Board, steps: usize) -> Result<(), Fail> {
    for _ in 0..steps {
        let piece = take(board)?.advance()?;
        if answer(board, piece)?.is_some() {
            Err("a piece was refused")?;
        }
    }
    Ok(())
}

/// Whether a board gives back the first piece of another one as a stranger, and then has these counts.
fn gives_back(
    rt: &HostRuntime,
    board: &mut Board,
    stands: (usize, usize, bool),
) -> Result<bool, Fail> {
    let piece = first_piece(rt, 100)?;
    let is_back = match answer(board, piece)? {
        Some(HandFault::Stranger(back)) => {
            back.target().text() == b"top".as_slice() && back.turn() == 0 && !back.ended()
        }
        _ => false,
    };
    Ok(is_back && counts(board) == stands)
}

#[test]
fn strangers_and_pieces_of_an_old_turn_come_back(rt: HostRuntime) -> Result<(), Fail> {
    let mut board = board_of(&rt, DIAMOND, "top", 100)?;
    assert!(rt;
        gives_back(&rt, &mut board, (1, 0, false))?,
        "its target isn't out"
    );
    go(&mut board, 6)?;
    let work = take(&mut board)?;
    assert!(rt; work.target().text() == b"top".as_slice() && work.turn() == 1);
    assert!(rt;
        gives_back(&rt, &mut board, (0, 1, false))?,
        "its turn is an old one"
    );
    Ok(())
}

/// Whether a board takes the first piece of another one for its own.
fn takes_piece(
    board: &Board,
    rt: &HostRuntime,
    bundle: &str,
    words: &str,
    targets: u32,
) -> Result<bool, Fail> {
    let piece = first_piece_of(rt, bundle, words, targets)?;
    Ok(board.belongs(&piece))
}

/// Whether a board is for the build of this tree, request and limit.
fn is_for(
    board: &Board,
    alloc: Global,
    bundle: &str,
    words: &str,
    targets: u32,
) -> Result<bool, Fail> {
    let limits = limits_of(targets)?;
    let tree = tree_of(alloc, bundle)?;
    let request = paths_of(alloc, words)?;
    Ok(board.is_for(&tree, &request, limits))
}

/// Whether a board for `left`, with a limit of 100, takes a piece of another build for its own, and is for that build:
/// both or neither. That build has some text before the diamond in its bundle.
fn is_one_with(rt: &HostRuntime, front: &str, words: &str, targets: u32) -> Result<bool, Fail> {
    let alloc = rt.alloc();
    let bundle = format!(in alloc; "{front}{DIAMOND}")?;
    let board = board_of(rt, DIAMOND, "left", 100)?;
    let takes = takes_piece(&board, rt, &bundle, words, targets)?;
    if takes != is_for(&board, alloc, &bundle, words, targets)? {
        Err("a board and a piece of one build")?;
    }
    Ok(takes)
}

#[test]
fn a_build_is_known_by_its_tree_request_and_limits(rt: HostRuntime) -> Result<(), Fail> {
    assert!(rt; is_one_with(&rt, "", "left", 100)?, "the same");
    for front in ["dir d\n", "file 4 .redo-book\nend\n\n"] {
        assert!(rt; !is_one_with(&rt, front, "left", 100)?, "{front}");
    }
    for words in ["top", "left left"] {
        assert!(rt; !is_one_with(&rt, "", words, 100)?, "{words}");
    }
    assert!(rt; !is_one_with(&rt, "", "left", 99)?, "another limit");
    Ok(())
}

/// Whether a board stops at a piece because too many targets are needed.
fn is_stopped_by(board: &mut Board, piece: Piece) -> Result<bool, Fail> {
    let is_told = matches!(answer(board, piece)?, Some(HandFault::TooMany));
    Ok(is_told && board.stopped() == Some(Stop::TooMany) && counts(board) == (0, 0, false))
}

#[test]
fn a_board_stops_at_its_limit(rt: HostRuntime) -> Result<(), Fail> {
    let mut board = board_of(&rt, DIAMOND, "top", 2)?;
    let piece = take(&mut board)?.advance()?;
    assert!(rt;
        is_stopped_by(&mut board, piece)?,
        "the first piece asks for one target too many"
    );
    let later = first_piece(&rt, 2)?;
    assert!(rt; is_stopped_by(&mut board, later)?, "a later piece");
    Ok(())
}
