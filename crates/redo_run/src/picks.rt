//! A build in a given order, event by event.
//!
//! Nobody can foresee the order in which workers come to a board. [`drive`] makes one order: each [`Pick`] says what
//! happens next, by an index.

ghost use Rattle.std.specs.Prelude.{◌≡◌, Err, IfOk, IsNone, MatchBool, None, OnOk, Some, length, ℕ};
ghost use Rattle.redo_rules.specs.Results.{IsRefused, NeedsTooMany};
ghost use Rattle.redo_core.specs.Faults.{IsSameBuild};
ghost use Rattle.redo_core.specs.Permits.{IsUnused, Uses};
ghost use Rattle.redo_build.specs.Outcomes.{IsTooMany};
ghost use Rattle.redo_core.specs.Views.{limit_on, request_on, rules_on};
ghost use Rattle.redo_run.specs.Picks.{IsDriven, driven_on, picked};
ghost use Rattle.redo_run.specs.inside.Driving.{AreOut, HasCome, IsPicked};

use crate::RunFault;
use redo_build::laws::looks_leave_jobs;
use redo_core::board::{Board, HandFault, Stop};
use redo_core::laws::what_was_taken;
use redo_core::permit::Permit;
use redo_core::work::Work;
use redo_past::Past;
use redo_path::Path;
use redo_rules::laws::books_over_trees_are_lawful;
use redo_step::Limits;
use redo_tree::Tree;

/// What happens next on a board, by an index that is counted from 0.
#[derive(Clone, Copy, Debug, PartialEq, Eq)]
pub enum Pick {
    /// The ready target at this index is taken.
    Take(usize),
    /// The job at this index among those that are out, in the order of taking, is advanced and handed in.
    HandIn(usize),
}

/// Takes the ready target at an index. Returns false if there is none.
fn take_at(board: &mut Board, out: &mut Vec<Work>, which: usize) -> Result<bool, Stop>
    requires running { IsNone board.old.stopped }
    requires out { AreOut board.old out.old.items }
    requires come { HasCome board.old }
    ensures picked { IfOk result (IsPicked (Pick.Take which) board.old out.old.items board.new out.new.items) }
    ensures build { OnOk result (IsSameBuild board.old board.new) }
    ensures running { OnOk result (IsNone board.new.stopped) }
    ensures out { OnOk result (AreOut board.new out.new.items) }
    ensures come { OnOk result (HasCome board.new) }
    ensures too_many { result ≡ Err Stop.TooMany → ⊥ }
{
    what_was_taken();
    if which >= board.ready() {
        return Ok(false);
    }
    out.push(board.take(which)?)?;
    Ok(true)
}

/// Advances the job at an index among those that are out, and hands it in. Returns false if there is none.
fn hand_in_at(board: &mut Board, out: &mut Vec<Work>, which: usize) -> Result<bool, Stop>
    requires running { IsNone board.old.stopped }
    requires out { AreOut board.old out.old.items }
    requires come { HasCome board.old }
    ensures picked { IfOk result (IsPicked (Pick.HandIn which) board.old out.old.items board.new out.new.items) }
    ensures build { OnOk result (IsSameBuild board.old board.new) }
    ensures running { OnOk result (IsNone board.new.stopped) }
    ensures out { OnOk result (AreOut board.new out.new.items) }
    ensures come { OnOk result (HasCome board.new) }
    ensures too_many { result ≡ Err Stop.TooMany →
        IsTooMany (rules_on board.old) (request_on board.old) (limit_on board.old) }
{
    what_was_taken();
    looks_leave_jobs();
    books_over_trees_are_lawful();
    if which >= out.len() {
        return Ok(false);
    }
    let piece = out.remove(which).advance()?;
    match board.hand_in(piece) {
        Ok(()) => Ok(true),
        Err(HandFault::TooMany) => Err(Stop::TooMany),
        Err(HandFault::Memory) => Err(Stop::Memory),
        Err(HandFault::Stranger(_)) => unreachable!(),
    }
}

/// Performs a pick. Returns false if it isn't open, and then nothing has changed.
fn perform(board: &mut Board, out: &mut Vec<Work>, pick: Pick) -> Result<bool, Stop>
    requires running { IsNone board.old.stopped }
    requires out { AreOut board.old out.old.items }
    requires come { HasCome board.old }
    ensures picked { IfOk result (IsPicked pick board.old out.old.items board.new out.new.items) }
    ensures build { OnOk result (IsSameBuild board.old board.new) }
    ensures running { OnOk result (IsNone board.new.stopped) }
    ensures out { OnOk result (AreOut board.new out.new.items) }
    ensures come { OnOk result (HasCome board.new) }
    ensures too_many { result ≡ Err Stop.TooMany →
        IsTooMany (rules_on board.old) (request_on board.old) (limit_on board.old) }
{
    match pick {
        Pick::Take(which) => take_at(board, out, which),
        Pick::HandIn(which) => hand_in_at(board, out, which),
    }
}

/// Opens a board over a tree and performs the picks in order, up to the first that isn't open: nothing is ready, or
/// nothing is out, at its index. The board keeps targets by itself, without picks. Returns the board, whatever is left
/// to do on it, and how many picks were done. The works of targets that are still out are lost.
pub fn drive(
    permit: &mut Permit,
    tree: Tree,
    request: &[Path],
    limits: Limits,
    picks: &[Pick],
) -> Result<(Board, usize), RunFault>
    requires permit { IsUnused permit.old }
    ensures used { OnOk result (Uses permit.old permit.new) }
    ensures ok { IfOk result (λ driven. IsDriven tree request.now limits picks.now driven.0 driven.1) }
    ensures book { (n : ℕ) → result ≡ Err (RunFault.Book n) → IsRefused tree n }
    ensures too_many { result ≡ Err RunFault.TooMany → NeedsTooMany tree request.now limits }
{
    what_was_taken();
    let past = Past::open(permit.alloc(), tree)?;
    let mut board = Board::over(permit, past, request, limits)?;
    let mut out = Vec::new(permit.alloc());
    for (done, pick) in picks.iter().enumerate() {
        if !perform(&mut board, &mut out, *pick)? {
            return Ok((board, done));
        }
    }
    Ok((board, picks.len()))
}
