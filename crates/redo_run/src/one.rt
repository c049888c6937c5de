//! A build by one thread.

ghost use Rattle.std.specs.Prelude.{◌≡◌, ◌<◌, Err, IfOk, IsNone, OnOk, ℕ};
ghost use Rattle.redo_rules.specs.Results.{IsRefused, IsResultOn, NeedsTooMany};
ghost use Rattle.redo_core.specs.Faults.{IsSameBuild};
ghost use Rattle.redo_core.specs.Permits.{IsUnused, Uses};
ghost use Rattle.redo_build.specs.Outcomes.{IsTooMany};
ghost use Rattle.redo_build.specs.TakesLeft.{takes_left};
ghost use Rattle.redo_run.specs.Skipping.{IsSoundOn, IsUnsafeOn};
ghost use Rattle.redo_core.specs.Views.{jobs_out, limit_on, ready_count, request_on, rules_on};

use crate::RunFault;
use crate::laws::keeping_is_sound;
use redo_core::board::{Board, HandFault, Stop};
use redo_core::permit::Permit;
use redo_past::Past;
use redo_path::Path;
use redo_report::Report;
use redo_step::Limits;
use redo_tree::Tree;

/// Takes the target that became ready last, advances its script, and hands it in. So what was just asked for is built
/// before more is asked for, and few scripts are under way at a time.
fn advance_newest(board: &mut Board) -> Result<(), Stop>
    requires ready { 0 < ready_count board.old }
    requires none_out { jobs_out board.old ≡ 0 }
    requires running { IsNone board.old.stopped }
    ensures build { OnOk result (IsSameBuild board.old board.new) }
    ensures none_out { OnOk result (jobs_out board.new ≡ 0) }
    ensures running { OnOk result (IsNone board.new.stopped) }
    ensures left { OnOk result (
        takes_left (limit_on board.new) board.new.state < takes_left (limit_on board.old) board.old.state) }
    ensures too_many { result ≡ Err Stop.TooMany →
        IsTooMany (rules_on board.old) (request_on board.old) (limit_on board.old) }
{
    let work = board.take(board.ready() - 1)?;
    let piece = work.advance()?;
    match board.hand_in(piece) {
        Ok(()) => Ok(()),
        Err(HandFault::TooMany) => Err(Stop::TooMany),
        Err(HandFault::Memory) => Err(Stop::Memory),
        Err(HandFault::Stranger(_)) => unreachable!(),
    }
}

/// Builds the requested targets and all that they need, one script after another, and goes on if one fails. A target
/// whose recorded entries all stand is kept, and its script isn't begun. The new book is among the files of the report.
/// If keeping is safe, the report agrees with that of the sources alone.
pub fn build_one(
    permit: &mut Permit,
    tree: Tree,
    request: &[Path],
    limits: Limits,
) -> Result<Report, RunFault>
    requires permit { IsUnused permit.old }
    ensures used { OnOk result (Uses permit.old permit.new) }
    ensures report { IfOk result (IsResultOn tree request.now limits) }
    ensures sound { IfOk result (IsSoundOn tree request.now limits) }
    ensures book { (n : ℕ) → result ≡ Err (RunFault.Book n) → IsRefused tree n }
    ensures too_many { result ≡ Err RunFault.TooMany → NeedsTooMany tree request.now limits }
    ensures only_unsafe { result ≡ Err RunFault.TooMany → IsUnsafeOn tree request.now limits }
{
    keeping_is_sound();
    tree.is_tree();
    let past = Past::open(permit.alloc(), tree)?;
    let mut board = Board::over(permit, past, request, limits)?;
    while board.ready() > 0 {
        advance_newest(&mut board)?;
    }
    Ok(board.finish()?.into_report(permit.alloc())?)
}
