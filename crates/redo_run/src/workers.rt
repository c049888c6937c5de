//! A build by many workers, and by one.
//!
//! The thread that asked for the build owns the board, without a lock, and is one of the workers. Each job goes through
//! a relay, from which it is taken once. The owner advances short scripts itself. It offers long ones to the others,
//! calling one if too few look for a job, and hands in the pieces that come back through a channel. Once all workers
//! have ended, the ledger of the relay shows that each job was taken once.

ghost use Rattle.std.specs.Prelude.{◌≡◌, ◌≤◌, ◌+◌, Err, [], IfOk, IsNone, IsTrue, OnOk, ℕ, length, map, vec_capacity};
ghost use Rattle.redo_build.specs.Outcomes.{IsTooMany};
ghost use Rattle.redo_build.specs.Takes.{AreBegun, AreCountedOnce};
ghost use Rattle.redo_core.specs.Permits.{IsUnused};
ghost use Rattle.redo_core.specs.Taken.{HasTaken};
ghost use Rattle.redo_core.specs.Views.{IsQuietBoard, limit_on, request_on, rules_on};
ghost use Rattle.redo_rules.specs.Results.{IsGiven, IsOfTree, IsRefused, IsResultOn, NeedsTooMany};
ghost use Rattle.redo_sync.specs.Relay.{RelayId, SharesOut, taken_by};
ghost use Rattle.redo_run.specs.Skipping.{IsSoundOn, IsUnsafeOn};
ghost use Rattle.redo_run.specs.inside.Workers.{AreOtherTakers, AreTakersOf, HasKeptUp, IsAnswerTo, IsBuildOf, IsManned};
ghost use Rattle.redo_run.specs.inside.Workers.{IsSameOwner, NeedsMany};

use crate::RunFault;
use crate::crew::Shared;
use crate::ended::{EndedBuild, hand_out};
use crate::host::Host;
use crate::laws::keeping_is_sound;
use crate::observer::Observer;
use crate::of_build::{BuildBrand, JobOf};
use crate::owner::{Owner, PoolOf, never, own};
use crate::pace::Pace;
use crate::pool::Pool;
use redo_build::laws::counts_tell;
use redo_core::board::{Board, Stop};
use redo_core::laws::what_was_taken;
use redo_crew::{Crew, Lead};
use redo_past::{Past, RunReport};
use redo_path::Path;
use redo_report::Report;
use redo_step::Limits;
use redo_sync::{JobTaker, Ledger, gather, relay};
use redo_tree::Tree;
use std::alloc::{AllocError, Global};
use std::sync::Wait;
use std::thread;
use std::thread::{Scope, Threads};

/// Whether no job is left.
fn is_all_taken<B: BuildBrand>(ledger: &Ledger<JobOf<B>>) -> bool
    ensures { IsTrue result → (ledger.now.left ≡ []) × SharesOut ledger.now.given ledger.now.taken [] }
{
    ledger.left().is_empty()
}

/// What a run came to, once all workers have ended. At most `threads` threads make the digests that the new book tells of.
fn answer_of<B: BuildBrand, R: Threads + Wait + Sync>(
    rt: &R,
    alloc: Global,
    ended: EndedBuild<B>,
    threads: usize,
) -> Result<(RunReport, Ledger<JobOf<B>>), Stop>
    ensures { IsAnswerTo B.tree B.request B.limits result }
{
    what_was_taken();
    counts_tell();
    let EndedBuild {
        board,
        source,
        takers,
    } = ended;
    if !board.quiet() {
        unreachable!()
    }
    let ledger = gather(source, takers)?;
    if !is_all_taken(&ledger) {
        // A quiet board has each job back that it gave, so each was taken.
        never(rt)
    }
    let report = board.finish()?.with_digests_by(rt, alloc, threads)?;
    Ok((report, ledger))
}

/// Takes turns until the build is quiet, and ends all workers. Returns their takers, for which `back` has room.
fn run_pool<'s, E, B: BuildBrand + Send + Sync + 's, R: Threads + Wait + Sync, O: Observer>(
    owner: &mut Owner<B>,
    mut pool: PoolOf<'_, 's, E, B, R, O>,
    back: Vec<JobTaker<JobOf<B>>>,
) -> Result<Vec<JobTaker<JobOf<B>>>, Stop>
    requires of_build { IsGiven B.tree B.request B.limits owner.old.board.given }
    requires running { IsNone owner.old.board.stopped }
    requires none { back.items ≡ [] }
    requires room { length pool.idle.items + length pool.handles.items ≤ vec_capacity back }
    ensures same { IsSameOwner owner.old owner.new }
    ensures kept_up { OnOk result (HasKeptUp owner.old owner.new) }
    ensures quiet { OnOk result (IsQuietBoard owner.new.board) }
    ensures too_many { result ≡ Err Stop.TooMany → NeedsMany owner.old }
    ensures back { IfOk result (λ takers. (relay : RelayId) (count : ℕ) →
        IsManned relay count pool.entry.idle.items (map (λ h. h.promise.0.value.relay) pool.entry.handles.items) →
        AreTakersOf relay count takers.items) }
{
    let ended = own(owner, &mut pool);
    let takers = pool.end(back);
    ended?;
    Ok(takers?)
}

/// What is left of a build that is quiet, where these are the takers of all workers.
fn ended_build<B: BuildBrand>(
    owner: Owner<B>,
    mut takers: Vec<JobTaker<JobOf<B>>>,
) -> Result<EndedBuild<B>, AllocError>
    requires of_build { IsGiven B.tree B.request B.limits owner.board.given }
    requires quiet { IsQuietBoard owner.board }
    requires own { owner.own ≡ owner.source.relay }
    requires complete { (count : ℕ) × (count + 1 ≡ owner.source.takers) ×
        AreTakersOf owner.source.relay count takers.items }
    requires taken { HasTaken owner.board owner.source.given }
{
    let Owner {
        board,
        source,
        taker,
        pace: _,
    } = owner;
    takers.push(taker)?;
    Ok(EndedBuild {
        board,
        source,
        takers,
    })
}

/// Runs a build to its end: by the owner, and by as many workers as it needs of those that there are takers for.
fn run_crew<'s, E, B: BuildBrand + Send + Sync + 's, R: Threads + Wait + Sync, O: Observer>(
    scope: &Scope<'s, E>,
    shared: Shared<'s, R, O>,
    lead: Lead<'s>,
    alloc: Global,
    mut owner: Owner<B>,
    takers: Vec<JobTaker<JobOf<B>>>,
) -> Result<EndedBuild<B>, Stop>
    requires of_build { IsGiven B.tree B.request B.limits owner.board.given }
    requires running { IsNone owner.board.stopped }
    requires complete { AreOtherTakers owner takers.items }
    requires taken { HasTaken owner.board owner.source.given }
    ensures too_many { result ≡ Err Stop.TooMany → NeedsMany owner }
{
    let back = Vec::with_capacity(alloc, takers.len())?;
    let pool = Pool::new(scope, shared, lead, alloc, takers)?;
    let takers = run_pool(&mut owner, pool, back)?;
    Ok(ended_build(owner, takers)?)
}

/// The same in a scope of threads: all have ended when it returns. What is left of the run comes out of the scope
/// through a channel.
fn run_in_scope<B: BuildBrand + Send + Sync, R: Threads + Wait + Sync, O: Observer>(
    shared: Shared<'_, R, O>,
    lead: Lead<'_>,
    alloc: Global,
    owner: Owner<B>,
    takers: Vec<JobTaker<JobOf<B>>>,
) -> Result<EndedBuild<B>, Stop>
    requires of_build { IsGiven B.tree B.request B.limits owner.board.given }
    requires running { IsNone owner.board.stopped }
    requires complete { AreOtherTakers owner takers.items }
    requires taken { HasTaken owner.board owner.source.given }
    ensures too_many { result ≡ Err Stop.TooMany → NeedsMany owner }
{
    let Shared { rt, observer } = shared;
    let (out, left) = crossbeam_channel::bounded(alloc, 1)?;
    thread::scope(
        thread::scope_env(),
        rt,
        move |scope| -> Result<(), Stop>
            requires { IsGiven B.tree B.request B.limits owner.board.given × IsNone owner.board.stopped ×
                AreOtherTakers owner takers.items × HasTaken owner.board owner.source.given }
            ensures { result ≡ Err Stop.TooMany → NeedsMany owner }
        {
            let shared = Shared { rt, observer };
            let ended = run_crew(scope, shared, lead, alloc, owner, takers)?;
            hand_out(rt, &out, ended);
            Ok(())
        },
    )?;
    match left.recv(rt) {
        Ok(ended) => Ok(ended),
        // The scope has sent it, or has failed and was left above.
        Err(_) => never(rt),
    }
}

/// Runs a build that was opened. The caller's thread is one of the workers, so it needs one thread fewer.
fn run_build<B: BuildBrand + Send + Sync, R: Threads + Wait + Sync, O: Observer>(
    host: &Host<'_, R, O>,
    board: Board,
    workers: usize,
) -> Result<(RunReport, Ledger<JobOf<B>>), Stop>
    requires of_build { IsGiven B.tree B.request B.limits board.given }
    requires running { IsNone board.stopped }
    requires opened { HasTaken board [] }
    requires some { 1 ≤ workers }
    requires few { workers ≤ 64 }
    ensures { IsAnswerTo B.tree B.request B.limits result }
{
    let (source, mut takers) = relay(host.alloc(), workers)?;
    let Some(taker) = takers.pop() else {
        unreachable!()
    };
    let owner = Owner::<B> {
        board,
        source,
        taker,
        pace: Pace::new(),
    };
    let (crew, first) = Crew::new(host.alloc(), (workers - 1) as u8)?;
    let lead = Lead::new(&crew, first);
    let shared = Shared {
        rt: host.rt,
        observer: host.observer,
    };
    let ended = run_in_scope(shared, lead, host.alloc(), owner, takers)?;
    answer_of(host.rt, host.alloc(), ended, workers)
}

/// What a run takes over from the last one. At most `threads` threads digest the files that the book has digests of.
pub(crate) fn past_of<R: Threads + Sync>(
    rt: &R,
    alloc: Global,
    tree: Tree,
    threads: usize,
) -> Result<Past, RunFault>
    ensures past { IfOk result (IsOfTree tree) }
    ensures book { (n : ℕ) → result ≡ Err (RunFault.Book n) → IsRefused tree n }
    ensures no_build { result ≡ Err RunFault.TooMany → ⊥ }
{
    Ok(Past::open_by(rt, alloc, threads, tree)?)
}

/// Builds the requested targets with this many workers. The caller's thread is one of them: it has the board, advances
/// short scripts itself, and offers long ones to the others, each in a thread of its own. With one worker no thread is
/// started. The report is that of the recursive build, in whatever order the workers take jobs, with the new book among
/// its files. The ledger shows that each job was taken once. A target whose recorded entries all stand is kept; if
/// keeping is safe, the report agrees with that of the sources alone. All threads have ended when it returns. `Memory`
/// also means that a thread couldn't be started.
///
/// The ledger is of jobs of this build by its type, which names the tree, the request and the limits: each job that it
/// counts held a work that a board of this build gave.
pub fn build_many<B: BuildBrand + Send + Sync, R: Threads + Wait + Sync, O: Observer>(
    host: &mut Host<'_, R, O>,
    tree: Tree,
    request: &[Path],
    limits: Limits,
    workers: usize,
) -> Result<(Report, Ledger<JobOf<B>>), RunFault>
    requires permit { IsUnused host.old.permit }
    requires of_build { (B.tree ≡ tree) × (B.request ≡ request.now) × (B.limits ≡ limits) }
    requires some { 1 ≤ workers }
    requires few { workers ≤ 64 }
    ensures report { IfOk result (λ r. IsResultOn tree request.now limits r.0) }
    ensures sound { IfOk result (λ r. IsSoundOn tree request.now limits r.0) }
    ensures none_left { IfOk result (λ r. r.1.left ≡ []) }
    ensures once { IfOk result (λ r. AreCountedOnce r.1.taken) }
    ensures begun { IfOk result (λ r. AreBegun r.1.taken r.0.begun.items) }
    ensures book { (n : ℕ) → result ≡ Err (RunFault.Book n) → IsRefused tree n }
    ensures too_many { result ≡ Err RunFault.TooMany → NeedsTooMany tree request.now limits }
    ensures only_unsafe { result ≡ Err RunFault.TooMany → IsUnsafeOn tree request.now limits }
{
    let past = past_of(host.rt, host.alloc(), tree, workers)?;
    let (report, ledger) = build_over::<B, R, O>(host, past, request, limits, workers)?;
    Ok((report.into_report(host.alloc())?, ledger))
}

/// Builds as [`build_many`] does, over what a run before has left. The new book has no text yet.
fn build_over<B: BuildBrand + Send + Sync, R: Threads + Wait + Sync, O: Observer>(
    host: &mut Host<'_, R, O>,
    past: Past,
    request: &[Path],
    limits: Limits,
    workers: usize,
) -> Result<(RunReport, Ledger<JobOf<B>>), RunFault>
    requires permit { IsUnused host.old.permit }
    requires of_build { (B.tree ≡ past.tree) × (B.request ≡ request.now) × (B.limits ≡ limits) }
    requires some { 1 ≤ workers }
    requires few { workers ≤ 64 }
    ensures built { IsBuildOf past.tree request.now limits result }
    ensures opened { host.old.permit ≤ host.new.permit + 1 }
{
    what_was_taken();
    keeping_is_sound();
    past.tree().is_tree();
    let board = Board::over(&mut host.permit, past, request, limits)?;
    Ok(run_build::<B, R, O>(host, board, workers)?)
}

/// The report of such a build, without its ledger, for a caller that names no build by a type: it passes `Brand`.
pub(crate) fn report_over<B: BuildBrand + Send + Sync, R: Threads + Wait + Sync, O: Observer>(
    host: &mut Host<'_, R, O>,
    past: Past,
    request: &[Path],
    limits: Limits,
    workers: usize,
) -> Result<RunReport, RunFault>
    requires permit { IsUnused host.old.permit }
    requires of_build { (B.tree ≡ past.tree) × (B.request ≡ request.now) × (B.limits ≡ limits) }
    requires some { 1 ≤ workers }
    requires few { workers ≤ 64 }
    ensures opened { host.old.permit ≤ host.new.permit + 1 }
    ensures report { IfOk result (IsResultOn past.tree request.now limits) }
    ensures sound { IfOk result (IsSoundOn past.tree request.now limits) }
    ensures book { (n : ℕ) → result ≡ Err (RunFault.Book n) → ⊥ }
    ensures too_many { result ≡ Err RunFault.TooMany → NeedsTooMany past.tree request.now limits }
    ensures only_unsafe { result ≡ Err RunFault.TooMany → IsUnsafeOn past.tree request.now limits }
{
    match build_over::<B, R, O>(host, past, request, limits, workers) {
        Ok((report, _ledger)) => Ok(report),
        Err(fault) => Err(fault),
    }
}
