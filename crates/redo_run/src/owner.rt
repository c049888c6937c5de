//! The owner of the board: it advances short scripts itself, offers long ones to workers, and hands in what comes back.

ghost use Rattle.std.specs.Prelude.{◌≡◌, ◌<◌, ◌≤◌, ◌+◌, Err, IfOk, IsNone, OnOk, false, length, map, ℕ};
ghost use Rattle.redo_core.specs.Views.{IsQuietBoard, ready_count};
ghost use Rattle.redo_rules.specs.Results.{IsGiven};
ghost use Rattle.redo_sync.specs.Relay.{RelayId};
ghost use Rattle.redo_run.specs.inside.Workers.{HasKeptUp, IsManned, IsSameOwner, NeedsMany};

use crate::crew::{Advance, claimed};
use crate::observer::Observer;
use crate::of_build::{BuildBrand, JobOf, Message, PieceOf};
use crate::pace::Pace;
use crate::pool::Pool;
use crate::right::Right;
use redo_core::board::{Board, HandFault, Stop};
use redo_core::laws::what_was_taken;
use redo_crew::Offer;
use redo_past::laws::a_tree_has_one_past;
use redo_sync::{JobSource, JobTaker};
use std::alloc::AllocError;
use std::marker::Model;
use std::sync::Wait;
use std::thread::Threads;

/// What the owner has: the board of a build, the end of its relay that gives jobs, and a taker of its own.
#[derive(Drop)]
pub(crate) struct Owner<B: BuildBrand> {
    pub board: Board,
    pub source: JobSource<JobOf<B>>,
    pub taker: JobTaker<JobOf<B>>,
    pub pace: Pace,
}

impl<B: BuildBrand> Model for Owner<B> {
    ghost use Rattle.redo_run.specs.inside.Workers.{OwnerView};

    ghost Value = { OwnerView };

    ghost view = { λ o. record { board = o.board; source = o.source; own = o.taker.relay } };
}

/// The workers of a build.
pub(crate) type PoolOf<'r, 's, E, B, R, O> = Pool<'r, 's, E, JobOf<B>, Message<B>, R, O>;

/// Doesn't return. No run comes here, though the types of what comes out of a queue don't say so.
pub(crate) fn never<R: Wait>(rt: &R) -> ! {
    for _ in rt.forever() {}
    unreachable!()
}

/// Whether a worker may have a job, while so many others are ready and out: there is room for one more, and the owner is
/// left with another one to do or to wait for. So a chain of targets needs no hand-over.
fn may_offer(ready: usize, out: usize, most_out: usize) -> bool {
    out < most_out && (ready > 0 || out > 0)
}

impl<B: BuildBrand> Owner<B> {
    /// Takes the target that became ready last, tells the observer, and gives its job to the relay. So what was just asked
    /// for is built before more is asked for, and few scripts are under way at a time. Returns the right to the job,
    /// and whether it is to be offered to a worker.
    fn give_newest<O: Observer>(
        &mut self,
        observer: &O,
        most_out: usize,
    ) -> Result<(Right, bool), AllocError>
        requires ready { 0 < ready_count self.old.board }
        requires of_build { IsGiven B.tree B.request B.limits self.old.board.given }
        requires running { IsNone self.old.board.stopped }
        ensures same { IsSameOwner self.old self.new }
        ensures kept_up { OnOk result (HasKeptUp self.old self.new) }
    {
        what_was_taken();
        // The work is of the build that the type names.
        a_tree_has_one_past();
        let (ready, out) = (self.board.ready() - 1, self.board.out());
        let work = self.board.take(ready)?;
        observer.given_out(&self.board, work.target(), work.turn());
        let is_for_worker = may_offer(ready, out, most_out)
            && self.pace.is_for_worker(&work, ready, out);
        let right = Right::by_giving(&mut self.source, JobOf::new(work))?;
        Ok((right, is_for_worker))
    }

    /// Hands a piece in.
    fn hand_in<R: Wait>(&mut self, rt: &R, piece: PieceOf<B>) -> Result<(), Stop>
        requires of_build { IsGiven B.tree B.request B.limits self.old.board.given }
        requires running { IsNone self.old.board.stopped }
        ensures same { IsSameOwner self.old self.new }
        ensures kept_up { OnOk result (HasKeptUp self.old self.new) }
        ensures too_many { result ≡ Err Stop.TooMany → NeedsMany self.old }
    {
        what_was_taken();
        let piece = piece.into_piece();
        self.pace.handed_in(&piece);
        match self.board.hand_in(piece) {
            Ok(()) => Ok(()),
            Err(HandFault::TooMany) => Err(Stop::TooMany),
            Err(HandFault::Memory) => Err(Stop::Memory),
            // Each piece is of a work that this board gave, and is handed in once.
            Err(HandFault::Stranger(_piece)) => never(rt),
        }
    }

    /// Advances a job to which the owner has a right, and hands its piece in.
    fn advance_claimed<R: Wait, O: Observer>(
        &mut self,
        rt: &R,
        observer: &O,
        right: Right,
    ) -> Result<(), Stop>
        requires of_build { IsGiven B.tree B.request B.limits self.old.board.given }
        requires running { IsNone self.old.board.stopped }
        ensures same { IsSameOwner self.old self.new }
        ensures kept_up { OnOk result (HasKeptUp self.old self.new) }
        ensures too_many { result ≡ Err Stop.TooMany → NeedsMany self.old }
    {
        let piece = claimed(rt, &mut self.taker, right).advance(observer)?;
        self.pace.advanced();
        self.hand_in(rt, piece)
    }

    /// Hands in what a worker has sent.
    fn take_in<R: Wait>(&mut self, rt: &R, message: Message<B>) -> Result<(), Stop>
        requires of_build { IsGiven B.tree B.request B.limits self.old.board.given }
        requires running { IsNone self.old.board.stopped }
        ensures same { IsSameOwner self.old self.new }
        ensures kept_up { OnOk result (HasKeptUp self.old self.new) }
        ensures too_many { result ≡ Err Stop.TooMany → NeedsMany self.old }
    {
        self.pace.came_back();
        self.hand_in(rt, message?)
    }
}

/// Builds the newest target a part further: gives its job, and offers it to workers or advances it.
fn build_newest<'s, E, B: BuildBrand + Send + Sync + 's, R: Threads + Wait + Sync, O: Observer>(
    owner: &mut Owner<B>,
    pool: &mut PoolOf<'_, 's, E, B, R, O>,
) -> Result<(), Stop>
    requires ready { 0 < ready_count owner.old.board }
    requires of_build { IsGiven B.tree B.request B.limits owner.old.board.given }
    requires running { IsNone owner.old.board.stopped }
    ensures same { IsSameOwner owner.old owner.new }
    ensures kept_up { OnOk result (HasKeptUp owner.old owner.new) }
    ensures too_many { result ≡ Err Stop.TooMany → NeedsMany owner.old }
    ensures manned { OnOk result ((relay : RelayId) (count : ℕ) →
        IsManned relay count pool.old.idle.items (map (λ h. h.promise.0.value.relay) pool.old.handles.items) →
        IsManned relay count pool.new.idle.items (map (λ h. h.promise.0.value.relay) pool.new.handles.items)) }
    ensures few { length pool.new.idle.items + length pool.new.handles.items ≤
        length pool.old.idle.items + length pool.old.handles.items }
{
    let (right, is_for_worker) = owner.give_newest(pool.observer, pool.most_out)?;
    if is_for_worker {
        match pool.lead.offer(pool.rt) {
            Offer::Called => return Ok(()),
            Offer::Hire(looking) => return Ok(pool.start(looking)?),
            Offer::Spared => {
                owner.pace.forget_trial();
                return Ok(());
            }
            Offer::Full => owner.pace.forget_trial(),
        }
    }
    owner.advance_claimed(pool.rt, pool.observer, right)
}

/// Takes one turn: hands in a piece that has come, builds a ready target further, advances a job that no worker has come
/// to yet, or waits for a piece. Returns false where nothing is ready or out.
fn turn<'s, E, B: BuildBrand + Send + Sync + 's, R: Threads + Wait + Sync, O: Observer>(
    owner: &mut Owner<B>,
    pool: &mut PoolOf<'_, 's, E, B, R, O>,
) -> Result<bool, Stop>
    requires of_build { IsGiven B.tree B.request B.limits owner.old.board.given }
    requires running { IsNone owner.old.board.stopped }
    ensures same { IsSameOwner owner.old owner.new }
    ensures kept_up { OnOk result (HasKeptUp owner.old owner.new) }
    ensures ended { IfOk result (λ more. more ≡ false → IsQuietBoard owner.new.board) }
    ensures too_many { result ≡ Err Stop.TooMany → NeedsMany owner.old }
    ensures manned { OnOk result ((relay : RelayId) (count : ℕ) →
        IsManned relay count pool.old.idle.items (map (λ h. h.promise.0.value.relay) pool.old.handles.items) →
        IsManned relay count pool.new.idle.items (map (λ h. h.promise.0.value.relay) pool.new.handles.items)) }
    ensures few { length pool.new.idle.items + length pool.new.handles.items ≤
        length pool.old.idle.items + length pool.old.handles.items }
{
    if owner.board.out() > 0
        && let Ok(message) = pool.pieces.try_recv(pool.rt)
    {
        owner.take_in(pool.rt, message)?;
        return Ok(true);
    }
    if owner.board.ready() > 0 {
        build_newest(owner, pool)?;
        return Ok(true);
    }
    if let Some(claim) = pool.lead.claim(pool.rt) {
        owner.pace.forget_trial();
        owner.advance_claimed(pool.rt, pool.observer, Right::by_claim(claim))?;
        return Ok(true);
    }
    if owner.board.out() == 0 {
        return Ok(false);
    }
    match pool.pieces.recv(pool.rt) {
        Ok(message) => owner.take_in(pool.rt, message)?,
        // The pool has a sender of its own, so the channel isn't closed.
        Err(_) => never(pool.rt),
    }
    Ok(true)
}

/// Takes turns until nothing is ready or out.
pub(crate) fn own<'s, E, B: BuildBrand + Send + Sync + 's, R: Threads + Wait + Sync, O: Observer>(
    owner: &mut Owner<B>,
    pool: &mut PoolOf<'_, 's, E, B, R, O>,
) -> Result<(), Stop>
    requires of_build { IsGiven B.tree B.request B.limits owner.old.board.given }
    requires running { IsNone owner.old.board.stopped }
    ensures same { IsSameOwner owner.old owner.new }
    ensures kept_up { OnOk result (HasKeptUp owner.old owner.new) }
    ensures quiet { OnOk result (IsQuietBoard owner.new.board) }
    ensures too_many { result ≡ Err Stop.TooMany → NeedsMany owner.old }
    ensures manned { OnOk result ((relay : RelayId) (count : ℕ) →
        IsManned relay count pool.old.idle.items (map (λ h. h.promise.0.value.relay) pool.old.handles.items) →
        IsManned relay count pool.new.idle.items (map (λ h. h.promise.0.value.relay) pool.new.handles.items)) }
    ensures few { length pool.new.idle.items + length pool.new.handles.items ≤
        length pool.old.idle.items + length pool.old.handles.items }
{
    'turns: for _ in pool.rt.forever() {
        if !turn(owner, pool)? {
            return Ok(());
        }
    }
    unreachable!()
}
