//! The board: which targets are ready, out, waiting or decided, and what each event makes of them.
//!
//! A caller opens a board, takes works and hands their pieces in, in whatever order, until the board is quiet or has
//! stopped. Nothing here runs a script or waits: that is left to the caller, on one thread or on many.
ghost use Rattle.std.specs.Prelude.{◌≡◌, ◌↔◌, ◌<◌, ◌≤◌, ◌+◌, ◌*◌, IsTrue, IsNone, IfOk, IfErr, OnOk, OnErr, length};
ghost use Rattle.std.specs.Prelude.{slice_get, Err, Some, None, ℕ};
ghost use Rattle.std.specs.Arc.{arc_value};
ghost use Rattle.redo_rules.specs.Results.{IsGiven, IsRefused, IsResult, NeedsTooMany};
ghost use Rattle.redo_core.specs.Views.{ready_count, jobs_out, seen_count, decided_count, after, rules_on, request_on, limit_on, IsQuietBoard};
ghost use Rattle.redo_core.specs.Views.{Belongs, IsHandedIn, IsOpened, IsWorkTaken};
ghost use Rattle.redo_build.specs.Outcomes.{IsTooMany};
ghost use Rattle.redo_build.specs.Schedule.{Event, IsOutAt, IsOpen};
ghost use Rattle.redo_build.specs.Schedule.Event.{Take, Hand_in};
ghost use Rattle.redo_core.specs.Faults.{Refused};
ghost use Rattle.redo_core.specs.Permits.{IsUnused, Uses};
ghost use Rattle.redo_build.specs.TakesLeft.{takes_left};
ghost use Rattle.redo_build.specs.Theorems.{IsPartOfBuild, ShowsBuild};

use crate::build::Build;
use crate::finish::report_of;
use crate::given::Given;
use crate::opening::OpenFault;
use crate::permit::Permit;
use crate::table::{Stage, Table};
use crate::work::{Piece, Work};
use redo_past::{Past, RunReport};
use redo_path::Path;
use redo_step::Limits;
use redo_tree::Tree;
use std::alloc::{AllocError, AllocFailed, Global};
use std::marker::Model;
use std::mem;
use std::sync::Arc;

/// Why a board has stopped.
#[derive(Clone, Copy, Debug, PartialEq, Eq)]
pub enum Stop {
    /// More targets are needed than the limit allows.
    TooMany,
    /// Memory ran out.
    Memory,
}

impl From<AllocError> for Stop {
    ghost use Rattle.redo_core.specs.declared.board.Stop.TheVariants.{Memory};

    ghost from_gives = { λ _ stop. stop ≡ Memory };

    fn from(_error: AllocError) -> Stop {
        Stop::Memory
    }
}

impl<T: Drop> From<AllocFailed<T>> for Stop {
    ghost use Rattle.redo_core.specs.declared.board.Stop.TheVariants.{Memory};

    ghost from_gives = { λ _ stop. stop ≡ Memory };

    fn from(_error: AllocFailed<T>) -> Stop {
        Stop::Memory
    }
}

/// The entries of a build, and what may happen to them next. In a contract it is what the build is given, the state of
/// the entries, and why the board has stopped. The state of a board that hasn't stopped is one that some run of takes,
/// hand-ins and looks led to. So what is proved of runs holds for every such value, wherever it comes from. Of a board
/// that has stopped at the limit, it is known that the build needs too many targets.
#[derive(Drop)]
pub struct Board {
    alloc: Global,
    build: Build,
    table: Table,
    stopped: Option<Stop>,
}

impl Model for Board {
    ghost use Rattle.redo_core.specs.Views.{BoardView};

    ghost Value = { BoardView };

    ghost use Rattle.redo_core.specs.inside.Slots.{state_of, IsBoard};

    ghost view = { λ b. record {
      given = b.build;
      state = state_of b;
      stopped = b.stopped;
    } };

    ghost invariant = { IsBoard };
}

/// Why a piece was not taken in.
#[derive(Drop)]
pub enum HandFault {
    /// The piece's target isn't out at its turn. The piece comes back, and the board is as it was.
    Stranger(Piece),
    /// More targets are needed than the limit allows. The board has stopped.
    TooMany,
    /// Memory ran out. The board has stopped.
    Memory,
}

impl From<Stop> for HandFault {
    ghost use Rattle.redo_core.specs.Faults.{fault_of};

    ghost from_gives = { λ stop fault. fault ≡ fault_of stop };

    fn from(stop: Stop) -> HandFault {
        match stop {
            Stop::TooMany => HandFault::TooMany,
            Stop::Memory => HandFault::Memory,
        }
    }
}

impl Board {
    /// Opens a board over a tree as it was read, whose contents it shares, and enters the requested targets. If the
    /// tree has a book of the last run, the book and the generated files are set aside: the build is that of the
    /// sources. A book with a fault is reported before too many targets.
    pub fn open(
        permit: &mut Permit,
        tree: Arc<Tree>,
        request: &[Path],
        limits: Limits,
    ) -> Result<Board, OpenFault>
        requires permit { IsUnused permit.old }
        ensures used { OnOk result (Uses permit.old permit.new) }
        ensures ok { IfOk result (IsOpened (arc_value tree) request.now limits) }
        ensures within { IfOk result (λ b. length b.state.entries ≤ limits.targets) }
        ensures part { IfOk result (λ b. IsPartOfBuild (rules_on b) (request_on b) (limit_on b) b.state) }
        ensures none_out { IfOk result (λ b. jobs_out b ≡ 0) }
        ensures left { IfOk result (λ b. takes_left (limit_on b) b.state ≤ limit_on b * limit_on b) }
        ensures book { (n : ℕ) → result ≡ Err (OpenFault.Book n) → IsRefused (arc_value tree) n }
        ensures too_many { result ≡ Err OpenFault.TooMany → NeedsTooMany (arc_value tree) request.now limits }
    {
        let past = Past::open(permit.alloc(), Tree::clone(&tree)?)?;
        Ok(Board::over(permit, past, request, limits)?)
    }

    /// The same as [`Board::open`], over a past, whose book has been read.
    pub fn over(
        permit: &mut Permit,
        past: Past,
        request: &[Path],
        limits: Limits,
    ) -> Result<Board, Stop>
        requires permit { IsUnused permit.old }
        ensures used { Uses permit.old permit.new }
        ensures ok { IfOk result (IsOpened past.tree request.now limits) }
        ensures within { IfOk result (λ b. length b.state.entries ≤ limits.targets) }
        ensures part { IfOk result (λ b. IsPartOfBuild (rules_on b) (request_on b) (limit_on b) b.state) }
        ensures none_out { IfOk result (λ b. jobs_out b ≡ 0) }
        ensures left { IfOk result (λ b. takes_left (limit_on b) b.state ≤ limit_on b * limit_on b) }
        ensures too_many { result ≡ Err Stop.TooMany → NeedsTooMany past.tree request.now limits }
    {
        permit.use_once();
        let alloc = permit.alloc();
        past.is_past();
        let given = Given::new(alloc, past, request, limits)?;
        let build = Build::new(alloc, given)?;
        let mut table = Table::open(alloc, &build)?;
        table.look_ahead(&build)?;
        Ok(Board {
            alloc,
            build,
            table,
            stopped: None,
        })
    }

    /// How many targets may be taken; 0 once the board has stopped.
    pub fn ready(&self) -> usize
        ensures { result ≡ ready_count self.now }
    {
        if self.stopped.is_some() {
            0
        } else {
            self.table.schedule.ready()
        }
    }

    /// Why the board has stopped, if it has. A board that has stopped has no report.
    pub fn stopped(&self) -> Option<Stop>
        ensures value { result ≡ self.now.stopped }
        ensures too_many { result ≡ Some Stop.TooMany →
            IsTooMany (rules_on self.now) (request_on self.now) (limit_on self.now) }
    {
        self.stopped
    }

    /// The ready target at this index of the queue, counted from 0.
    pub fn ready_at(&self, which: usize) -> &Path
        requires { which < ready_count self.now }
        ensures { slice_get self.now.state.ready which ≡ Some result.now }
    {
        let at = self.table.schedule.ready_at(which);
        self.table.targets.at(at as usize)
    }

    /// Takes the ready target at this index of the queue. The others close up.
    pub fn take(&mut self, which: usize) -> Result<Work, AllocError>
        requires { which < ready_count self.old }
        ensures ok { OnOk result (self.new ≡ after self.old (Take which)) }
        ensures work { IfOk result (IsWorkTaken self.old which) }
        ensures turn { IfOk result (λ w. w.turn < limit_on self.old) }
        ensures is_out { IfOk result (λ w. IsOutAt self.new.state w.target w.turn) }
        ensures one_more { OnOk result (jobs_out self.new ≡ jobs_out self.old + 1) }
        ensures left { OnOk result (
            takes_left (limit_on self.new) self.new.state < takes_left (limit_on self.old) self.old.state) }
        ensures part { OnOk result (IsPartOfBuild (rules_on self.new) (request_on self.new) (limit_on self.new)
            self.new.state) }
        ensures err { OnErr result (self.new ≡ self.old) }
    {
        let at = self.table.schedule.take(which);
        self.table.schedule.is_queue();
        let slot = &mut self.table.slots[at as usize];
        match mem::replace(&mut slot.stage, Stage::Out) {
            Stage::Ready(work) => Ok(work.numbered(at)),
            _ => unreachable!(),
        }
    }

    /// Hands in what a job came to. A piece whose target isn't out at its turn comes back, and nothing changes.
    pub fn hand_in(&mut self, piece: Piece) -> Result<(), HandFault>
        requires { Belongs self.old piece }
        ensures open { OnOk result (IsOpen (rules_on self.old) self.old.state (Hand_in piece.target piece.turn)) }
        ensures ok { OnOk result (IsHandedIn self.old piece.target piece.turn self.new) }
        ensures within { OnOk result (length self.new.state.entries ≤ (limit_on self.new)) }
        ensures one_fewer { OnOk result (jobs_out self.new + 1 ≡ jobs_out self.old) }
        ensures left { OnOk result (
            takes_left (limit_on self.new) self.new.state ≤ takes_left (limit_on self.old) self.old.state) }
        ensures part { OnOk result (IsPartOfBuild (rules_on self.new) (request_on self.new) (limit_on self.new)
            self.new.state) }
        ensures err { IfErr result (Refused self.old self.new piece) }
    {
        if let Some(stop) = self.stopped {
            return Err(HandFault::from(stop));
        }
        let turn = piece.turn();
        let Some(at) = self.table.out_at(piece.number(), piece.target(), turn) else {
            return Err(HandFault::Stranger(piece));
        };
        match self.table.move_on(at, piece.into_end(), &self.build) {
            Ok(()) => Ok(()),
            Err(stop) => {
                self.stopped = Some(stop);
                Err(HandFault::from(stop))
            }
        }
    }

    /// How many jobs are out: taken, and not handed in yet; 0 once the board has stopped.
    pub fn out(&self) -> usize
        ensures { result ≡ jobs_out self.now }
    {
        if self.stopped.is_some() {
            0
        } else {
            self.table.schedule.out()
        }
    }

    /// How many targets have been seen so far, and may still become more; 0 once the board has stopped.
    pub fn seen(&self) -> usize
        ensures { result ≡ seen_count self.now }
    {
        if self.stopped.is_some() {
            0
        } else {
            self.table.slots.len()
        }
    }

    /// How many of them are decided: built, kept or failed; 0 once the board has stopped. Each call counts them, in time
    /// linear in the targets that have been seen.
    pub fn decided(&self) -> usize
        ensures { result ≡ decided_count self.now }
    {
        if self.stopped.is_some() {
            0
        } else {
            self.table.decided()
        }
    }

    /// Whether nothing more can happen: nothing is ready, nothing is out, and the board hasn't stopped.
    /// [`Board::finish`] requires it.
    pub fn quiet(&self) -> bool
        ensures quiet { IsTrue result ↔ IsQuietBoard self.now }
        ensures shows { IsTrue result →
            ShowsBuild (rules_on self.now) (request_on self.now) (limit_on self.now) self.now.state }
    {
        self.stopped.is_none() && self.ready() == 0 && self.out() == 0
    }

    /// What the build came to. Only once the board is quiet is it certain that a target that still waits never ends,
    /// and so is cyclic. As with redo -k, a target that failed doesn't keep others from being built. The new book is
    /// among the files of the report; its text isn't made yet. Without memory the board is lost.
    pub fn finish(self) -> Result<RunReport, AllocError>
        requires { IsQuietBoard self }
        ensures { IfOk result (IsResult self.given) }
    {
        let alloc = self.alloc;
        let given = self.build.share()?;
        let report = report_of(alloc, &given, &self.table)?;
        // Frees the table before more is made.
        drop(self);
        given.past().with_book(alloc, report)
    }

    /// Whether a piece is of this board's tree, request and limits, as [`Board::hand_in`] requires. It compares by
    /// value, in time linear in the tree's bytes. It is for a piece of which only the type is known: a runner that
    /// knows which work its piece came from needs no test, nor does one whose messages say so by their type.
    pub fn belongs(&self, piece: &Piece) -> bool
        ensures { IsTrue result ↔ Belongs self.now piece.now }
    {
        piece.is_of(self.build.given())
    }

    /// Whether the board is that of this tree as it was read, this request and these limits, so that its report is
    /// theirs. It compares by value, in time linear in the tree's bytes. It is for a board of which only the type is
    /// known, such as one from a lock: whoever opened the board, or keeps it under an invariant that says so, needs no
    /// test.
    pub fn is_for(&self, tree: &Tree, request: &[Path], limits: Limits) -> bool
        ensures { IsTrue result ↔ IsGiven tree.now request.now limits self.now.given }
    {
        self.build.given().is(tree, request, limits)
    }
}
