//! The table of the targets that have been seen, by their numbers.
ghost use Rattle.std.specs.Prelude.{◌≡◌, ℕ, List, ◌↔◌, ◌<◌, ◌≤◌, ◌+◌, ◌++◌, ◌∷◌, [], OnOk, IfOk, IfSome};
ghost use Rattle.std.specs.Prelude.{IfNone, MatchOption, length, slice_get, Some, None};
ghost use Rattle.redo_record.specs.Paths.{IsAmong, AreDistinct};
ghost use Rattle.redo_table.specs.Schedule.{stage_at};
ghost use Rattle.redo_table.specs.Schedule.StageView.{InHand};
ghost use Rattle.redo_core.specs.inside.Slots.{IsDecidedNumber, GainsOne, is_stage_decided, is_stage_out};
ghost use Rattle.redo_core.specs.inside.Slots.{IsOutSlotAt, IsTableOf, IsStandingTable};
ghost use Rattle.redo_core.specs.inside.Slots.{IsMadeReadyAt, IsFed, IsFirstStage, IsPushed, AreEnqueued};
ghost use Rattle.redo_core.specs.inside.Slots.{IsEnteredInto, IsFull, IsDecidedAt, IsParkedAt};
ghost use Rattle.redo_core.specs.inside.Slots.{IsOutThere, Gains, IsAnsweredCheck, IsAnsweredAt, IsGoneOnAt, IsSettled};
ghost use Rattle.redo_core.specs.inside.Slots.{IsResumedAt, GoesOnWith, IsFallen, AreSeen};
ghost use Rattle.redo_core.specs.inside.Slots.{decided_slots, IsAskedAt, IsTakenOut, IsDueThere};
ghost use Rattle.redo_core.specs.inside.Works.{known_in};

use crate::board::Stop;
use crate::build::Build;
use crate::check::Check;
use crate::fact::Fact;
use crate::facts::Facts;
use crate::first::first_stage;
use crate::work::{Begun, Work};
use redo_names::PathSet;
use redo_path::Path;
use redo_sync::Known;
use redo_table::{Answered, Schedule};
use redo_which::Rule;
use std::alloc::{AllocError, Global};
use std::mem;

/// How far a target has come.
#[derive(Drop)]
pub enum Stage {
    /// Its check can go on.
    Due(Box<InCheck>),
    /// Its check waits.
    Checking(Awaiting),
    /// Its script waits.
    Waiting(Box<Begun>),
    Ready(Work),
    Out,
    Decided(Known<Fact>),
}

/// A target in check, with the rule of its script, which is begun if an entry falls, and the facts of what its check
/// asked for.
#[derive(Drop)]
pub struct InCheck {
    pub rule: Rule,
    pub check: Check,
    pub facts: Facts,
}

/// A check that waits for a path.
#[derive(Drop)]
pub struct Awaiting {
    pub held: Box<InCheck>,
    pub path: Path,
}

/// A target that has been seen, with how often its check and its script have stopped.
#[derive(Drop)]
pub struct Slot {
    pub looks: u64,
    pub turn: u64,
    pub stage: Stage,
}

/// The targets that have been seen, in order of first sight. What a target holds is in its slot; which may be taken or
/// looked at, and who waits for whom, is in the schedule, by the same numbers.
#[derive(Drop)]
pub struct Table {
    pub targets: PathSet,
    pub slots: Vec<Slot>,
    pub schedule: Schedule,
}

impl Slot {
    /// Whether the target is decided.
    pub(crate) fn is_decided(&self) -> bool
        ensures { result ≡ is_stage_decided self.now.stage }
    {
        matches!(self.stage, Stage::Decided(_))
    }
}

impl Stage {
    /// Whether the job of a target is out.
    fn is_out(&self) -> bool
        ensures { result ≡ is_stage_out self.now }
    {
        matches!(self, Stage::Out)
    }
}

/// The number of a path.
pub(crate) fn find(targets: &PathSet, path: &Path) -> Option<usize>
    ensures { MatchOption result (IsAmong targets.now path.now →
        ⊥) (λ at. slice_get targets.now at ≡ Some path.now) }
{
    targets.number_of(path)
}

/// The number of a path. A right guess spares the search.
fn find_near(targets: &PathSet, guess: usize, path: &Path) -> Option<usize>
    ensures { MatchOption result (IsAmong targets.now path.now →
        ⊥) (λ at. slice_get targets.now at ≡ Some path.now) }
{
    if guess < targets.len() && targets.at(guess) == path {
        return Some(guess);
    }
    find(targets, path)
}

impl Table {
    /// The allocator of the table.
    pub(crate) fn allocator(&self) -> Global {
        *self.slots.allocator()
    }

    /// The number of a target, if its job is out at this turn. A right guess spares the search.
    pub(crate) fn out_at(&self, guess: usize, target: &Path, turn: u64) -> Option<usize>
        requires one_each { length self.now.slots.items ≡ length self.now.targets }
        requires distinct { AreDistinct self.now.targets }
        ensures { MatchOption result ((at : ℕ) → IsOutSlotAt self.now target.now turn at →
            ⊥) (λ at. IsOutSlotAt self.now target.now turn at) }
    {
        let Some(at) = find_near(&self.targets, guess, target) else {
            return None;
        };
        let slot = &self.slots[at];
        if slot.stage.is_out() && slot.turn == turn {
            return Some(at);
        }
        None
    }

    /// Takes over the fact of a decided target.
    fn gain_one(&self, at: u32, facts: &mut Facts) -> Result<(), AllocError>
        requires { IsDecidedNumber self.now at }
        ensures { OnOk result (GainsOne self.now at facts.old facts.new) }
    {
        let slot = &self.slots[at as usize];
        let Stage::Decided(fact) = &slot.stage else {
            unreachable!()
        };
        facts.add(fact.again()?)
    }

    /// Takes over the facts of the decided targets that a job waited for, which are all that it lacked.
    fn gain(&self, operands: &[u32], facts: &mut Facts) -> Result<(), AllocError>
        requires { (k n : ℕ) → slice_get operands.now k ≡ Some n → IsDecidedNumber self.now n }
        ensures { OnOk result (Gains self.now operands.now facts.old facts.new) }
    {
        facts.reserve(operands.len())?;
        for at in operands {
            self.gain_one(*at, facts)?;
        }
        Ok(())
    }

    /// Turns a job that waited for these numbers, and has its answers now, into a work.
    fn make_ready(&mut self, at: u32, on: &[u32], build: &Build) -> Result<(), AllocError>
        requires one_each { length self.old.slots.items ≡ length self.old.targets }
        requires in_hand { stage_at self.old.schedule at ≡ Some InHand }
        requires fed { IsFed build.now self.old at on.now }
        ensures { OnOk result (IsMadeReadyAt build.now self.old self.new at) }
    {
        let own = build.share()?;
        let slot = &mut self.slots[at as usize];
        let stage = mem::replace(&mut slot.stage, Stage::Out);
        let Stage::Waiting(mut begun) = stage else {
            unreachable!()
        };
        self.gain(on, &mut begun.facts)?;
        let slot = &mut self.slots[at as usize];
        slot.stage = Stage::Ready(Work::of(own, begun));
        self.schedule.make_ready(at)
    }

    /// Gives a check the answer that it waited for, which is that of the target `place`: the check can go on, or an
    /// entry falls and its target is ready.
    fn resume(&mut self, at: u32, place: u32, build: &Build) -> Result<(), AllocError>
        requires one_each { length self.old.slots.items ≡ length self.old.targets }
        requires in_hand { stage_at self.old.schedule at ≡ Some InHand }
        requires answered { IsAnsweredCheck build.now self.old at place }
        ensures { OnOk result (IsResumedAt build.now self.old self.new at) }
    {
        let stage = mem::replace(&mut self.slots[at as usize].stage, Stage::Out);
        let Stage::Checking(awaiting) = stage else {
            unreachable!()
        };
        let Awaiting { mut held, path: _ } = awaiting;
        let InCheck {
            rule: _,
            check,
            facts,
        } = &mut *held;
        self.gain_one(place, facts)?;
        let stands = self.goes_on(place, check, build)?;
        if stands {
            self.slots[at as usize].stage = Stage::Due(held);
            return self.schedule.make_due(at);
        }
        let target = self.targets.at(at as usize).clone()?;
        let work = fallen(self.allocator(), target, held, build)?;
        self.slots[at as usize].stage = Stage::Ready(work);
        self.schedule.make_ready(at)
    }

    /// Whether a check can go on with the answer of a decided target.
    fn goes_on(&self, place: u32, check: &mut Check, build: &Build) -> Result<bool, AllocError>
        requires decided { IsDecidedNumber self.now place }
        requires within { check.old.number < length build.now.past.book }
        ensures { IfOk result (λ stands. GoesOnWith build.now self.now place check.old check.new stands) }
    {
        let slot = &self.slots[place as usize];
        let Stage::Decided(fact) = &slot.stage else {
            unreachable!()
        };
        check.go_on(self.allocator(), build.given(), fact.read().outcome())
    }

    /// Lets a target go on that has all the answers that it waited for.
    fn go_on(&mut self, at: u32, on: &[u32], build: &Build) -> Result<(), AllocError>
        requires { IsAnsweredAt build.now self.old at on.now }
        ensures { OnOk result (IsGoneOnAt build.now self.old self.new at) }
    {
        match &self.slots[at as usize].stage {
            Stage::Waiting(_) => self.make_ready(at, on, build),
            Stage::Checking(_) => self.resume(at, on[0], build),
            _ => unreachable!(),
        }
    }

    /// Lets all targets go on that have the answers that they waited for.
    pub(crate) fn settle(&mut self, build: &Build) -> Result<(), AllocError>
        requires table { IsTableOf build.now self.old }
        requires standing { IsStandingTable build.now self.old }
        ensures { OnOk result (IsSettled build.now self.old self.new) }
    {
        while let Some(answered) = self.schedule.next_answered()? {
            let Answered { at, on } = answered;
            self.go_on(at, &on, build)?;
        }
        Ok(())
    }

    /// Enters a path if it is new, and returns its number.
    pub(crate) fn enter(&mut self, path: &Path, build: &Build) -> Result<u32, Stop>
        requires table { IsTableOf build.now self.old }
        ensures ok { OnOk result (IsEnteredInto build.now self.old self.new path.now) }
        ensures number { IfOk result (λ at. slice_get self.new.targets at ≡ Some path.now) }
        ensures too_many { result ≡ Err Stop.TooMany ↔ IsFull build.now self.old path.now }
    {
        if let Some(at) = find(&self.targets, path) {
            return Ok(at as u32);
        }
        if self.slots.len() >= build.given().limits().targets() as usize {
            return Err(Stop::TooMany);
        }
        let at = self.slots.len() as u32;
        match self.enter_new(path, build) {
            Ok(()) => Ok(at),
            Err(_) => Err(Stop::Memory),
        }
    }

    /// Enters a path that is new.
    fn enter_new(&mut self, path: &Path, build: &Build) -> Result<(), AllocError>
        requires new { IsAmong self.old.targets path.now → ⊥ }
        requires room { length self.old.slots.items < build.now.limits.targets }
        requires table { IsTableOf build.now self.old }
        ensures { OnOk result (IsPushed build.now self.old self.new path.now) }
    {
        let stage = first_stage(self.allocator(), path, build, self.slots.len())?;
        let at = self.schedule.add()?;
        match &stage {
            Stage::Due(_) => self.schedule.make_due(at)?,
            Stage::Ready(_) => self.schedule.make_ready(at)?,
            Stage::Decided(_) => self.schedule.decide(at)?,
            _ => unreachable!(),
        }
        self.targets.insert(path.clone()?)?;
        self.slots.push(Slot {
            looks: 0,
            turn: 0,
            stage,
        })?;
        Ok(())
    }

    /// How many targets are decided.
    pub(crate) fn decided(&self) -> usize
        ensures { result ≡ decided_slots self.now.slots.items }
    {
        let mut count = 0;
        for at in 0..self.slots.len() {
            if self.slots[at].is_decided() {
                count += 1;
            }
        }
        count
    }

    /// Decides a target that was out.
    pub(crate) fn decide(&mut self, at: usize, fact: Known<Fact>) -> Result<(), AllocError>
        requires { IsOutThere self.old at }
        ensures { OnOk result (IsDecidedAt self.old self.new at fact) }
    {
        let slot = &mut self.slots[at];
        slot.stage = Stage::Decided(fact);
        self.schedule.decide(at as u32)
    }

    /// Parks a job that was out, at its next turn, with the numbers of what it waits for.
    pub(crate) fn park(
        &mut self,
        at: usize,
        begun: Box<Begun>,
        operands: Vec<u32>,
    ) -> Result<(), AllocError>
        requires out { IsOutThere self.old at }
        requires seen { AreSeen self.old operands.items }
        ensures { OnOk result (IsParkedAt self.old self.new at begun operands.items) }
    {
        let slot = &mut self.slots[at];
        slot.turn += 1;
        slot.stage = Stage::Waiting(begun);
        self.schedule.wait(at as u32, operands)
    }

    /// Takes out the check of a target that is due, for a look.
    pub(crate) fn take_out(&mut self, at: usize) -> Box<InCheck>
        requires { IsDueThere self.old at }
        ensures { IsTakenOut self.old self.new at result }
    {
        let slot = &mut self.slots[at];
        match mem::replace(&mut slot.stage, Stage::Out) {
            Stage::Due(held) => held,
            _ => unreachable!(),
        }
    }

    /// Lets a check that was taken out wait for the target of the number `place`.
    pub(crate) fn await_answer(
        &mut self,
        at: usize,
        awaiting: Awaiting,
        place: u32,
    ) -> Result<(), AllocError>
        requires out { IsOutThere self.old at }
        requires seen { place < length self.old.schedule.stages }
        ensures { OnOk result (IsAskedAt self.old self.new at awaiting place) }
    {
        let mut on = Vec::with_capacity(self.allocator(), 1)?;
        on.push(place)?;
        let slot = &mut self.slots[at];
        slot.looks += 1;
        slot.stage = Stage::Checking(awaiting);
        self.schedule.wait(at as u32, on)
    }

    /// Puts what is ready and isn't in the queue behind it, in order of first sight.
    pub(crate) fn enqueue(&mut self) -> Result<(), AllocError>
        ensures { OnOk result (AreEnqueued self.old self.new) }
    {
        self.schedule.is_queue();
        self.schedule.enqueue()?;
        self.schedule.is_queue();
        Ok(())
    }
}

/// The work of a target whose check fell: it has the facts of all that the check asked for.
fn fallen(
    alloc: Global,
    target: Path,
    held: Box<InCheck>,
    build: &Build,
) -> Result<Work, AllocError>
    requires { IsFallen build.now target held.value }
    ensures { IfOk result (λ w. w ≡
        record {
          given = build.now;
          target = target;
          turn = 0;
          deps = held.value.check.asked;
          known = known_in held.value.facts;
        }) }
{
    let InCheck {
        rule,
        check,
        mut facts,
    } = Box::into_inner(held);
    facts.asked = check.asked;
    Work::unread(alloc, build.share()?, target, rule, facts)
}
