//! What the opening, a hand-in and looks do to the table.
ghost use Rattle.std.specs.Prelude.{◌≡◌, ◌<◌, ℕ, length, IfOk, OnOk, Err};
ghost use Rattle.redo_rules.specs.Build.{rules_for};
ghost use Rattle.redo_table.specs.Schedule.{NoneDue};
ghost use Rattle.redo_core.specs.inside.Slots.{AreNumbers, IsTableOf, AreEnteredInto};
ghost use Rattle.redo_core.specs.inside.Slots.{AreTooMany, MayTakeIn, IsPutBackThere};
ghost use Rattle.redo_core.specs.inside.Slots.{IsTakenIn, IsFirstTable, targets_in, state_after};
ghost use Rattle.redo_core.specs.inside.Slots.{MayConclude, IsConcludedAt, MayLook, IsDrawn, IsLookedOnce, IsAtRest};
ghost use Rattle.redo_core.specs.inside.Slots.{IsLookedOn, IsMovedOn};
ghost use Rattle.redo_build.specs.Outcomes.{IsTooMany};
ghost use Rattle.redo_build.specs.Schedule.{opening};
ghost use Rattle.redo_build.specs.Schedule.Phase.{Check, Script};
ghost use Rattle.redo_core.specs.inside.Checking.{asks_next};

use crate::board::Stop;
use crate::build::Build;
use crate::fact::Fact;
use crate::table::{Awaiting, InCheck, Table};
use crate::work::{Begun, End};
use redo_names::PathSet;
use redo_path::Path;
use redo_table::Schedule;
use std::alloc::{AllocError, Global};
use std::sync::Arc;

impl Table {
    /// The table at the opening.
    pub(crate) fn open(alloc: Global, build: &Build) -> Result<Table, Stop>
        ensures ok { IfOk result (IsFirstTable build.now) }
        ensures too_many { result ≡ Err Stop.TooMany →
            build.now.limits.targets < length (opening (rules_for build.now) build.now.request).entries }
    {
        let most = build.given().limits().targets();
        prove!(most <= 65_536);
        // Most targets have a script of their own, so there are seldom more of them than sources.
        let likely = build.given().sources().len().min(most as usize);
        let targets = PathSet::with_capacity(alloc, likely)?;
        let slots = Vec::with_capacity(alloc, likely)?;
        let mut table = Table {
            targets,
            slots,
            schedule: Schedule::new(alloc),
        };
        let request = build.given().request();
        table.enter_requested(request, build)?;
        table.enqueue()?;
        Ok(table)
    }

    /// Enters the paths that are new, and returns the numbers of all.
    fn enter_all(&mut self, paths: &[Path], build: &Build) -> Result<Vec<u32>, Stop>
        requires table { IsTableOf build.now self.old }
        ensures ok { OnOk result (AreEnteredInto build.now self.old self.new paths.now) }
        ensures numbers { IfOk result (λ ns. AreNumbers self.new.targets ns.items paths.now) }
        ensures too_many { result ≡ Err Stop.TooMany → AreTooMany build.now self.old paths.now }
    {
        let mut numbers = Vec::with_capacity(self.allocator(), paths.len())?;
        for path in paths {
            let at = self.enter(path, build)?;
            numbers.push(at)?;
        }
        Ok(numbers)
    }

    /// Decides a target that was out by its fact, and lets what waited for it go on.
    fn conclude(&mut self, at: usize, fact: Fact, build: &Build) -> Result<(), AllocError>
        requires { MayConclude build.now self.old at fact }
        ensures { OnOk result (IsConcludedAt build.now self.old self.new at fact) }
    {
        let known = build.publish(at, fact)?;
        self.decide(at, known)?;
        self.settle(build)
    }

    /// Enters the paths that a stopped job waits for, parks the job, and lets it go on if all of them are decided.
    fn suspend(
        &mut self,
        at: usize,
        begun: Box<Begun>,
        paths: Vec<Path>,
        build: &Build,
    ) -> Result<(), Stop>
        requires { MayTakeIn build.now self.old at (End.Stopped begun paths) }
        ensures ok { OnOk result (
            IsPutBackThere build.now (state_after build.now Script self.old at) self.old self.new) }
        ensures too_many { result ≡ Err Stop.TooMany →
            build.now.limits.targets < length (state_after build.now Script self.old at).entries }
    {
        let operands = self.enter_all(&paths, build)?;
        self.park(at, begun, operands)?;
        self.settle(build)?;
        Ok(())
    }

    /// Takes in what a job that was out came to.
    fn take_in(&mut self, at: usize, end: End, build: &Build) -> Result<(), Stop>
        requires { MayTakeIn build.now self.old at end }
        ensures ok { OnOk result (IsTakenIn build.now (state_after build.now Script self.old at) self.new) }
        ensures too_many { result ≡ Err Stop.TooMany →
            build.now.limits.targets < length (state_after build.now Script self.old at).entries }
    {
        match end {
            End::Ended(fact, _asked) => self.conclude(at, fact, build)?,
            End::Stopped { begun, paths } => self.suspend(at, begun, paths, build)?,
        }
        self.enqueue()?;
        Ok(())
    }

    /// Enters the requested paths that aren't sources.
    fn enter_requested(&mut self, request: &[Path], build: &Build) -> Result<(), Stop>
        requires table { IsTableOf build.now self.old }
        ensures ok { OnOk result (
            AreEnteredInto build.now self.old self.new (targets_in (rules_for build.now) request.now)) }
        ensures too_many { result ≡ Err Stop.TooMany →
            AreTooMany build.now self.old (targets_in (rules_for build.now) request.now) }
    {
        for path in request {
            if build.given().is_target(path) {
                self.enter(path, build)?;
            }
        }
        Ok(())
    }

    /// Keeps a target whose recorded entries all stand.
    fn keep(&mut self, at: usize, held: Box<InCheck>, build: &Build) -> Result<(), AllocError>
        requires may { MayLook build.now self.old at held }
        requires stands { asks_next build.now held.value.check ≡ None }
        ensures { OnOk result (
            IsPutBackThere build.now (state_after build.now Check self.old at) self.old self.new) }
    {
        let alloc = self.allocator();
        let (outcome, deps) = held.check.kept(alloc, build.given())?;
        let target = self.targets.at(at).clone()?;
        let deps = Arc::new(alloc, deps)?;
        let fact = Fact::of(build.given(), target, outcome, deps, false);
        self.conclude(at, fact, build)
    }

    /// Enters the next path that a check asks for, lets the check wait for it, and lets it go on if that is decided.
    fn ask(
        &mut self,
        at: usize,
        mut held: Box<InCheck>,
        path: Path,
        build: &Build,
    ) -> Result<(), Stop>
        requires may { MayLook build.now self.old at held }
        requires asks { asks_next build.now held.value.check ≡ Some path }
        ensures ok { OnOk result (
            IsPutBackThere build.now (state_after build.now Check self.old at) self.old self.new) }
        ensures too_many { result ≡ Err Stop.TooMany →
            build.now.limits.targets < length (state_after build.now Check self.old at).entries }
    {
        let place = self.enter(&path, build)?;
        held.check.ask(&path)?;
        self.await_answer(at, Awaiting { held, path }, place)?;
        self.settle(build)?;
        Ok(())
    }

    /// Looks at the check of a target, which is the first by first sight that can go on: the target is kept, or its
    /// check asks for the next path.
    fn look(&mut self, at: usize, build: &Build) -> Result<(), Stop>
        requires { IsDrawn build.now self.old at }
        ensures ok { OnOk result (IsLookedOnce build.now self.old self.new) }
        ensures too_many { result ≡ Err Stop.TooMany → IsTooMany (rules_for build.now) build.now.request
            build.now.limits.targets }
    {
        let held = self.take_out(at);
        match held.check.next(build.given()) {
            Some(path) => {
                let path = path.clone()?;
                self.ask(at, held, path, build)?;
            }
            None => self.keep(at, held, build)?,
        }
        self.enqueue()?;
        Ok(())
    }

    /// Looks at checks until none can go on.
    pub(crate) fn look_ahead(&mut self, build: &Build) -> Result<(), Stop>
        requires { IsAtRest build.now self.old }
        ensures ok { OnOk result (IsLookedOn build.now self.old self.new) }
        ensures none_due { OnOk result (NoneDue self.new.schedule) }
        ensures too_many { result ≡ Err Stop.TooMany → IsTooMany (rules_for build.now) build.now.request
            build.now.limits.targets }
    {
        while let Some(at) = self.schedule.next_due() {
            self.look(at as usize, build)?;
        }
        Ok(())
    }

    /// Takes in what a job that was out came to, and looks at checks until none can go on.
    pub(crate) fn move_on(&mut self, at: usize, end: End, build: &Build) -> Result<(), Stop>
        requires { MayTakeIn build.now self.old at end }
        ensures ok { OnOk result (IsMovedOn build.now (state_after build.now Script self.old at) self.new) }
        ensures too_many { result ≡ Err Stop.TooMany → IsTooMany (rules_for build.now) build.now.request
            build.now.limits.targets }
    {
        self.take_in(at, end, build)?;
        self.look_ahead(build)
    }
}
