//! Who waits for whom.
ghost use Rattle.std.specs.Prelude.{◌≡◌, ◌⊎◌, ◌↔◌, ℕ, ◌+◌, ◌<◌, ◌^◌, List, [], ◌∷◌, ◌++◌, Some, OnOk, OnErr, IfOk, IfSome, IfNone};
ghost use Rattle.std.specs.Prelude.{IsTrue};
ghost use Rattle.std.specs.Prelude.{length, slice_get, slice_set, true, false};
ghost use Rattle.redo_table.specs.Schedule.{EachLacks, IsAnswered};
ghost use Rattle.redo_table.specs.Schedule.StageView.{Out, InHand, Decided, Waiting as Waits};
ghost use Rattle.redo_table.specs.inside.Targets.{AreDecidedFrom, IsLackingAt, IsUndecided, LacksAt, IsLook};
ghost use Rattle.redo_table.specs.inside.Targets.{view_of, is_plain};

use crate::stage::{Stage, Target, Waiting};
use std::alloc::{AllocError, Global};
use std::marker::Model;
use std::mem;

/// The targets, and whom each waits for. In a contract it is the stage of each, and the numbers to be looked at again.
#[derive(Drop)]
pub(crate) struct Waiters {
    targets: Vec<Target>,
    /// The numbers to be looked at: among them is each target that waits and that watches no other.
    pending: Vec<u32>,
}

impl Model for Waiters {
    ghost use Rattle.redo_table.specs.inside.Targets.{WaitersView, stages_of, AreWaiters};

    ghost Value = { WaitersView };

    ghost view = { λ w. record { stages = stages_of w.targets.items; pending = w.pending.items } };

    ghost invariant = { λ w. AreWaiters w.targets.items w.pending.items };
}

/// A target that waited, with the numbers of what it waited for.
#[derive(Drop)]
pub struct Answered {
    pub at: u32,
    pub on: Vec<u32>,
}

/// What a look at a target found.
#[derive(Drop)]
enum Looked {
    /// It waits for the undecided target of number `place`; of those that it waits for, the first `decided` are decided.
    Lacks { decided: usize, place: usize },
    /// All that it waits for is decided.
    Answered,
    /// It doesn't wait.
    Stray,
}

/// The first undecided target among these numbers, from index `from` on: its index and its number.
fn next_lacking(targets: &[Target], on: &[u32], from: usize) -> Option<(usize, usize)>
    requires { (i n : ℕ) → slice_get on.now i ≡ Some n → n < length targets.now }
    ensures found { IfSome result (λ f. IsLackingAt targets.now on.now from f.0 f.1) }
    ensures none { IfNone result (AreDecidedFrom targets.now on.now from (length on.now)) }
{
    for i in from..on.len() {
        let at = on[i] as usize;
        if !targets[at].is_decided() {
            return Some((i, at));
        }
    }
    None
}

impl Waiters {
    /// No targets. Needs no memory.
    pub(crate) fn new(alloc: Global) -> Waiters
        ensures stages { result.stages ≡ [] }
    {
        Waiters {
            targets: Vec::new(alloc),
            pending: Vec::new(alloc),
        }
    }

    /// How many targets there are.
    pub(crate) fn len(&self) -> usize
        ensures { result ≡ length self.now.stages }
    {
        self.targets.len()
    }

    /// Whether a target is decided.
    pub(crate) fn is_decided(&self, at: u32) -> bool
        requires { at < length self.now.stages }
        ensures { IsTrue result ↔ (slice_get self.now.stages at ≡ Some Decided) }
    {
        self.targets[at as usize].is_decided()
    }

    /// Whether a target is out.
    pub(crate) fn is_out(&self, at: u32) -> bool
        requires { at < length self.now.stages }
        ensures { IsTrue result ↔ (slice_get self.now.stages at ≡ Some Out) }
    {
        matches!(self.targets[at as usize].stage, Stage::Out)
    }

    /// Whether some target is to be looked at again.
    pub(crate) fn is_pending(&self) -> bool
        ensures pending { IsTrue result ↔ (0 < length self.now.pending) }
        ensures lacks { result ≡ false → EachLacks self.now.stages }
    {
        !self.pending.is_empty()
    }

    /// Adds a target, which is in hand.
    pub(crate) fn add(&mut self) -> Result<(), AllocError>
        ensures added { OnOk result (self.new.stages ≡ self.old.stages ++ InHand ∷ []) }
        ensures err { OnErr result (self.new ≡ self.old) }
    {
        let watchers = Vec::new(*self.targets.allocator());
        self.targets.push(Target {
            stage: Stage::InHand,
            watchers,
        })?;
        Ok(())
    }

    /// Puts an undecided target into another stage, in which it neither waits nor is decided.
    pub(crate) fn put(&mut self, at: u32, stage: Stage)
        requires there { IsUndecided self.old.stages at }
        requires plain { is_plain stage ≡ true }
        ensures { self.new.stages ≡ slice_set self.old.stages at (view_of stage) }
    {
        self.targets[at as usize].stage = stage;
    }

    /// Decides a target. What watches it is to be looked at again.
    pub(crate) fn decide(&mut self, at: u32) -> Result<(), AllocError>
        requires { at < length self.old.stages }
        ensures decided { OnOk result (self.new.stages ≡ slice_set self.old.stages at Decided) }
        ensures err { OnErr result (self.new.stages ≡ self.old.stages) }
    {
        let target = &mut self.targets[at as usize];
        self.pending.append(&mut target.watchers)?;
        target.stage = Stage::Decided;
        Ok(())
    }

    /// Lets an undecided target wait for others. It is to be looked at.
    pub(crate) fn wait(&mut self, at: u32, on: Vec<u32>) -> Result<(), AllocError>
        requires there { IsUndecided self.old.stages at }
        requires seen { (i n : ℕ) → slice_get on.items i ≡ Some n → n < length self.old.stages }
        ensures waits { OnOk result (self.new.stages ≡ slice_set self.old.stages at (Waits on.items)) }
        ensures err { OnErr result (self.new.stages ≡ self.old.stages) }
    {
        self.pending.push(at)?;
        self.targets[at as usize].stage = Stage::Waiting(Waiting { on, decided: 0 });
        Ok(())
    }

    /// What a target that is to be looked at waits for.
    fn look_at(&self, at: u32) -> Looked
        ensures { IsLook self.now.stages at result }
    {
        let Some(target) = self.targets.get(at as usize) else {
            return Looked::Stray;
        };
        let Stage::Waiting(waiting) = &target.stage else {
            return Looked::Stray;
        };
        match next_lacking(&self.targets, &waiting.on, waiting.decided) {
            Some((decided, place)) => Looked::Lacks { decided, place },
            None => Looked::Answered,
        }
    }

    /// Notes how many of the targets that one waits for are decided, from the first on.
    fn note_decided(&mut self, at: u32, decided: usize)
        requires { (place : ℕ) × LacksAt self.old.stages at decided place }
        ensures { self.new ≡ self.old }
    {
        let target = &mut self.targets[at as usize];
        let Stage::Waiting(waiting) = &mut target.stage else {
            unreachable!()
        };
        waiting.decided = decided;
    }

    /// Looks at the target that was last to be looked at again. It is in hand if all that it waits for is decided; else
    /// it watches the first target that isn't.
    pub(crate) fn look_again(&mut self) -> Result<Option<Answered>, AllocError>
        requires { 0 < length self.old.pending }
        ensures fewer { OnOk result (length self.new.pending < length self.old.pending) }
        ensures answered { IfOk result (λ found. IfSome found (λ a. IsAnswered self.old.stages a.at a.on.items ×
            (self.new.stages ≡ slice_set self.old.stages a.at InHand))) }
        ensures waits { IfOk result (λ found. IfNone found (self.new.stages ≡ self.old.stages)) }
        ensures err { OnErr result (self.new.stages ≡ self.old.stages) }
    {
        let at = self.pending[self.pending.len() - 1];
        match self.look_at(at) {
            Looked::Lacks { decided, place } => {
                self.note_decided(at, decided);
                self.targets[place].watchers.push(at)?;
                let _ = self.pending.pop();
                Ok(None)
            }
            Looked::Answered => {
                let before = mem::replace(&mut self.targets[at as usize].stage, Stage::InHand);
                let _ = self.pending.pop();
                match before {
                    Stage::Waiting(Waiting { on, decided: _ }) => Ok(Some(Answered { at, on })),
                    _ => unreachable!(),
                }
            }
            Looked::Stray => {
                let _ = self.pending.pop();
                Ok(None)
            }
        }
    }
}
