//! The schedule of a build, by the numbers of its targets.
ghost use Rattle.std.specs.Prelude.{◌≡◌, ◌↔◌, ℕ, ◌+◌, ◌<◌, ◌^◌, Some, OnOk, IfOk, IfSome, IfNone, IsTrue};
ghost use Rattle.std.specs.Prelude.{count_by, length, remove, slice_get};
ghost use Rattle.redo_table.specs.Schedule.{no_targets, with_target, with_stage, stage_at, is_out};
ghost use Rattle.redo_table.specs.Schedule.{IsOpen, NoneDue, IsFirstDue, IsEnqueued, IsQueue, EachLacks, IsAnswered};
ghost use Rattle.redo_table.specs.Schedule.StageView.{Due, Ready, Out, InHand, Decided, Waiting as Waits};

use crate::stage::Stage;
use crate::waits::{Answered, Waiters};
use std::alloc::{AllocError, Global};
use std::collections::{BTreeSet, VecDeque};
use std::marker::Model;

/// The targets that have been seen. In a contract it is the stage of each, in order of first sight, and the queue of
/// those that may be taken.
#[derive(Drop)]
pub struct Schedule {
    waits: Waiters,
    /// The queue.
    ready: VecDeque<u32>,
    /// The numbers of those that are ready and aren't in the queue yet.
    newly_ready: VecDeque<u32>,
    due: BTreeSet<u32>,
    /// How many are out.
    out: usize,
}

impl Model for Schedule {
    ghost use Rattle.redo_table.specs.Schedule.{ScheduleView};

    ghost Value = { ScheduleView };

    ghost use Rattle.redo_table.specs.inside.Listed.{IsListed};

    ghost view = { λ t. record { stages = t.waits.stages; ready = t.ready.items } };

    ghost invariant = { λ t. IsListed t.waits.stages t.ready.items t.newly_ready.items t.due.keys t.out };
}

impl Schedule {
    /// No targets. Needs no memory.
    pub fn new(alloc: Global) -> Schedule
        ensures { result ≡ no_targets }
    {
        Schedule {
            waits: Waiters::new(alloc),
            ready: VecDeque::new(alloc),
            newly_ready: VecDeque::new(alloc),
            due: BTreeSet::new(alloc),
            out: 0,
        }
    }

    /// How many targets there are.
    pub fn len(&self) -> usize
        ensures { result ≡ length self.now.stages }
    {
        self.waits.len()
    }

    /// How many may be taken.
    pub fn ready(&self) -> usize
        ensures { result ≡ length self.now.ready }
    {
        self.ready.len()
    }

    /// How many are out.
    pub fn out(&self) -> usize
        ensures { result ≡ count_by is_out self.now.stages }
    {
        self.out
    }

    /// Whether a target is decided.
    pub fn is_decided(&self, at: u32) -> bool
        requires { at < length self.now.stages }
        ensures { IsTrue result ↔ (stage_at self.now at ≡ Some Decided) }
    {
        self.waits.is_decided(at)
    }

    /// Adds a target, which is in hand. Its number is how many there were.
    pub fn add(&mut self) -> Result<u32, AllocError>
        requires { length self.old.stages + 1 < 2 ^ 32 }
        ensures number { IfOk result (λ at. at ≡ length self.old.stages) }
        ensures added { OnOk result (self.new ≡ with_target self.old InHand) }
    {
        let at = self.waits.len() as u32;
        self.waits.add()?;
        Ok(at)
    }

    /// The ready target at this index of the queue.
    pub fn ready_at(&self, which: usize) -> u32
        requires { which < length self.now.ready }
        ensures number { slice_get self.now.ready which ≡ Some result }
        ensures is { stage_at self.now result ≡ Some Ready }
    {
        self.ready[which]
    }

    /// Takes the ready target at this index of the queue. The others close up.
    pub fn take(&mut self, which: usize) -> u32
        requires { which < length self.old.ready }
        ensures number { slice_get self.old.ready which ≡ Some result }
        ensures was { stage_at self.old result ≡ Some Ready }
        ensures taken { self.new ≡
            record (with_stage self.old result Out) { ready = remove self.old.ready which } }
    {
        let Some(at) = self.ready.remove(which) else {
            unreachable!()
        };
        self.waits.put(at, Stage::Out);
        self.out += 1;
        at
    }

    /// Draws the first target, by first sight, that is due. It is in hand then.
    pub fn next_due(&mut self) -> Option<u32>
        ensures none { IfNone result (NoneDue self.old × (self.new ≡ self.old)) }
        ensures some { IfSome result (λ at. IsFirstDue self.old at × (self.new ≡ with_stage self.old at InHand)) }
    {
        let at = self.due.pop_first()?;
        self.waits.put(at, Stage::InHand);
        Some(at)
    }

    /// Decides a target that is out or in hand.
    pub fn decide(&mut self, at: u32) -> Result<(), AllocError>
        requires { IsOpen self.old at }
        ensures { OnOk result (self.new ≡ with_stage self.old at Decided) }
    {
        let was_out = self.waits.is_out(at);
        self.waits.decide(at)?;
        if was_out {
            self.out -= 1;
        }
        Ok(())
    }

    /// Lets a target that is out or in hand wait for others. It may wait for itself, and then waits for ever.
    pub fn wait(&mut self, at: u32, on: Vec<u32>) -> Result<(), AllocError>
        requires open { IsOpen self.old at }
        requires seen { (i n : ℕ) → slice_get on.items i ≡ Some n → n < length self.old.stages }
        ensures { OnOk result (self.new ≡ with_stage self.old at (Waits on.items)) }
    {
        let was_out = self.waits.is_out(at);
        self.waits.wait(at, on)?;
        if was_out {
            self.out -= 1;
        }
        Ok(())
    }

    /// Makes a target due that is in hand.
    pub fn make_due(&mut self, at: u32) -> Result<(), AllocError>
        requires { stage_at self.old at ≡ Some InHand }
        ensures { OnOk result (self.new ≡ with_stage self.old at Due) }
    {
        self.due.insert(at)?;
        self.waits.put(at, Stage::Due);
        Ok(())
    }

    /// Makes a target ready that is in hand. It isn't in the queue yet.
    pub fn make_ready(&mut self, at: u32) -> Result<(), AllocError>
        requires { stage_at self.old at ≡ Some InHand }
        ensures { OnOk result (self.new ≡ with_stage self.old at Ready) }
    {
        self.newly_ready.push_back(at)?;
        self.waits.put(at, Stage::Ready);
        Ok(())
    }

    /// A target that waited only for decided ones, with their numbers; it is in hand then. `None` once each that waits
    /// waits for one that isn't decided.
    pub fn next_answered(&mut self) -> Result<Option<Answered>, AllocError>
        ensures answered { IfOk result (λ found. IfSome found (λ a. IsAnswered self.old.stages a.at a.on.items ×
            (self.new ≡ with_stage self.old a.at InHand))) }
        ensures none { IfOk result (λ found. IfNone found (EachLacks self.new.stages × (self.new ≡ self.old))) }
    {
        while self.waits.is_pending() {
            if let Some(answered) = self.waits.look_again()? {
                return Ok(Some(answered));
            }
        }
        Ok(None)
    }

    /// Puts what is ready and isn't in the queue behind it, in order of first sight.
    pub fn enqueue(&mut self) -> Result<(), AllocError>
        ensures { OnOk result (IsEnqueued self.old self.new) }
    {
        self.newly_ready.make_contiguous().sort_unstable();
        self.ready.append(&mut self.newly_ready)?;
        Ok(())
    }

    /// The queue has ready targets alone, each once.
    pub fn is_queue(&self)
        ensures { IsQueue self.now }
    {
        // A field is read so that the invariant is at hand in the proof. Nothing runs.
        let _ = &self.out;
    }
}
