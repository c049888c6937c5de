//! What a worker does with the word and the bell.
//!
//! A worker has a token for what it is at: [`Looking`], then [`Holding`] and [`Busy`], and in between, while it sleeps,
//! `Asleep` and `Told`. Each says which steps its thread has taken and how many rings it has heard.

ghost use Rattle.std.specs.Prelude.{◌≡◌, IfOk, IfErr, true, false};
ghost use Rattle.redo_crew.specs.declared.counts.Step.TheVariants.{Wake};
ghost use Rattle.redo_crew.specs.Deeds.{HasFoundNone, HasOnlyLooked, HasStepped, HasTaken, IsBack, seen, told, unstarted};
ghost use Rattle.redo_crew.specs.Offers.{HasFound};

use crate::claim::Claim;
use crate::counts::{Counts, Step};
use crate::member::Member;
use std::hint::spin_loop;
use std::marker::Model;
use std::sync::Wait;

/// Of a worker that looks for a job.
#[derive(Drop)]
pub struct Looking<'c> {
    member: Member<'c>,
}

impl<'c> Model for Looking<'c> {
    ghost use Rattle.redo_crew.specs.Deeds.{Deeds, IsLooking};

    ghost Value = { Deeds };

    ghost view = { λ w. w.member };

    ghost invariant = { λ w. IsLooking w.member };
}

/// Of a worker that sleeps, or is about to.
#[derive(Drop)]
struct Asleep<'c> {
    member: Member<'c>,
}

impl<'c> Model for Asleep<'c> {
    ghost use Rattle.redo_crew.specs.Deeds.{Deeds, IsAsleep};

    ghost Value = { Deeds };

    ghost view = { λ w. w.member };

    ghost invariant = { λ w. IsAsleep w.member };
}

/// Of a worker that has heard a ring, and counts as asleep until it wakes.
#[derive(Drop)]
struct Told<'c> {
    member: Member<'c>,
}

impl<'c> Model for Told<'c> {
    ghost use Rattle.redo_crew.specs.Deeds.{Deeds, IsTold};

    ghost Value = { Deeds };

    ghost view = { λ w. w.member };

    ghost invariant = { λ w. IsTold w.member };
}

/// Of a worker that has a right to a job in the relay.
#[derive(Drop)]
pub struct Holding<'c> {
    member: Member<'c>,
}

impl<'c> Model for Holding<'c> {
    ghost use Rattle.redo_crew.specs.Deeds.{Deeds, IsHolding};

    ghost Value = { Deeds };

    ghost view = { λ w. w.member };

    ghost invariant = { λ w. IsHolding w.member };
}

/// Of a worker that has taken up its right to a job, and isn't back from it.
#[derive(Drop)]
pub struct Busy<'c> {
    member: Member<'c>,
}

impl<'c> Model for Busy<'c> {
    ghost use Rattle.redo_crew.specs.Deeds.{Deeds, IsHolding};

    ghost Value = { Deeds };

    ghost view = { λ w. w.member };

    ghost invariant = { λ w. IsHolding w.member };
}

/// Of a worker that has seen that the run is over.
#[derive(Drop)]
pub struct Leaving<'c> {
    member: Member<'c>,
}

impl<'c> Model for Leaving<'c> {
    ghost use Rattle.redo_crew.specs.Deeds.{Deeds, HasLeft};

    ghost Value = { Deeds };

    ghost view = { λ w. w.member };

    ghost invariant = { λ w. HasLeft w.member };
}

/// What came of one look.
#[derive(Drop)]
enum Found<'c> {
    Job(Holding<'c>),
    Nothing(Looking<'c>),
    End(Leaving<'c>),
}

impl<'c> Looking<'c> {
    /// Of a worker that is hired.
    pub(crate) fn first(lead: &mut Member<'c>) -> Looking<'c>
        ensures same { lead.new ≡ lead.old }
        ensures unstarted { result ≡ unstarted }
    {
        Looking {
            member: lead.another(),
        }
    }

    /// Finds the next job for a worker, to which it has a right then. It looks for a few microseconds, and then sleeps
    /// until it hears a ring. An error once the run is over.
    pub fn find<R: Wait>(self, rt: &R) -> Result<Holding<'c>, Leaving<'c>>
        ensures job { IfOk result (HasTaken self.entry) }
        ensures over { IfErr result (HasFoundNone self.entry) }
    {
        let mut looking = self;
        'looks: for _ in rt.forever() {
            looking.member.spin();
            match looking.search(rt) {
                Found::Job(holding) => return Ok(holding),
                Found::End(leaving) => return Err(leaving),
                Found::Nothing(back) => looking = back,
            }
        }
        unreachable!()
    }

    /// Takes a job, or sleeps until a ring comes.
    fn search<R: Wait>(self, rt: &R) -> Found<'c>
        ensures { HasFound self.entry result }
    {
        let Looking { mut member } = self;
        if member.step(rt, Step::Take) {
            return Found::Job(Holding { member });
        }
        if member.step(rt, Step::Rest) {
            return Asleep { member }.hear(rt).wake(rt);
        }
        if sees_end(&mut member) {
            Found::End(Leaving { member })
        } else {
            Found::Nothing(Looking { member })
        }
    }
}

impl<'c> Asleep<'c> {
    /// Sleeps until a ring comes.
    fn hear<R: Wait>(self, rt: &R) -> Told<'c>
        ensures { result ≡ told self.entry }
    {
        let Asleep { mut member } = self;
        member.hear(rt);
        Told { member }
    }
}

impl<'c> Told<'c> {
    /// Wakes by the ring, unless the run is over.
    fn wake<R: Wait>(self, rt: &R) -> Found<'c>
        ensures { HasFound self.entry result }
    {
        let Told { mut member } = self;
        if wakes(rt, &mut member) {
            Found::Nothing(Looking { member })
        } else {
            Found::End(Leaving { member })
        }
    }
}

impl<'c> Holding<'c> {
    /// Takes up the right to the job, once.
    pub fn take_up(self) -> (Claim, Busy<'c>)
        ensures { result.1 ≡ self.entry }
    {
        let Holding { member } = self;
        (Claim::by_step(), Busy { member })
    }
}

impl<'c> Busy<'c> {
    /// A worker is back from its job, and looks for the next one; an error once the run is over.
    pub fn back<R: Wait>(self, rt: &R) -> Result<Looking<'c>, Leaving<'c>>
        ensures back { IfOk result (IsBack self.entry) }
        ensures over { IfErr result (HasFoundNone self.entry) }
    {
        let Busy { mut member } = self;
        if member.step(rt, Step::Return) {
            return Ok(Looking { member });
        }
        // The worker is counted as one that has a job, so only the end refuses it.
        see_end(rt, &mut member);
        Err(Leaving { member })
    }
}

/// Takes the step by which a sleeper wakes; false once the run is over. There are as many calls as were sent and haven't
/// woken anybody.
fn wakes<R: Wait>(rt: &R, member: &mut Member<'_>) -> bool
    ensures woken { result ≡ true → HasStepped Wake member.old member.new }
    ensures over { result ≡ false → HasOnlyLooked member.old member.new × ((seen member.new).over ≡ true) }
{
    'tries: for _ in rt.forever() {
        let word = member.look();
        let counts = Counts::of(word);
        if counts.over {
            return false;
        }
        if counts.is_open(Step::Wake) && member.try_step(word, Step::Wake) {
            return true;
        }
    }
    unreachable!()
}

/// Whether the run is over.
fn sees_end(member: &mut Member<'_>) -> bool
    ensures looked { HasOnlyLooked member.old member.new }
    ensures over { result ≡ (seen member.new).over }
{
    Counts::of(member.look()).over
}

/// Looks until the run is over.
fn see_end<R: Wait>(rt: &R, member: &mut Member<'_>)
    ensures looked { HasOnlyLooked member.old member.new }
    ensures over { (seen member.new).over ≡ true }
{
    'looks: for _ in rt.forever() {
        if sees_end(member) {
            return;
        }
        spin_loop();
    }
    unreachable!()
}
