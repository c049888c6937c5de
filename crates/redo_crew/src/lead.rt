//! What the owner does with the word and the bell.

ghost use Rattle.std.specs.Prelude.{◌≡◌, IfNone, IfSome};
ghost use Rattle.redo_crew.specs.declared.counts.Step.TheVariants as steps;
ghost use Rattle.redo_crew.specs.Word.{IsOffer};
ghost use Rattle.redo_crew.specs.Crews.{IsFirstOf};
ghost use Rattle.redo_crew.specs.Deeds.{HasStepped, IsFull, IsRefused, rung_often, seen, uncalled, unstarted};
ghost use Rattle.redo_crew.specs.Offers.{HasOffered};
ghost use Rattle.redo_crew.specs.Tracks.{took};

use crate::claim::Claim;
use crate::counts::{Counts, Step};
use crate::crew::Crew;
use crate::member::{First, Member, never};
use crate::worker::Looking;
use std::marker::Model;
use std::sync::Wait;

/// The owner's part in a crew. Contracts see what it has done: it has sent a ring for each sleeper that it called.
#[derive(Drop)]
pub struct Lead<'c> {
    member: Member<'c>,
}

impl<'c> Model for Lead<'c> {
    ghost use Rattle.redo_crew.specs.Deeds.{Deeds, IsLeading};

    ghost Value = { Deeds };

    ghost view = { λ l. l.member };

    ghost invariant = { λ l. IsLeading l.member };
}

/// The owner's part, once the run is over. Each sleeper has a ring.
#[derive(Drop)]
pub struct Ended<'c> {
    member: Member<'c>,
}

impl<'c> Model for Ended<'c> {
    ghost use Rattle.redo_crew.specs.Deeds.{Deeds, HasEnded};

    ghost Value = { Deeds };

    ghost view = { λ l. l.member };

    ghost invariant = { λ l. HasEnded l.member };
}

/// What an offer came to.
#[derive(Drop)]
pub enum Offer<'c> {
    /// No job more may wait.
    Full,
    /// Enough workers look or were called, or all are at work.
    Spared,
    /// A sleeper was called.
    Called,
    /// A worker is to be started, which looks from now on.
    Hire(Looking<'c>),
}

impl<'c> Lead<'c> {
    /// The owner's part in this crew.
    pub fn new(crew: &'c Crew, first: First) -> Lead<'c>
        requires { IsFirstOf crew.now first }
        ensures { result ≡ unstarted }
    {
        Lead {
            member: Member::first(crew, first),
        }
    }

    /// Offers a job that is in the relay. If too few workers look for one, a sleeper is called or, if none sleeps, one
    /// more is to be started.
    pub fn offer<R: Wait>(&mut self, rt: &R) -> Offer<'c>
        ensures { HasOffered result self.old self.new }
    {
        let member = &mut self.member;
        match offered(rt, member) {
            None => Offer::Full,
            Some(Step::Hire) => Offer::Hire(Looking::first(member)),
            Some(Step::Call) => {
                member.ring(rt);
                Offer::Called
            }
            Some(_) => Offer::Spared,
        }
    }

    /// Takes the right to a job that waits in the relay; `None` if none waits.
    pub fn claim<R: Wait>(&mut self, rt: &R) -> Option<Claim>
        ensures claimed { IfSome result (λ _. HasStepped steps.Claim self.old self.new) }
        ensures none { IfNone result (IsRefused steps.Claim self.old self.new) }
    {
        if self.member.step(rt, Step::Claim) {
            Some(Claim::by_step())
        } else {
            None
        }
    }

    /// Ends the run: each worker learns of it when it looks for its next job, and each sleeper by a ring.
    pub fn end<R: Wait>(self, rt: &R) -> Ended<'c>
        ensures { result.steps ≡ took steps.End self.entry.steps }
    {
        let Lead { mut member } = self;
        let sleepers = take_end(rt, &mut member);
        ring_all(rt, &mut member, sleepers);
        Ended { member }
    }
}

/// Takes the step by which a job is offered. Returns it; `None` where no job more may wait.
fn offered<R: Wait>(rt: &R, member: &mut Member<'_>) -> Option<Step>
    ensures some { IfSome result (λ step. IsOffer step × HasStepped step member.old member.new) }
    ensures none { IfNone result (IsFull member.old member.new) }
{
    'tries: for _ in rt.forever() {
        let seen = member.look();
        let step = Counts::of(seen).offer()?;
        if member.try_step(seen, step) {
            return Some(step);
        }
    }
    unreachable!()
}

/// Takes the step that ends the run. Returns how many sleepers weren't called.
fn take_end<R: Wait>(rt: &R, member: &mut Member<'_>) -> u8
    ensures ended { HasStepped steps.End member.old member.new }
    ensures uncalled { result ≡ uncalled (seen member.new) }
{
    'tries: for _ in rt.forever() {
        let word = member.look();
        let counts = Counts::of(word);
        if counts.over {
            // Nobody else ends a run.
            never(rt)
        }
        if member.try_step(word, Step::End) {
            return counts.asleep - counts.calls;
        }
    }
    unreachable!()
}

/// Rings for so many sleepers.
fn ring_all<R: Wait>(rt: &R, member: &mut Member<'_>, sleepers: u8)
    ensures { member.new ≡ rung_often sleepers member.old }
{
    'rings: for _rung in 0..sleepers {
        member.ring(rt);
    }
}
