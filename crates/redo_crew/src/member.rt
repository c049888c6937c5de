//! A thread of a crew: what it has done to the word and with the bell.

ghost use Rattle.std.specs.Prelude.{◌≡◌, ◌≤◌, IfOk, true, false};
ghost use Rattle.redo_crew.specs.Word.{IsKept, IsOpen, counts_of, most_workers};
ghost use Rattle.redo_crew.specs.Deeds.{HasStepped, IsRefused, looked, rung, stepped, told, unstarted};
ghost use Rattle.redo_crew.specs.Crews.{IsFirstOf};

use crate::bell::{BellPass, Enters, Even, Hears, Ring, Sends, Tally};
use crate::counts::{Counts, MOST_WORKERS, Step};
use crate::crew::Crew;
use crate::word::{Joins, Looks, Mark, Tries, Word};
use crossbeam_channel::bounded_with;
use std::alloc::{AllocError, Global};
use std::hint::spin_loop;
use std::marker::Model;
use std::sync::Wait;

/// The owner's marks, before they are tied to the crew.
#[derive(Drop)]
pub struct First {
    mark: Mark,
    pass: BellPass,
}

impl Crew {
    /// So many workers, none of them started. The bell has a place for a ring to each worker, so nobody waits to ring.
    pub fn new(alloc: Global, workers: u8) -> Result<(Crew, First), AllocError>
        requires { workers ≤ most_workers }
        ensures { IfOk result (λ r. IsFirstOf r.0 r.1) }
    {
        let word = [Counts::first(workers).word()];
        let (word, mark) = Word::of_words(alloc, &word, &workers)?;
        let (clapper, rings, pass) = bounded_with::<Ring, Tally, Even, Global>(
            alloc,
            MOST_WORKERS as usize,
        )?;
        Ok((
            Crew {
                word,
                clapper,
                rings,
            },
            First { mark, pass },
        ))
    }
}

/// A thread of a crew. Contracts see what it has done.
#[derive(Drop)]
pub(crate) struct Member<'c> {
    crew: &'c Crew,
    mark: Mark,
    pass: BellPass,
}

impl<'c> Model for Member<'c> {
    ghost use Rattle.std.specs.Prelude.{◌≡◌};
    ghost use Rattle.crossbeam_channel.specs.Claims.{IsSeatAt};
    ghost use Rattle.crossbeam_channel.specs.Claims as claims;
    ghost use Rattle.crossbeam_channel.specs.Ends.{sends_on};
    ghost use Rattle.redo_crew.specs.Deeds.{Deeds, deeds};

    ghost Value = { Deeds };

    ghost view = { λ m. deeds m.mark.me.0 (claims.view m.pass) };

    ghost invariant = { λ m. (m.mark.table_id ≡ m.crew.now.word.shared.table_id) × IsSeatAt (sends_on m.crew.now.clapper) m.pass };
}

/// Doesn't return. No run comes here, though the kit's contracts don't say so.
pub(crate) fn never<R: Wait>(rt: &R) -> ! {
    'waits: for _ in rt.forever() {
        spin_loop();
    }
    unreachable!()
}

impl<'c> Member<'c> {
    /// The first thread of a crew.
    pub(crate) fn first(crew: &'c Crew, first: First) -> Member<'c>
        requires { IsFirstOf crew.now first }
        ensures { result ≡ unstarted }
    {
        let First { mark, pass } = first;
        Member { crew, mark, pass }
    }

    /// One thread more.
    pub(crate) fn another(&mut self) -> Member<'c>
        ensures same { self.new ≡ self.old }
        ensures unstarted { result ≡ unstarted }
    {
        let crew = self.crew;
        let mark = crew.word.shared.split_seat::<Joins>(&mut self.mark);
        let pass = crew.clapper.another::<Enters>(&mut self.pass);
        Member { crew, mark, pass }
    }

    /// Looks for a job for a few microseconds.
    pub(crate) fn spin(&self) {
        self.crew.spin();
    }

    /// Looks at the word.
    pub(crate) fn look(&mut self) -> u64
        ensures looked { self.new ≡ looked result self.old }
        ensures kept { IsKept (counts_of result) }
    {
        self.crew.word.shared.load::<Looks>(&mut self.mark, 0)
    }

    /// Tries a step once, from the word as it was seen. Returns whether nobody was faster.
    pub(crate) fn try_step(&mut self, seen: u64, step: Step) -> bool
        requires kept { IsKept (counts_of seen) }
        requires open { IsOpen step (counts_of seen) }
        ensures taken { result ≡ true → self.new ≡ stepped step seen self.old }
        ensures missed { result ≡ false → self.new ≡ self.old }
    {
        let next = Counts::of(seen).after(step).word();
        let shared = &self.crew.word.shared;
        shared.compare_exchange_with::<Tries>(&mut self.mark, 0, seen, next, &step) == seen
    }

    /// Takes a step. Returns false where it may not happen.
    pub(crate) fn step<R: Wait>(&mut self, rt: &R, step: Step) -> bool
        ensures taken { result ≡ true → HasStepped step self.old self.new }
        ensures refused { result ≡ false → IsRefused step self.old self.new }
    {
        'tries: for _ in rt.forever() {
            let seen = self.look();
            if !Counts::of(seen).is_open(step) {
                return false;
            }
            if self.try_step(seen, step) {
                return true;
            }
        }
        unreachable!()
    }

    /// Rings for one sleeper.
    pub(crate) fn ring<R: Wait>(&mut self, rt: &R)
        ensures { self.new ≡ rung self.old }
    {
        match self
            .crew
            .clapper
            .send_as::<Sends, R>(rt, &mut self.pass, Ring(()))
        {
            Ok(()) => {}
            // The crew has the other end, too.
            Err(_) => never(rt),
        }
    }

    /// Waits for a ring.
    pub(crate) fn hear<R: Wait>(&mut self, rt: &R)
        ensures { self.new ≡ told self.old }
    {
        match self.crew.rings.recv_as::<Hears, R>(rt, &mut self.pass) {
            Ok(Ring(())) => {}
            // The crew has the other end, too.
            Err(_) => never(rt),
        }
    }
}
