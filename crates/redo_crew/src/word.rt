//! The word, and what each thread did to it.
//!
//! A thread keeps a mark at the word. It has no bytes, and remembers how often the thread took each step and what it saw
//! last. The rule is that the word is what the steps of all threads make of the first word.

use crate::counts::Step;
use atomic_table::{Play, Seat, Split, Table, TableRule};
use std::alloc::Global;

/// How often a thread took each step. No value of it is made.
pub struct Steps {
    pub spare: u64,
    pub call: u64,
    pub hire: u64,
    pub claim: u64,
    pub take: u64,
    pub rest: u64,
    pub wake: u64,
    pub back: u64,
    pub end: u64,
}

/// What a thread did to the word: its steps, how often it looked, and the word that it saw last, before what it did to
/// it. No value of it is made.
pub struct Track {
    pub steps: Steps,
    pub looks: u64,
    pub last: u64,
}

/// The word is what the steps of all threads make of the first word, of so many workers.
pub struct Recorded;

impl TableRule<Step, Track, u8> for Recorded {
    ghost use Rattle.redo_crew.specs.Tracks.{IsRecorded, fresh};

    ghost holds = { IsRecorded };

    ghost first = { λ _. fresh };
}

/// A look.
pub(crate) struct Looks;

impl Play<Step, Track> for Looks {
    ghost use Rattle.redo_crew.specs.Tracks.{HasSeen};

    ghost then = { HasSeen };
}

/// A try of the step that is named, from the word as it was seen.
pub(crate) struct Tries;

impl Play<Step, Track> for Tries {
    ghost use Rattle.redo_crew.specs.Tracks.{HasTried};

    ghost then = { HasTried };
}

/// A mark for one thread more, which has done nothing.
pub(crate) struct Joins;

impl Split<Track> for Joins {
    ghost use Rattle.redo_crew.specs.Tracks.{fresh};

    ghost left = { λ t. t };

    ghost right = { λ t. fresh };
}

/// The word under its rule.
pub type Word = Table<Step, Track, u8, Recorded, Global>;

/// A thread's mark at the word.
pub type Mark = Seat<Step, Track>;
