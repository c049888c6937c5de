//! Which jobs are worth a worker.
//!
//! To hand a job on costs some microseconds, and beside busy processes a worker may come to it much later. So short
//! scripts stay with the owner. A job is expected to take long if its script, or a file that it asked for, is large, or
//! if the script that was handed in last has made a large file or read a large source.
//!
//! Others can take long only by their loops. How long a loop takes its text doesn't say, and a run has no clock. But it
//! takes a sleeper some time to wake up. So now and then, while many jobs wait, one with loops is tried:
//! a sleeper is called for it. If it is back with the piece before the owner has advanced more than two jobs itself, then
//! these are long enough, and the next ones with loops are offered. If not, the owner tries again after twice as many.
//! The first time a few are tried at once, so that a build of long ones begins on several workers. No report depends on
//! any of it.

use redo_core::work::{Piece, Work};

/// A job takes long if it reads or makes so many bytes.
const LONG: usize = 4096;

/// Once so many jobs in turn were short, only one of eight is looked at: to look costs a search by path.
const LITTLE: u32 = 16;

const EACH: u32 = 8;

/// Jobs are tried while at least so many others are ready.
const MANY: usize = 8;

/// At most so many jobs may the owner advance, once all that are tried were offered, or the jobs are short.
const FEW: u32 = 2;

/// So many are tried at the first time. Later it is one at a time: for more than there are workers a trial shows nothing.
const TRIED: u32 = 4;

/// After a trial so many jobs are offered.
const TRUSTED: u32 = 64;

/// So many jobs the owner advances after the first trial that shows that they are short, before it tries again.
const FIRST_PAUSE: u32 = 16;

/// So many after a trial that shows nothing.
const SHORT_PAUSE: u32 = 4;

/// Jobs that are tried.
#[derive(Clone, Copy, Debug, PartialEq, Eq)]
struct Trial {
    /// How many are still to be offered.
    left: u32,
    /// How many were offered and aren't back.
    out: u32,
    /// How many others the owner has advanced itself since it offered the last.
    own: u32,
}

impl Trial {
    /// Whether those that are back have taken long. They have not if the owner has come to none of its own meanwhile.
    fn took_long(self) -> bool {
        0 < self.own && self.own <= FEW
    }
}

/// What the owner knows of how long jobs take.
#[derive(Clone, Copy, Debug, PartialEq, Eq)]
pub(crate) struct Pace {
    /// The script that was handed in last has made a large file or read a large source.
    was_long: bool,
    /// How many jobs in turn are not known to read much or to have loops.
    little: u32,
    /// The job that was given last was looked at.
    is_looked_at: bool,
    /// So many jobs more are offered.
    trusted: u32,
    trial: Option<Trial>,
    /// How many jobs more the next trial tries at once.
    more: u32,
    /// How many it advances until the next trial.
    pause: u32,
    next_pause: u32,
}

impl Pace {
    /// Before the first job.
    pub fn new() -> Pace {
        Pace {
            was_long: false,
            little: 0,
            is_looked_at: false,
            trusted: 0,
            trial: None,
            more: TRIED - 1,
            pause: 0,
            next_pause: FIRST_PAUSE,
        }
    }

    /// Whether a worker is to have a job, while so many others are ready and out.
    pub fn is_for_worker(&mut self, work: &Work, ready: usize, out: usize) -> bool {
        if self.was_long {
            return true;
        }
        if !self.looks() {
            return false;
        }
        if work.reads(LONG) {
            self.little = 0;
            return true;
        }
        if !work.loops_long() {
            return false;
        }
        self.little = 0;
        self.is_offered(ready, out)
    }

    /// Whether the next job is looked at.
    fn looks(&mut self) -> bool {
        self.is_looked_at = self.little < LITTLE || self.little % EACH == 0;
        self.little = self.little.wrapping_add(1);
        self.is_looked_at
    }

    /// Whether a job with loops is offered: it is tried, or those before took long.
    fn is_offered(&mut self, ready: usize, out: usize) -> bool {
        if self.tries_another() {
            return true;
        }
        if self.trusted > 0 {
            self.trusted -= 1;
            return true;
        }
        let tries = ready >= MANY && out == 0 && self.pause == 0;
        if tries {
            self.trial = Some(Trial {
                left: self.more,
                out: 1,
                own: 0,
            });
            self.more = 0;
        }
        tries
    }

    /// Whether the job is one more that is tried.
    fn tries_another(&mut self) -> bool {
        match &mut self.trial {
            Some(trial) if trial.left > 0 => {
                trial.left -= 1;
                trial.out = trial.out.saturating_add(1);
                trial.own = 0;
                true
            }
            _ => false,
        }
    }

    /// A job that is tried was left to a worker that was awake, or came to nobody: it shows nothing.
    pub fn forget_trial(&mut self) {
        if self.trial.is_some() {
            self.trial = None;
            self.pause = SHORT_PAUSE;
        }
    }

    /// The owner has advanced a job itself.
    pub fn advanced(&mut self) {
        self.pause = self.pause.saturating_sub(1);
        if let Some(trial) = &mut self.trial {
            trial.own = trial.own.saturating_add(1);
        }
    }

    /// A worker is back with a piece.
    pub fn came_back(&mut self) {
        let Some(trial) = self.trial.take() else {
            return;
        };
        let out = trial.out.saturating_sub(1);
        if out > 0 {
            self.trial = Some(Trial { out, ..trial });
        } else if trial.took_long() {
            self.trusted = TRUSTED;
            self.next_pause = FIRST_PAUSE;
        } else {
            self.pause = self.next_pause;
            self.next_pause = self.next_pause.saturating_mul(2);
        }
    }

    /// A piece was handed in. Of a short one in turn its sources are looked at only if its job was.
    pub fn handed_in(&mut self, piece: &Piece) {
        let has_made = piece.file().is_some_and(|bytes| bytes.len() >= LONG);
        let looks = self.was_long || self.is_looked_at;
        self.was_long = has_made || looks && piece.has_large_source(LONG);
        if self.was_long {
            self.little = 0;
        }
    }
}
