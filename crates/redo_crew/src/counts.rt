//! The counts that owner and workers share in one word, and the steps from one word to the next.

ghost use Rattle.std.specs.Prelude.{◌≡◌, ◌↔◌, ◌≤◌, IfNone, IfSome, IsTrue, true};
ghost use Rattle.redo_crew.specs.Word.{AreAllUp, HasRoom, IsKept, IsNext, IsOffer, IsOpen, after, counts_of, first, most_workers};

/// At most this many workers.
pub const MOST_WORKERS: u8 = 64;

/// How many jobs may be out for each worker: one that it advances, and one that waits for it.
pub const OUT_FOR_EACH: u8 = 2;

/// How many jobs may be out in all, and so how many pieces may be on their way.
pub const PLACES: u8 = 128;

/// How many jobs wait, and how many workers are at what.
#[derive(Clone, Copy, Debug, PartialEq, Eq)]
pub struct Counts {
    /// Jobs that were offered and that nobody has a right to.
    pub waiting: u8,
    /// Workers that look for a job.
    pub looking: u8,
    /// Workers that sleep, those that were called among them.
    pub asleep: u8,
    /// Calls that no sleeper has heard.
    pub calls: u8,
    /// Workers that have a right to a job, and aren't back from it.
    pub holding: u8,
    /// Workers whose thread isn't started.
    pub unborn: u8,
    /// Whether the run is over.
    pub over: bool,
}

/// What changes the counts. No other thread divides a step.
#[derive(Clone, Copy, Debug, PartialEq, Eq)]
pub enum Step {
    /// The owner offers a job for which enough workers look or are called, or for which there is nobody.
    Spare,
    /// It offers a job, and calls a sleeper.
    Call,
    /// It offers a job, and starts a worker.
    Hire,
    /// It takes the right to a job that waits.
    Claim,
    /// A worker that looks takes the right to a job.
    Take,
    /// It finds no job, and goes to sleep.
    Rest,
    /// It hears a call.
    Wake,
    /// It is back from a job, and looks for the next.
    Return,
    /// The owner ends the run.
    End,
}

impl Counts {
    /// Before the first step, with so many workers.
    pub(crate) fn first(workers: u8) -> Counts
        requires { workers ≤ most_workers }
        ensures first { result ≡ first workers }
        ensures kept { IsKept result }
    {
        Counts {
            waiting: 0,
            looking: 0,
            asleep: 0,
            calls: 0,
            holding: 0,
            unborn: workers,
            over: false,
        }
    }

    /// The counts in a word: a byte for each.
    pub(crate) fn of(word: u64) -> Counts
        ensures { result ≡ counts_of word }
    {
        let [waiting, looking, asleep, calls, holding, unborn, over, _] = word.to_le_bytes();
        Counts {
            waiting,
            looking,
            asleep,
            calls,
            holding,
            unborn,
            over: over != 0,
        }
    }

    /// The word of these counts.
    pub(crate) fn word(self) -> u64
        ensures { counts_of result ≡ self }
    {
        u64::from_le_bytes([
            self.waiting,
            self.looking,
            self.asleep,
            self.calls,
            self.holding,
            self.unborn,
            u8::from(self.over),
            0,
        ])
    }

    /// Whether a step may happen.
    pub fn is_open(self, step: Step) -> bool
        requires { IsKept self }
        ensures { IsTrue result ↔ IsOpen step self }
    {
        !self.over && self.is_next(step)
    }

    /// Whether a step may happen, unless the run is over.
    fn is_next(self, step: Step) -> bool
        requires { IsKept self }
        ensures { IsTrue result ↔ IsNext step self }
    {
        let coming = self.looking + self.calls;
        match step {
            Step::Spare => self.has_room() && (self.waiting < coming || self.are_all_up()),
            Step::Call => self.has_room() && coming <= self.waiting && self.calls < self.asleep,
            Step::Hire => {
                self.has_room()
                    && coming <= self.waiting
                    && self.asleep == self.calls
                    && self.unborn > 0
            }
            Step::Claim => self.waiting > 0,
            Step::Take => self.waiting > 0 && self.looking > 0,
            Step::Rest => self.waiting == 0 && self.looking > 0,
            Step::Wake => self.calls > 0,
            Step::Return => self.holding > 0,
            Step::End => true,
        }
    }

    /// The counts after a step.
    pub fn after(self, step: Step) -> Counts
        requires kept { IsKept self }
        requires open { IsOpen step self }
        ensures after { result ≡ after step self }
        ensures kept { IsKept result }
    {
        let mut next = self;
        match step {
            Step::Spare => next.waiting += 1,
            Step::Call => {
                next.waiting += 1;
                next.calls += 1;
            }
            Step::Hire => {
                next.waiting += 1;
                next.unborn -= 1;
                next.looking += 1;
            }
            Step::Claim => next.waiting -= 1,
            Step::Take => {
                next.waiting -= 1;
                next.looking -= 1;
                next.holding += 1;
            }
            Step::Rest => {
                next.looking -= 1;
                next.asleep += 1;
            }
            Step::Wake => {
                next.calls -= 1;
                next.asleep -= 1;
                next.looking += 1;
            }
            Step::Return => {
                next.holding -= 1;
                next.looking += 1;
            }
            Step::End => next.over = true,
        }
        next
    }

    /// Whether one job more may wait.
    fn has_room(self) -> bool
        ensures { IsTrue result ↔ HasRoom self }
    {
        self.waiting < PLACES
    }

    /// Whether each sleeper is called, and each worker is started.
    fn are_all_up(self) -> bool
        ensures { IsTrue result ↔ AreAllUp self }
    {
        self.asleep == self.calls && self.unborn == 0
    }

    /// The step by which a job is offered; `None` where no job more may wait, or the run is over.
    pub fn offer(self) -> Option<Step>
        requires { IsKept self }
        ensures some { IfSome result (λ step. IsOffer step × IsOpen step self) }
        ensures none { IfNone result (HasRoom self → self.over ≡ true) }
    {
        if self.over || !self.has_room() {
            return None;
        }
        if self.waiting < self.looking + self.calls || self.are_all_up() {
            return Some(Step::Spare);
        }
        if self.calls < self.asleep {
            Some(Step::Call)
        } else {
            Some(Step::Hire)
        }
    }
}
