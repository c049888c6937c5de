//! Laws of the owner and its workers, as a machine. Each is the contract of a function that does nothing. Of the
//! running code it is proved that the word is what the steps of the threads make of it, that a step of
//! [`Counts`](crate::Counts) is the machine's, which of them each call takes, and that its rings are as the machine's.
//! That the threads make the moves on the relay, the channel of pieces and the board, and in the machine's order, isn't
//! proved.

ghost use Rattle.std.specs.Prelude.{◌≡◌, ℕ, ◌+◌, ◌*◌, ◌<◌, ◌≤◌, List, false, length, true};
ghost use Rattle.redo_crew.specs.Word.{IsKept, most_workers, out_for_each, places};
ghost use Rattle.redo_crew.specs.Runs.{AreOwn, CanMove, IsOwn, Leads, Move, State, cost, opening, out};
ghost use Rattle.redo_crew.specs.Bell.{Act, Belled, Brings, CanAct, IsOwnAct, moves_of, opened};
ghost use Rattle.redo_crew.specs.Runs.Move.{Pick_up, Return, Send, Steal, Wake};
ghost use Rattle.redo_crew.specs.Runs.Stage.{Claims, Ended};

/// However the steps of the threads fall, there are no more of them than the opening costs: nine for each job that may
/// be given, one for each worker, and two.
pub fn each_run_is_bounded()
    ensures costs { (workers ready left : ℕ) (moves : List Move) (s : State) →
        Leads (workers * out_for_each) moves (opening workers ready left) s →
        length moves + cost s ≤ cost (opening workers ready left) }
    ensures most { (workers ready left : ℕ) (moves : List Move) (s : State) →
        Leads (workers * out_for_each) moves (opening workers ready left) s →
        length moves ≤ 9 * left + workers + 2 }
{}

/// From each state that a run leads to, but the last, some move leads on that isn't a refusal.
pub fn nobody_is_stuck()
    ensures { (workers ready left : ℕ) (moves : List Move) (s : State) → ready ≤ left →
        Leads (workers * out_for_each) moves (opening workers ready left) s → (s.stage ≡ Ended → ⊥) →
        (move : Move) × IsOwn move × CanMove (workers * out_for_each) move s }
{}

/// At each moment, if more jobs wait than workers look or are called, each sleeper is called and each worker is
/// started.
pub fn no_wake_up_is_lost()
    ensures { (workers ready left : ℕ) (moves : List Move) (s : State) → workers ≤ most_workers →
        Leads (workers * out_for_each) moves (opening workers ready left) s → IsKept s.word }
{}

/// A worker that sends a piece finds room, in a channel with so many places.
pub fn nobody_waits_for_room()
    ensures { (workers ready left : ℕ) (moves : List Move) (s : State) → workers ≤ most_workers →
        Leads (workers * out_for_each) moves (opening workers ready left) s →
        CanMove (workers * out_for_each) Send s → s.pieces < places }
{}

/// Whoever has a right to a job finds one in the relay, the owner as well as a worker.
pub fn what_is_claimed_is_there()
    ensures owner { (workers ready left : ℕ) (moves : List Move) (s : State) →
        Leads (workers * out_for_each) moves (opening workers ready left) s → s.stage ≡ Claims →
        CanMove (workers * out_for_each) Pick_up s }
    ensures worker { (workers ready left : ℕ) (moves : List Move) (s : State) →
        Leads (workers * out_for_each) moves (opening workers ready left) s → 0 < s.claiming →
        CanMove (workers * out_for_each) Steal s }
{}

/// Until the run is over, each worker is started or not; each that is started looks, sleeps or holds a job; and each
/// that holds one has a right to it, is at it, or is about to come back from it. Over or not, whoever has a right to
/// a job or is at one is there.
pub fn each_worker_is_counted()
    ensures started { (workers ready left : ℕ) (moves : List Move) (s : State) →
        Leads (workers * out_for_each) moves (opening workers ready left) s → s.word.over ≡ false →
        s.present + s.word.unborn ≡ workers }
    ensures present { (workers ready left : ℕ) (moves : List Move) (s : State) →
        Leads (workers * out_for_each) moves (opening workers ready left) s → s.word.over ≡ false →
        s.word.looking + s.word.asleep + s.word.holding ≡ s.present }
    ensures holding { (workers ready left : ℕ) (moves : List Move) (s : State) →
        Leads (workers * out_for_each) moves (opening workers ready left) s → s.word.over ≡ false →
        s.word.holding ≡ s.claiming + s.busy + s.back }
    ensures working { (workers ready left : ℕ) (moves : List Move) (s : State) →
        Leads (workers * out_for_each) moves (opening workers ready left) s → s.claiming + s.busy ≤ s.present }
{}

/// Until the run is over, a worker that has sent its piece may look for the next job.
pub fn who_has_sent_may_look()
    ensures { (workers ready left : ℕ) (moves : List Move) (s : State) →
        Leads (workers * out_for_each) moves (opening workers ready left) s → s.word.over ≡ false → 0 < s.back →
        CanMove (workers * out_for_each) Return s }
{}

/// A run in which nothing is refused ends with each job taken, advanced and handed in, and with none that is ready.
pub fn what_is_given_is_taken()
    ensures { (workers ready left : ℕ) (moves : List Move) (s : State) → AreOwn moves →
        Leads (workers * out_for_each) moves (opening workers ready left) s → s.stage ≡ Ended →
        (out s ≡ 0) × (s.queued ≡ 0) × (s.ready ≡ 0) }
{}

/// The machine with its bell makes the machine's moves, and no others; it gets on wherever the machine does; and there
/// are at most three acts for each move that a run may have.
pub fn the_bell_stops_nobody()
    ensures moves { (workers ready left : ℕ) (acts : List Act) (b : Belled) →
        Brings (workers * out_for_each) acts (opened workers ready left) b →
        Leads (workers * out_for_each) (moves_of acts) (opening workers ready left) b.state }
    ensures goes_on { (workers ready left : ℕ) (acts : List Act) (b : Belled) → ready ≤ left →
        Brings (workers * out_for_each) acts (opened workers ready left) b → (b.state.stage ≡ Ended → ⊥) →
        (act : Act) × IsOwnAct act × CanAct (workers * out_for_each) act b }
    ensures bounded { (workers ready left : ℕ) (acts : List Act) (b : Belled) →
        Brings (workers * out_for_each) acts (opened workers ready left) b →
        length acts ≤ 3 * (9 * left + workers + 2) }
{}

/// Until the run is over, each call of the word is one ring: the owner is about to send it, it lies in the channel, or a
/// sleeper has heard it and is about to wake. Then each sleeper that hasn't left has one.
pub fn each_call_is_a_ring()
    ensures going { (workers ready left : ℕ) (acts : List Act) (b : Belled) →
        Brings (workers * out_for_each) acts (opened workers ready left) b → b.state.word.over ≡ false →
        b.state.word.calls ≡ b.owed + b.rings + b.heard }
    ensures over { (workers ready left : ℕ) (acts : List Act) (b : Belled) →
        Brings (workers * out_for_each) acts (opened workers ready left) b → b.state.word.over ≡ true →
        b.state.word.asleep ≡ b.owed + b.rings + b.heard + b.gone }
{}

/// Until the run is over, whoever has heard a ring may wake.
pub fn who_has_heard_may_wake()
    ensures { (workers ready left : ℕ) (acts : List Act) (b : Belled) →
        Brings (workers * out_for_each) acts (opened workers ready left) b → b.state.word.over ≡ false → 0 < b.heard →
        CanMove (workers * out_for_each) Wake b.state }
{}

/// There is room for each ring, and behind each ring in the channel somebody sleeps who has heard none.
pub fn each_ring_is_heard()
    ensures room { (workers ready left : ℕ) (acts : List Act) (b : Belled) → workers ≤ most_workers →
        Brings (workers * out_for_each) acts (opened workers ready left) b → 0 < b.owed → b.rings < most_workers }
    ensures sleeper { (workers ready left : ℕ) (acts : List Act) (b : Belled) →
        Brings (workers * out_for_each) acts (opened workers ready left) b → 0 < b.rings →
        b.heard + b.gone < b.state.word.asleep }
{}
