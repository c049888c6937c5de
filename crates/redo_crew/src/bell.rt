//! The bell: a channel of rings, under the rule that each ring that was sent lies in it or was heard.

ghost use Rattle.std.specs.Prelude.{◌≡◌};

use crossbeam_channel::protocol::{Lesson, Outcome, Protocol, Split};
use crossbeam_channel::{Pass, RuledReceiver, RuledSender};

/// A ring on its way to a sleeper.
#[derive(Drop)]
pub struct Ring(pub(crate) ());

/// How many rings a thread has sent and heard. No value of it is made.
pub struct Tally {
    pub sent: u64,
    pub heard: u64,
}

/// Each ring that was sent lies in the channel or was heard.
pub struct Even;

impl Protocol<Ring, Tally> for Even {
    ghost use Rattle.redo_crew.specs.Tally.{IsEven, tally};

    ghost holds = { IsEven };

    ghost first = { tally 0 0 };
}

/// A ring more was sent.
pub(crate) struct Sends;

impl Outcome<Ring, Tally> for Sends {
    ghost use Rattle.std.specs.Prelude.{◌≡◌, ◌+◌};
    ghost use Rattle.redo_crew.specs.Tally.{tally};

    ghost then = { λ v x w. w ≡ tally (v.sent + 1) v.heard };
}

impl Lesson<Ring, Tally> for Sends {
    ghost use Rattle.std.specs.Prelude.{⊤};

    ghost fact = { λ v items. ⊤ };
}

/// A ring more was heard.
pub(crate) struct Hears;

impl Outcome<Ring, Tally> for Hears {
    ghost use Rattle.std.specs.Prelude.{◌≡◌, ◌+◌};
    ghost use Rattle.redo_crew.specs.Tally.{tally};

    ghost then = { λ v x w. w ≡ tally v.sent (v.heard + 1) };
}

impl Lesson<Ring, Tally> for Hears {
    ghost use Rattle.std.specs.Prelude.{⊤};

    ghost fact = { λ v items. ⊤ };
}

/// A pass for one thread more, which has sent and heard nothing.
pub(crate) struct Enters;

impl Split<Tally> for Enters {
    ghost use Rattle.redo_crew.specs.Tally.{tally};

    ghost left = { λ v. v };

    ghost right = { λ v. tally 0 0 };
}

/// Where rings are sent.
pub(crate) type Clapper = RuledSender<Ring, Tally, Even>;

/// Where sleepers wait for one.
pub(crate) type Rings = RuledReceiver<Ring, Tally, Even>;

/// A thread's pass to the bell.
pub type BellPass = Pass<Ring, Tally>;
