//! The invariant of a relay's queue, whatever its users do.
ghost use Rattle.std.specs.Prelude.{◌≡◌, ℕ};
ghost use Rattle.redo_path.specs.declared.Path.{Path};

use crossbeam_deque::protocol::{Join, Outcome, Protocol, Split};
use redo_path::Path;
use std::collections::LinkedList;

/// What a relay passes on: the job of a target at a turn. The ledger tells jobs apart by these two.
pub trait Numbered {
    /// The target and the turn.
    ghost number: { Self → Path × ℕ };

    /// The target that the job belongs to.
    fn target(&self) -> &Path
        ensures { result.now ≡ (number self.now).0 };

    /// How often the job has stopped so far.
    fn turn(&self) -> u64
        ensures { result ≡ (number self.now).1 };
}

/// What a user of the queue knows: its parts of the right to know the whole, and the numbers of the jobs that it gave,
/// took and found left. No value of this type is made: it is how contracts see a pass.
pub(crate) struct Hand {
    pub parts: u64,
    pub given: LinkedList<(Path, u64)>,
    pub taken: LinkedList<(Path, u64)>,
    pub left: LinkedList<(Path, u64)>,
}

/// The invariant: what was given is what was taken, what was found left and what the queue holds.
pub(crate) struct ShareOut;

impl<T: Numbered> Protocol<T, Hand> for ShareOut {
    ghost use Rattle.std.specs.Prelude.{[]};
    ghost use Rattle.redo_sync.specs.inside.Rule.{hand, Balanced};

    ghost holds = { Balanced T.number };

    ghost first = { hand 66 [] [] [] };

    ghost guest = { hand 0 [] [] [] };
}

/// A job is given.
pub(crate) struct Give;

impl<T: Numbered> Outcome<T, Hand> for Give {
    ghost use Rattle.std.specs.Prelude.{◌≡◌, ◌++◌, map};
    ghost use Rattle.redo_sync.specs.inside.Rule.{hand};

    ghost then = { λ v xs w. w ≡ hand v.parts (v.given ++ map T.number xs) v.taken v.left };
}

/// A job is taken.
pub(crate) struct Take;

impl<T: Numbered> Outcome<T, Hand> for Take {
    ghost use Rattle.std.specs.Prelude.{◌≡◌, ◌++◌, map};
    ghost use Rattle.redo_sync.specs.inside.Rule.{hand};

    ghost then = { λ v xs w. w ≡ hand v.parts v.given (v.taken ++ map T.number xs) v.left };
}

/// One part is split off for a new user, or comes back with what that user knows.
pub(crate) struct Cut;

impl Split<Hand> for Cut {
    ghost use Rattle.std.specs.Prelude.{◌-◌, []};
    ghost use Rattle.redo_sync.specs.inside.Rule.{hand};

    ghost left = { λ v. hand (v.parts - 1) v.given v.taken v.left };

    ghost right = { λ v. hand 1 [] [] [] };
}

impl Join<Hand> for Cut {
    ghost use Rattle.std.specs.Prelude.{◌+◌, ◌++◌, []};
    ghost use Rattle.redo_sync.specs.inside.Rule.{hand};

    ghost both = { λ v w. hand (v.parts + w.parts) (v.given ++ w.given) (v.taken ++ w.taken) (v.left ++ w.left) };

    ghost spent = { hand 0 [] [] [] };
}

/// A job is found left. A user with all parts learns that fewer are pending or, on finding none, that all are accounted
/// for.
pub(crate) struct Drain;

impl<T: Numbered> Outcome<T, Hand> for Drain {
    ghost use Rattle.std.specs.Prelude.{◌≡◌, ◌<◌, ◌++◌, map};
    ghost use Rattle.redo_sync.specs.Relay.{SharesOut};
    ghost use Rattle.redo_sync.specs.inside.Rule.{hand, pending};

    ghost then = { λ v xs w.
        (w ≡ hand v.parts v.given v.taken (v.left ++ map T.number xs))
        × (v.parts ≡ 66 → pending w < pending v) };

    ghost empty = { λ v. SharesOut v.given v.taken v.left };
}
