//! What it takes to open a board.
ghost use Rattle.std.specs.Prelude.{◌≡◌};
ghost use Rattle.redo_core.specs.Permits.{IsUnused, Uses};

use std::alloc::Global;
use std::marker::Model;

/// Allows so many boards to be opened, in this memory. A board begins each script once; so does whatever is handed a
/// permit for one.
///
/// Only who has the program's runtime can make one: `main`, or a test. A function that is generic in its runtime can't,
/// and no permit can be copied. In a contract it is how many boards may still be opened.
#[derive(Drop)]
pub struct Permit {
    alloc: Global,
    /// Contracts alone read it.
    boards: u64,
}

impl Model for Permit {
    ghost use Rattle.std.specs.Prelude.{ℕ};

    ghost Value = { ℕ };

    ghost view = { λ p. p.boards };
}

impl Permit {
    /// A permit for so many boards.
    pub fn new(_rt: &HostRuntime, alloc: Global, boards: u64) -> Permit
        ensures { result ≡ boards }
    {
        Permit { alloc, boards }
    }

    /// The memory of the boards, and of all that goes with them.
    pub fn alloc(&self) -> Global {
        self.alloc
    }

    /// Allows a board fewer.
    pub(crate) fn use_once(&mut self)
        requires { IsUnused self.old }
        ensures { Uses self.old self.new }
    {
        self.boards -= 1;
    }
}
