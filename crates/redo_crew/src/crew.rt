//! What owner and workers share.

ghost use Rattle.std.specs.Prelude.{◌≡◌};
ghost use Rattle.crossbeam_channel.specs.Ends.{receives_on, sends_on};

use crate::bell::{Clapper, Rings};
use crate::counts::Counts;
use crate::word::Word;
use std::hint::spin_loop;

/// How often a worker looks for a job before it sleeps: for some microseconds, and never yielding its processor, which
/// beside busy processes would give a whole slice away.
const LOOKS: u32 = 100;

/// What owner and workers share: the word, and the bell by which sleepers are called.
#[derive(Drop)]
pub struct Crew {
    pub(crate) word: Word,
    pub(crate) clapper: Clapper,
    pub(crate) rings: Rings,
    ghost one_word: { word.shared.table_id.words ≡ 1 },
    ghost one_bell: { receives_on rings ≡ sends_on clapper },
}

impl Crew {
    /// Looks until a job waits or the run is over, but not for long.
    pub(crate) fn spin(&self) {
        'looks: for _ in 0..LOOKS {
            let counts = Counts::of(self.word.shared.peek(0));
            if counts.waiting > 0 || counts.over {
                return;
            }
            spin_loop();
        }
    }
}
