//! Who may take a job out of the relay.

ghost use Rattle.std.specs.Prelude.{◌≡◌, ◌++◌, ◌∷◌, [], OnOk};

use redo_crew::Claim;
use redo_sync::{JobSource, Numbered};
use std::alloc::AllocError;

/// The right to one job of the relay. A thread has it that claimed a job among those that were offered, or that gave one
/// which isn't offered to anybody. It can't be copied, and is used up when the job is taken.
#[derive(Drop)]
pub(crate) struct Right(());

impl Right {
    /// That of a thread which claimed a job.
    pub fn by_claim(_claim: Claim) -> Right {
        Right(())
    }

    /// Gives a job to the relay. Whoever gave it has the right to it, until it is offered to others.
    pub fn by_giving<J: Numbered + Drop>(
        source: &mut JobSource<J>,
        job: J,
    ) -> Result<Right, AllocError>
        ensures same { (source.new.relay ≡ source.old.relay) × (source.new.takers ≡ source.old.takers) }
        ensures given { OnOk result (source.new.given ≡ source.old.given ++ J.number job ∷ []) }
    {
        match source.give(job) {
            Ok(()) => Ok(Right(())),
            Err((_job, error)) => Err(error),
        }
    }
}
