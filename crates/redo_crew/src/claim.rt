//! The right to a job.

/// The right to one job that waits in the relay. It comes of the step by which a thread takes one of the waiting jobs for
/// its own, and can't be copied. Whoever has it finds a job there.
#[derive(Drop)]
pub struct Claim(());

impl Claim {
    /// For a thread that has taken such a step.
    pub(crate) fn by_step() -> Claim {
        Claim(())
    }
}
