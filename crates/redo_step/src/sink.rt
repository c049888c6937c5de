//! Bytes that grow up to a limit.

ghost use Rattle.std.specs.Prelude.{◌≡◌, [], OnOk};
ghost use Rattle.redo_step.specs.inside.Sink.{Holds, Adds};

use std::alloc::AllocError;

/// Bytes that grow up to a limit. What would go past it is dropped, and `is_over` says so.
#[derive(Drop)]
pub(crate) struct Sink {
    pub(crate) bytes: Vec<u8>,
    pub(crate) limit: usize,
    pub(crate) is_over: bool,
}

impl Sink {
    pub(crate) fn new(bytes: Vec<u8>, limit: usize) -> Sink
        ensures holds { Holds bytes.items [] result }
        ensures bytes { result.bytes ≡ bytes }
        ensures limit { result.limit ≡ limit }
    {
        let is_over = bytes.len() > limit;
        Sink {
            bytes,
            limit,
            is_over,
        }
    }

    /// Appends bytes.
    pub(crate) fn add(&mut self, more: &[u8]) -> Result<(), AllocError>
        ensures { OnOk result (Adds more.now self.old self.new) }
    {
        if self.is_over {
            return Ok(());
        }
        if self.limit.saturating_sub(self.bytes.len()) < more.len() {
            self.is_over = true;
            return Ok(());
        }
        self.bytes.extend_from_slice(more)?;
        Ok(())
    }
}
