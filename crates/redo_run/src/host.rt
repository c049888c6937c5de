//! What whoever asks for a run lends to it.

use redo_core::permit::Permit;
use std::alloc::Global;

/// So many boards a run over a directory may open: one in each round of reading.
pub const ROUNDS: u64 = 16;

/// What a run is lent by whoever asks for it: threads, a permit with memory, and who is told of its progress. The permit
/// is for the one board of a run over a tree, or for those of a run over a directory.
#[derive(Drop)]
pub struct Host<'a, H, O> {
    pub rt: &'a H,
    pub permit: Permit,
    pub observer: &'a O,
}

impl<'a, H, O> Host<'a, H, O> {
    /// The memory of the run.
    pub fn alloc(&self) -> Global {
        self.permit.alloc()
    }
}
