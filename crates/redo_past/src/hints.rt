//! Which record a book has of what a tree has at a path, as a guess.

use std::alloc::{AllocError, Global};

/// Stands for no guess.
const NONE: u32 = u32::MAX;

/// A guess for each number of a tree: the index of the record in the book whose target stands there. Nothing is claimed
/// of a guess. Compare the record's target before you use it, and search the book if it is another.
#[derive(Drop)]
pub(crate) struct RecordHints {
    indices: Vec<u32>,
}

impl RecordHints {
    /// No guesses, for a tree of so many entries.
    pub(crate) fn new(alloc: Global, entries: usize) -> Result<RecordHints, AllocError> {
        let mut indices = Vec::new(alloc);
        indices.resize(entries, NONE)?;
        Ok(RecordHints { indices })
    }

    /// Notes the index of the record whose target has this number in the tree.
    pub(crate) fn note(&mut self, number: usize, index: usize) {
        if let (Some(place), Ok(index)) = (self.indices.get_mut(number), u32::try_from(index)) {
            *place = index;
        }
    }

    /// The index that was noted for a number, if any.
    pub(crate) fn index_for(&self, number: usize) -> Option<usize> {
        match self.indices.get(number) {
            Some(index) if *index != NONE => Some(*index as usize),
            _ => None,
        }
    }
}
