//! The files that are digested before the two books are compared with them.

use redo_book::{Book, BookRecord};
use redo_tree::Tree;
use std::alloc::{AllocError, Global};

/// Marks the file at a record's target, if the record has a digest of it.
fn name_target(named: &mut [bool], tree: &Tree, made: &BookRecord) {
    if made.state.is_none() {
        return;
    }
    if let Some(number) = tree.number_of(&made.target) {
        if let Some(is_named) = named.get_mut(number) {
            *is_named = true;
        }
    }
}

/// Which files of a tree one of two books has digests of as its targets, by their numbers in the tree. Each of them is
/// compared with its digests, so they are digested once before.
pub(crate) fn targets_named(
    alloc: Global,
    tree: &Tree,
    journal: &Book,
    old: &Book,
) -> Result<Vec<bool>, AllocError> {
    let mut named = Vec::new(alloc);
    named.resize(tree.len(), false)?;
    for made in journal.records() {
        name_target(&mut named, tree, made);
    }
    for made in old.records() {
        name_target(&mut named, tree, made);
    }
    Ok(named)
}
