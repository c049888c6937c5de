//! Diagnoses of one fault, which several targets have: they share a rule.

use crate::diagnosis::{Diagnosis, Place};
use std::alloc::{AllocError, Global};

/// The diagnoses that say the same of the same place.
#[derive(Clone, Copy)]
pub(crate) struct Group<'a> {
    /// The one whose target comes first.
    pub(crate) first: &'a Diagnosis,
    /// How many others there are.
    pub(crate) others: usize,
    /// How many targets wait behind all of these.
    pub(crate) waiting: usize,
}

/// Whether two places are the same.
fn is_same_place(one: &Place, other: &Place) -> bool {
    one.line == other.line
        && one.column == other.column
        && one.length == other.length
        && one.file.text() == other.file.text()
}

/// Whether two diagnoses say the same of the same place.
fn is_same(one: &Diagnosis, other: &Diagnosis) -> bool {
    let (Some(place), Some(other_place)) = (&one.place, &other.place) else {
        return false;
    };
    one.why == other.why
        && is_same_place(place, other_place)
        && one.message.as_slice() == other.message.as_slice()
        && one.help.as_slice() == other.help.as_slice()
}

/// Adds a diagnosis to the group that says the same, or as one of its own.
fn add<'a>(groups: &mut Vec<Group<'a>>, diagnosis: &'a Diagnosis) -> Result<(), AllocError> {
    for group in groups.iter_mut() {
        if is_same(group.first, diagnosis) {
            group.others = group.others.saturating_add(1);
            group.waiting = group.waiting.saturating_add(diagnosis.waiting);
            return Ok(());
        }
    }
    groups.push(Group {
        first: diagnosis,
        others: 0,
        waiting: diagnosis.waiting,
    })?;
    Ok(())
}

/// The groups of some diagnoses, in the order of their first.
pub(crate) fn groups_of<'a>(
    alloc: Global,
    diagnoses: &'a [Diagnosis],
) -> Result<Vec<Group<'a>>, AllocError> {
    let mut groups = Vec::new(alloc);
    for diagnosis in diagnoses {
        add(&mut groups, diagnosis)?;
    }
    Ok(groups)
}
