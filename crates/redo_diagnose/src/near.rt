//! Names that are near to a word.

use std::alloc::{AllocError, Global};
use strsim::generic_damerau_levenshtein;

/// At most so many edits lead to a word that is near.
const MOST_EDITS: usize = 4;

/// How many edits a word may be away, of which one may be two bytes in the wrong order: one for each three bytes that it
/// has, but at least one; none if it has a single byte.
fn reach(word: &[u8]) -> usize {
    match word.len() {
        0 | 1 => 0,
        length => (length / 3).clamp(1, MOST_EDITS),
    }
}

/// What is left of two words without the bytes with which both begin, and then those in which both end: as many edits
/// lead from one to the other.
fn differing<'a, 'b>(one: &'a [u8], other: &'b [u8]) -> (&'a [u8], &'b [u8]) {
    let mut left = one;
    let mut right = other;
    while let ([a, left_rest @ ..], [b, right_rest @ ..]) = (left, right)
        && *a == *b
    {
        left = left_rest;
        right = right_rest;
    }
    while let ([left_rest @ .., a], [right_rest @ .., b]) = (left, right)
        && *a == *b
    {
        left = left_rest;
        right = right_rest;
    }
    (left, right)
}

/// The first of these words to which the fewest edits lead, if that is few.
pub(crate) fn nearest_word<'a>(
    alloc: Global,
    word: &[u8],
    names: &[&'a [u8]],
) -> Result<Option<&'a [u8]>, AllocError> {
    let reach = reach(word);
    let mut least = usize::saturating_add(reach, 1);
    let mut found = None;
    for name in names {
        let name = *name;
        let (left, right) = differing(word, name);
        // A longer stretch in which they differ is no slip, and would take long to compare where there are many names.
        if left.len().max(right.len()) <= usize::saturating_mul(reach, 2) {
            let edits = generic_damerau_levenshtein(alloc, left, right)?;
            if edits < least {
                least = edits;
                found = Some(name);
            }
        }
    }
    Ok(found)
}
