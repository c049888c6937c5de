//! Where a script stopped.

use crate::scope::Values;

/// A branch of an `if`.
#[derive(Clone, Copy, Debug, PartialEq, Eq)]
pub(crate) enum Branch {
    First,
    Second,
}

/// A place among statements: before the statement at this index, at a place within a branch of it, or at a place within
/// this turn of it if it is a loop, whose words have these values.
#[derive(Debug, Drop)]
pub(crate) enum StopPlace {
    Before(usize),
    Within(usize, Branch, Box<StopPlace>),
    InTurn(usize, Values, usize, Box<StopPlace>),
}
