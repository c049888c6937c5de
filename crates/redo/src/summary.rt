//! What is told of a build's files.

use redo_report::Report;
use redo_run::is_unchanged;
use redo_tree::Tree;
use std::fmt;
use std::fmt::{Display, Formatter};

/// How many files of a report without the new book came out otherwise than the tree has them.
pub(crate) fn written(report: &Report, tree: &Tree) -> u64 {
    let mut count = 0u64;
    for file in &report.files {
        if !is_unchanged(tree, file) {
            count = count.saturating_add(1);
        }
    }
    count
}

/// A number, with a noun in its number.
#[derive(Clone, Copy, Drop)]
pub(crate) struct Counted(pub(crate) u64, pub(crate) &'static str);

impl Display for Counted {
    fn fmt<W: fmt::Write>(&self, f: &mut Formatter<W>) -> fmt::Result {
        let Counted(number, noun) = self;
        let plural = if *number == 1 { "" } else { "s" };
        write!(f, "{number} {noun}{plural}")
    }
}
