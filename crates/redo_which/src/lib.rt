//! The search for the script that makes a target, and the arguments of that script.
//!
//! The candidates for a target `D/name` are those that redo-whichdo(1) prints. First comes `D/name.do`. Then come, in
//! `D` and each directory above it, `default<suffix>.do` for each suffix of the name that begins at a dot, longest
//! first, and `default.do`. The first candidate that is a file of the tree is the rule. The search ends at the top
//! directory. Names that end in `.do`, the top directory, and the book ([`BOOK`]) and the journal ([`JOURNAL`]) there
//! have no candidates. A candidate too long for a path is left out, and one that occurs twice keeps its first place
//! only.
//!
//! - here: the result of a search, as plain data;
//! - [`lookup`]: the search; `args`: the arguments of a script;
//! - `missing`: the candidates that are no files, stored as their number;
//! - `lines`: their lines of text, target after target;
//! - `candidate_ref`: a candidate as pieces of its target's text; `candidates`: an iterator over candidates.
#![tactic(auto)]

mod args;
mod candidate_ref;
mod candidates;
mod lines;
pub mod lookup;
mod missing;

pub use args::Args;
pub use candidate_ref::CandidateRef;
pub use candidates::Candidates;
pub use lines::{MissingLines, add_sizes};
pub use missing::{Missing, Tail};
use redo_path::Path;

/// The path of the last run's book. No rule makes it.
pub const BOOK: &[u8] = b".redo-book";

/// The path of the journal, which is the new book while a run stores its files in a directory. No rule makes it.
pub const JOURNAL: &[u8] = b".redo-journal";

/// A .do file that may be a target's rule.
#[derive(Debug, Drop)]
pub struct Candidate {
    /// The path of the .do file.
    pub do_file: Path,
    /// The directory of the .do file, in which the script runs.
    pub dir: Path,
    /// The number of bytes at the end of the target's name that `default<suffix>.do` matches; 0 for `name.do` and
    /// `default.do`.
    pub cut: usize,
}

/// The result of a search for a rule.
#[derive(Debug, Drop)]
pub struct Search {
    /// The candidates before the chosen one, or all if none is chosen. None of them is a file of the tree.
    pub missing: Vec<Path>,
    /// The first candidate that is a file of the tree.
    pub chosen: Option<Candidate>,
}

/// The script that makes a target.
#[derive(Drop)]
pub struct Rule {
    /// The path of the script.
    pub do_file: Path,
    /// The candidates before it. None of them is a file.
    pub missing: Missing,
    /// The arguments of the script.
    pub args: Args,
}

/// What a target is. The first case that holds counts.
#[derive(Drop)]
pub enum Found {
    /// A file of the tree, which is not built.
    Source,
    /// A directory of the tree.
    Directory,
    /// Its parent isn't a directory of the tree.
    NoDirectory,
    /// No candidate is a file.
    NoRule { missing: Missing },
    /// A candidate is a file.
    Rule(Rule),
}
