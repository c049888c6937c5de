//! What the command line may ask for.

ghost use Rattle.std.specs.Prelude.{◌≤◌};

use crate::voice::Voice;
use redo_path::Path;
use redo_query::Question;
use redo_step::Limits;

/// Whether a run stores its files, and whether it waits for the disk.
#[derive(Clone, Copy, Debug, PartialEq, Eq)]
pub enum Storing {
    /// It stores nothing.
    Nothing,
    /// It waits for the journal alone.
    Plain,
    /// It waits for each file, too.
    Synced,
}

/// Where the tree is read from.
#[derive(Drop)]
pub enum Input {
    /// A bundle on standard input.
    Bundle,
    /// A directory.
    Directory(String),
}

/// In which form a report is printed, or a list of what is out of date.
#[derive(Clone, Copy, Debug, PartialEq, Eq)]
pub enum Format {
    /// Its own.
    Report,
    /// A few lines: what was built or failed, and the counts. A list has its own form.
    Short,
    /// An object of JSON, without files.
    Json,
    /// A graph for Graphviz; if `true`, with the rules.
    Dot(bool),
    /// A page for a browser.
    Html,
}

/// A build, and what is said of it.
#[derive(Drop)]
pub struct BuildOptions {
    /// The paths that are named. Where there are none, the default target is meant.
    pub targets: Vec<Path>,
    /// How many scripts may run side by side, 1 to 64.
    pub workers: usize,
    pub limits: Limits,
    /// Places at or below which sources that have a rule are taken back.
    pub take: Vec<Path>,
    pub input: Input,
    pub storing: Storing,
    pub format: Format,
    /// Whether each begun script is told with the reason for which it was begun.
    pub explained: bool,
    /// Whether a stale file is a failure.
    pub strict: bool,
    /// What leads from where the user is to the top: nothing, or a path that ends in a slash.
    pub to_top: Vec<u8>,
    /// The directory in which words are read, from the top.
    pub below: Path,
    ghost some_workers: { 1 ≤ workers },
    ghost few_workers: { workers ≤ 64 },
}

/// A list of what is out of date: for which run, and in which form.
#[derive(Drop)]
pub struct Listing {
    /// What the run requests; nothing, where the list is for every run.
    pub targets: Vec<Path>,
    pub input: Input,
    /// How many threads read the tree.
    pub workers: usize,
    pub format: Format,
}

/// A question to the book of a tree.
#[derive(Drop)]
pub struct Query {
    pub question: Question,
    pub input: Input,
    /// How many threads read the tree.
    pub workers: usize,
}

/// A list of a tree's sources that have a rule.
#[derive(Drop)]
pub struct Shadows {
    pub input: Input,
    /// How many threads read the tree.
    pub workers: usize,
}

/// A directory to be printed as a bundle.
#[derive(Drop)]
pub struct Packing {
    pub dir: String,
    /// How many threads read it.
    pub workers: usize,
}

/// A clean of a directory.
#[derive(Drop)]
pub struct Cleaning {
    pub dir: String,
    /// How many threads read it.
    pub workers: usize,
    /// Whether nothing is removed.
    pub dry_run: bool,
    /// Whether it waits until the files are gone from the disk before the book goes.
    pub synced: bool,
}

/// A list, or the removal, of what a build doesn't need.
#[derive(Drop)]
pub struct Dead {
    /// The build, which is tried out.
    pub build: BuildOptions,
    /// Whether the files are removed, not listed.
    pub cleaned: bool,
    /// Whether the removal is only tried out: what would be removed is printed.
    pub dry_run: bool,
    /// Whether it waits for the disk.
    pub synced: bool,
}

/// What the command line asks for.
#[derive(Drop)]
pub struct Call {
    pub action: Action,
    pub voice: Voice,
}

/// What is to be done.
#[derive(Drop)]
pub enum Action {
    Build(BuildOptions),
    Whichdo(Path, Input),
    /// The answer to a question is printed.
    Ask(Query),
    /// What is out of date is printed.
    OutOfDate(Listing),
    /// The sources that have a rule are printed.
    Shadowed(Shadows),
    /// A directory is printed as a bundle.
    Pack(Packing),
    /// A bundle on standard input becomes a directory.
    Unpack(String),
    /// What the previous run left in a directory is removed.
    Clean(Cleaning),
    /// What builds left and a build doesn't need is listed, or removed.
    Dead(Dead),
}
