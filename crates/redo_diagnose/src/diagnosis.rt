//! A diagnosis as data.

use redo_path::Path;
use redo_record::Why;

/// A place in a script.
#[derive(Debug, Drop)]
pub struct Place {
    /// The .do file, from the top.
    pub file: Path,
    /// From 1.
    pub line: u64,
    /// In bytes, from 1.
    pub column: u64,
    /// How many bytes are meant, from the column on.
    pub length: u64,
    /// The line, without its newline.
    pub text: Vec<u8>,
}

/// What is wrong with a target, and what to do.
#[derive(Debug, Drop)]
pub struct Diagnosis {
    pub target: Path,
    /// Why it failed, as its row says.
    pub why: Why,
    /// Where in its script; if it has none, where the script of one that failed because of it asks for it. `None` if there
    /// is no such place.
    pub place: Option<Place>,
    /// What is wrong, in words: text that may be shown, without a newline.
    pub message: Vec<u8>,
    /// What to do, in the same form; empty if the message says it.
    pub help: Vec<u8>,
    /// How many other targets failed because this one did.
    pub waiting: usize,
}

/// The first of a report's diagnoses.
#[derive(Debug, Drop)]
pub struct Diagnosed {
    /// In the order of their targets' paths.
    pub diagnoses: Vec<Diagnosis>,
    /// How many more targets failed, those that wait behind others not counted.
    pub more: usize,
}
