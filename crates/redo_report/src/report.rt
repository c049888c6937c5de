//! What a build came to, as data: rows, files and begun scripts. Records and contents are shared, not copied.
use redo_path::Path;
use redo_record::{Outcome, Record};
use redo_tree::Content;
use std::sync::Arc;

/// A needed target or a requested source.
#[derive(Drop)]
pub struct Row {
    pub path: Path,
    pub outcome: Outcome,
    /// The record, also of a target that failed or is cyclic; empty for a source.
    pub deps: Arc<Record>,
}

/// What a build came to, each list in ascending order of paths.
#[derive(Drop)]
pub struct Report {
    /// The needed targets and the requested sources.
    pub rows: Vec<Row>,
    /// The targets that were built with a file, with its bytes.
    pub files: Vec<(Path, Content)>,
    /// The targets whose script was begun.
    pub begun: Vec<Path>,
}
