//! Three kinds of notes.

ghost use Rattle.std.specs.Prelude.{◌≡◌, ◌↔◌, [], IsTrue};

use redo_path::Path;

/// A file that counts as a source although a rule would make it: by the book no run left it so.
#[derive(Debug, Drop)]
pub struct Unbuilt {
    pub path: Path,
    /// The .do file of the rule.
    pub do_file: Path,
    /// Whether the book has a record of it, as it was left once.
    pub recorded: bool,
}

/// What is stale after a build, or soon will be. Each list is in path order.
#[derive(Debug, Drop)]
pub struct Notes {
    /// Sources that were asked for and have a rule.
    pub unbuilt: Vec<Unbuilt>,
    /// Targets that were built without a file now, and whose file of an earlier run stays.
    pub unmade: Vec<Path>,
    /// Targets of the last run whose file stays as it left it, and that no rule makes any more.
    pub ruleless: Vec<Path>,
}

impl Notes {
    /// Whether there is no note.
    pub fn is_empty(&self) -> bool
        ensures { IsTrue result ↔ ((self.now.unbuilt.items ≡ []) × (self.now.unmade.items ≡ []) × (self.now.ruleless.items ≡ [])) }
    {
        self.unbuilt.is_empty() && self.unmade.is_empty() && self.ruleless.is_empty()
    }
}
