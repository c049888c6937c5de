//! Sets of paths.

ghost use Rattle.std.specs.Prelude.{◌≡◌, ◌==◌, ◌<◌, ◌^◌, [], ℕ, List, Some, IfNone, IfOk, IfSome, IsTrue, OnErr, OnOk, length};
ghost use Rattle.std.specs.Prelude.{not};
ghost use Rattle.std.specs.Prelude.{slice_get, MatchOption};
ghost use Rattle.redo_names.specs.Paths.{AreDistinct, IsAmong, is_among, with_new, with_path};

use crate::index::{Index, Spot};
use redo_path::Path;
use std::alloc::{AllocError, Global};
use std::marker::Model;

/// Distinct paths in the order of insertion, each with its number, from 0. In a contract it is the list of them. A
/// look-up takes few steps, whatever names the paths have.
#[derive(Drop)]
pub struct PathSet {
    paths: Vec<Path>,
    index: Index,
}

impl Model for PathSet {
    ghost use Rattle.std.specs.Prelude.{List, ℕ};
    ghost use Rattle.redo_names.specs.Paths.{AreDistinct};
    ghost use Rattle.redo_names.specs.inside.Index.{IsIndexOf};

    ghost Value = { List (List ℕ) };

    ghost view = { λ s. s.paths.items };

    ghost invariant = { λ s. IsIndexOf s.index s.paths.items × AreDistinct s.paths.items };
}

impl PathSet {
    /// No paths. Needs no memory.
    pub fn new(alloc: Global) -> PathSet
        ensures { result ≡ [] }
    {
        PathSet {
            paths: Vec::new(alloc),
            index: Index::new(alloc),
        }
    }

    /// No paths, with room for `capacity` of them. The set grows when it gets more.
    pub fn with_capacity(alloc: Global, capacity: usize) -> Result<PathSet, AllocError>
        ensures { IfOk result (λ set. set ≡ []) }
    {
        Ok(PathSet {
            paths: Vec::with_capacity(alloc, capacity)?,
            index: Index::with_capacity(alloc, capacity)?,
        })
    }

    /// The set of these paths, in their order.
    pub fn of_paths(alloc: Global, paths: &[Path]) -> Result<PathSet, AllocError>
        ensures paths { IfOk result (λ set. set ≡ with_new [] paths.now) }
        ensures among { IfOk result (λ set. (p : List ℕ) → is_among set p ≡ is_among paths.now p) }
    {
        let mut set = PathSet::with_capacity(alloc, paths.len())?;
        for path in paths {
            set.insert(path.clone()?)?;
        }
        Ok(set)
    }

    /// How many paths there are.
    pub fn len(&self) -> usize
        ensures count { result ≡ length self.now }
        ensures small { result < 2 ^ 63 }
    {
        self.paths.len()
    }

    pub fn is_empty(&self) -> bool
        ensures { result ≡ (length self.now == 0) }
    {
        self.paths.is_empty()
    }

    /// The paths, each at its number.
    pub fn as_slice(&self) -> &[Path]
        ensures { result.now ≡ self.now }
    {
        self.paths.as_slice()
    }

    /// The path with this number.
    pub fn at(&self, number: usize) -> &Path
        requires { number < length self.now }
        ensures { slice_get self.now number ≡ Some result.now }
    {
        &self.paths[number]
    }

    /// Whether a path is in the set.
    pub fn contains(&self, path: &Path) -> bool
        ensures { result ≡ is_among self.now path.now }
    {
        self.number_of(path).is_some()
    }

    /// The number of a path; `None` if it isn't in the set.
    pub fn number_of(&self, path: &Path) -> Option<usize>
        ensures { MatchOption result (IsAmong self.now path.now → ⊥) (λ n. slice_get self.now n ≡ Some path.now) }
    {
        self.number_by_text(path.text())
    }

    /// The number of the path with this text; `None` if it isn't in the set. No [`Path`] has to be made of the text.
    pub fn number_by_text(&self, text: &[u8]) -> Option<usize>
        ensures { MatchOption result (IsAmong self.now text.now → ⊥) (λ n. slice_get self.now n ≡ Some text.now) }
    {
        match self.index.look(&self.paths, text) {
            Spot::Found(number) => Some(number),
            Spot::Few | Spot::Free { .. } | Spot::Over => None,
        }
    }

    /// Adds a path after the others, unless it is in the set. Returns the path's number and whether it is new. If
    /// memory runs out, the set is unchanged.
    pub fn insert(&mut self, path: Path) -> Result<(usize, bool), AllocError>
        ensures paths { OnOk result (self.new ≡ with_path self.old path) }
        ensures number { IfOk result (λ put. slice_get self.new put.0 ≡ Some path) }
        ensures added { IfOk result (λ put. put.1 ≡ not (is_among self.old path)) }
        ensures err { OnErr result (self.new ≡ self.old) }
    {
        self.index.make_room(&self.paths)?;
        self.paths.reserve(1)?;
        let number = self.paths.len();
        match self.index.enter(&self.paths, path.text())? {
            Some(number) => Ok((number, false)),
            None => {
                self.paths.push_reserved(path);
                Ok((number, true))
            }
        }
    }

    /// The paths, each at its number.
    pub fn into_paths(self) -> Vec<Path>
        ensures { result.items ≡ self }
    {
        let PathSet { paths, index: _ } = self;
        paths
    }

    /// No path is in the set twice.
    pub fn each_once(&self)
        ensures { AreDistinct self.now }
    {
        // Reading a field brings the invariant into the proof. Nothing runs.
        let _ = &self.paths;
    }
}
