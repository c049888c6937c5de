//! The candidates of a target that are no files.

ghost use Rattle.std.specs.Prelude.{◌≡◌, ◌≤◌, ◌∷◌, List, ℕ, IfNone, IfOk, IfSome, IsTrue, [], bytes_eq, length, map};
ghost use Rattle.std.specs.Prelude.{take};
ghost use Rattle.std.specs.Iterator.Adapters.{take_count, take_source};
ghost use Rattle.std.specs.List.{AllByRecursion, list_any};
ghost use Rattle.redo_path.specs.Names.{IsBelowRoot};
ghost use Rattle.redo_which.specs.Missing.{AreDistinct};
ghost use Rattle.redo_which.specs.inside.First.{AreFirst, first_candidates};

use crate::candidate_ref::CandidateRef;
use crate::candidates::Candidates;
use redo_path::Path;
use std::alloc::{AllocError, Global};
use std::iter::Take;
use std::marker::Model;

/// The candidates of a target before its rule, or all of them if it has none. In a contract it is the list of their .do
/// files. Only the target and their number are stored; the paths follow from these and are spelled on demand.
#[derive(Drop)]
pub struct Missing {
    target: Path,
    count: usize,
}

impl Model for Missing {
    ghost use Rattle.std.specs.Prelude.{List, ℕ};
    ghost use Rattle.redo_which.specs.inside.First.{AreFirst, first_candidates};

    ghost Value = { List (List ℕ) };

    ghost view = { λ m. first_candidates m.target m.count };

    ghost invariant = { λ m. AreFirst m.target m.count };
}

impl Missing {
    /// No candidates.
    pub fn none() -> Missing
        ensures { result ≡ [] }
    {
        Missing {
            target: Path::root(),
            count: 0,
        }
    }

    /// The first `count` candidates of a target.
    pub(crate) fn first(target: &Path, count: usize) -> Result<Missing, AllocError>
        requires { AreFirst target.now count }
        ensures { IfOk result (λ missing. missing ≡ first_candidates target.now count) }
    {
        let target = target.clone()?;
        Ok(Missing { target, count })
    }

    /// The number of candidates.
    pub fn len(&self) -> usize
        ensures { result ≡ length self.now }
    {
        self.count
    }

    /// No candidate occurs twice.
    pub fn each_once(&self)
        ensures { AreDistinct self.now }
    {
        // Reading a field brings the invariant into the proof. Nothing runs.
        let _ = &self.target;
    }

    /// Each is below the top directory.
    pub fn each_below(&self)
        ensures { AllByRecursion IsBelowRoot self.now }
    {
        // A field is read so that the invariant is at hand in the proof. Nothing runs.
        let _ = &self.target;
    }

    /// The paths of the .do files. Each call spells them again.
    pub fn paths(&self, alloc: Global) -> Result<Vec<Path>, AllocError>
        ensures { IfOk result (λ paths. paths.items ≡ self.now) }
    {
        let mut paths = Vec::with_capacity(alloc, self.count)?;
        for candidate in self.candidates() {
            paths.push(candidate.do_file(alloc)?)?;
        }
        Ok(paths)
    }

    /// An iterator over the candidates.
    fn candidates(&self) -> Take<Candidates<'_>>
        ensures { map (λ place. place.do_file) (take (take_count result) (take_source result)) ≡ self.now }
    {
        Candidates::of(&self.target).take(self.count)
    }

    /// Whether a path is one of them. It is quick if the path doesn't end in `.do`.
    pub fn contains(&self, alloc: Global, path: &Path) -> Result<bool, AllocError>
        ensures { IfOk result (λ answer. answer ≡ list_any (λ other. bytes_eq path.now other) self.now) }
    {
        // Reading a field brings the invariant into the proof.
        let _ = &self.target;
        if !path.text().ends_with(b".do") {
            return Ok(false);
        }
        let mut text = Vec::new(alloc);
        for other in self.candidates() {
            text.clear();
            other.spell(&mut text)?;
            if path.text() == text.as_slice() {
                return Ok(true);
            }
        }
        Ok(false)
    }

    /// The first candidate, and the rest.
    pub fn split_first(&self) -> Option<(CandidateRef<'_>, Tail<'_>)>
        ensures some { IfSome result (λ split. self.now ≡ split.0.do_file ∷ map (λ place. place.do_file) split.1) }
        ensures none { IfNone result (self.now ≡ []) }
    {
        let len = self.count.checked_sub(1)?;
        let mut candidates = Candidates::of(&self.target);
        let first = candidates.next()?;
        Some((first, Tail { candidates, len }))
    }
}

impl Clone for Missing {
    ghost is_clone = { λ missing copy. copy ≡ missing };

    fn clone(&self) -> Result<Missing, AllocError> {
        Missing::first(&self.target, self.count)
    }
}

/// The `len` candidates of a target after its first one. In a contract it is the list of their places.
#[derive(Drop)]
pub struct Tail<'a> {
    candidates: Candidates<'a>,
    len: usize,
}

impl<'a> Model for Tail<'a> {
    ghost use Rattle.std.specs.Prelude.{List, take};
    ghost use Rattle.redo_which.specs.Candidates.{Place};

    ghost Value = { List Place };

    ghost view = { λ r. take r.len r.candidates };
}

impl<'a> Tail<'a> {
    /// No candidates.
    pub fn none() -> Tail<'a>
        ensures { result ≡ [] }
    {
        Tail {
            candidates: Candidates::none(),
            len: 0,
        }
    }

    /// An iterator over the candidates.
    pub fn candidates(&self) -> Take<Candidates<'a>>
        ensures { take (take_count result) (take_source result) ≡ self.now }
    {
        self.candidates.again().take(self.len)
    }

    /// A copy of these candidates.
    pub fn again(&self) -> Tail<'a>
        ensures { result ≡ self.now }
    {
        Tail {
            candidates: self.candidates.again(),
            len: self.len,
        }
    }

    /// Whether a quick look shows that these candidates equal others. If the result is `false`, they may still be
    /// equal.
    pub fn is_same(&self, other: &Tail<'_>) -> bool
        ensures { IsTrue result → self.now ≡ other.now }
    {
        self.len == other.len && self.candidates.is_same(&other.candidates)
    }
}
