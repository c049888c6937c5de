//! What a build is given, shared by all that takes part in it, and the scripts that were read.
ghost use Rattle.std.specs.Prelude.{◌≡◌, ◌↔◌, List, ℕ, IfOk, IsTrue, not};
ghost use Rattle.redo_names.specs.Paths.{is_among};
ghost use Rattle.std.specs.Arc.{arc_value};
ghost use Rattle.redo_rules.specs.Build.{rules_for};
ghost use Rattle.redo_rules.specs.Results.{IsGiven};

use crate::same::{are_same_paths, is_same_tree};
use crate::scripts::Reading;
use redo_names::PathSet;
use redo_past::Past;
use redo_past::laws::a_tree_has_one_past;
use redo_path::Path;
use redo_record::Outcome;
use redo_step::Limits;
use redo_sync::{Cells, Known};
use redo_tree::Tree;
use std::alloc::{AllocError, Global};
use std::marker::Model;
use std::sync::Arc;

/// The most bytes of a file of four blocks of SHA-256, with its padding.
const SHORT: usize = 247;

/// What a build is given: what it takes over from the last run, its request and its limits. Its board shares them with
/// all works, pieces and facts.
#[derive(Drop)]
pub(crate) struct Given {
    past: Past,
    request: Vec<Path>,
    /// The requested paths, to be looked up.
    requested: PathSet,
    limits: Limits,
    /// A cell for each number of the sources' tree: what reading a script came to, if it may make several targets.
    readings: Arc<Cells<Reading>>,
}

impl Model for Given {
    ghost use Rattle.std.specs.Arc.{arc_value};
    ghost use Rattle.redo_rules.specs.Build.{GivenView};

    ghost Value = { GivenView };

    ghost view = { λ g. record { past = g.past; request = g.request.items; limits = g.limits } };

    ghost use Rattle.std.specs.Prelude.{◌≡◌, List, ℕ, length};
    ghost use Rattle.redo_names.specs.Paths.{is_among};

    ghost invariant = { λ g.
        (length (arc_value g.readings) ≡ length g.past.sources) ×
        ((p : List ℕ) → is_among g.requested p ≡ is_among g.request.items p) };
}

impl Given {
    /// What a build is given, to be shared.
    pub(crate) fn new(
        alloc: Global,
        past: Past,
        request: &[Path],
        limits: Limits,
    ) -> Result<Arc<Given>, AllocError>
        ensures { IfOk result (λ g. arc_value g ≡
            record { past = past; request = request.now; limits = limits }) }
    {
        let requested = PathSet::of_paths(alloc, request)?;
        let request = request.to_vec(alloc)?;
        let readings = Cells::new(alloc, past.sources().len())?;
        let given = Given {
            past,
            request,
            requested,
            limits,
            readings,
        };
        Ok(Arc::new(alloc, given)?)
    }

    /// What reading a script came to, if it is kept. It takes no memory.
    pub(crate) fn reading(&self, do_file: &Path) -> Result<Option<Known<Reading>>, AllocError> {
        match self.sources().number_of(do_file) {
            Some(number) => Cells::look(&self.readings, number),
            None => Ok(None),
        }
    }

    /// Keeps what reading a script came to, unless something is kept already.
    pub(crate) fn keep(&self, do_file: &Path, reading: Reading) -> Result<(), AllocError> {
        let Some(number) = self.sources().number_of(do_file) else {
            return Ok(());
        };
        match Cells::publish(&self.readings, number, reading) {
            Ok(_known) => Ok(()),
            Err((_reading, error)) => Err(error),
        }
    }

    /// Whether the digest of an outcome is made at once. That of a short file is made after the build, four at a time.
    /// Where there are records, checks may ask for it many times.
    pub(crate) fn digests_at_once(&self, outcome: &Outcome) -> bool {
        if !self.past.book().records().is_empty() {
            return true;
        }
        match outcome.file() {
            Some(bytes) => bytes.len() > SHORT,
            None => false,
        }
    }

    /// What the build takes over from the last run.
    pub(crate) fn past(&self) -> &Past
        ensures { result.now ≡ self.now.past }
    {
        &self.past
    }

    /// The tree of sources.
    pub(crate) fn sources(&self) -> &Arc<Tree>
        ensures { arc_value result.now ≡ self.now.past.sources }
    {
        self.past.sources()
    }

    /// What is requested.
    pub(crate) fn request(&self) -> &[Path]
        ensures { result.now ≡ self.now.request }
    {
        &self.request
    }

    /// Whether a path is requested.
    pub(crate) fn is_requested(&self, path: &Path) -> bool
        ensures { result ≡ is_among self.now.request path.now }
    {
        self.requested.contains(path)
    }

    /// The limits of the build.
    pub(crate) fn limits(&self) -> Limits
        ensures { result ≡ self.now.limits }
    {
        self.limits
    }

    /// Whether a path is a source.
    fn is_source(&self, path: &Path) -> bool
        ensures { result ≡ (rules_for self.now).is_source path.now }
    {
        self.sources().file(path).is_some()
    }

    /// Whether a path isn't a source.
    pub(crate) fn is_target(&self, path: &Path) -> bool
        ensures { result ≡ not ((rules_for self.now).is_source path.now) }
    {
        !self.is_source(path)
    }

    /// Whether this tree as it was read, this request and these limits are what is given. It compares by value, in time
    /// linear in the tree's bytes.
    pub(crate) fn is(&self, tree: &Tree, request: &[Path], limits: Limits) -> bool
        ensures { IsTrue result ↔ IsGiven tree.now request.now limits self.now }
    {
        self.limits == limits
            && are_same_paths(&self.request, request)
            && is_same_tree(self.past.tree(), tree)
    }

    /// Whether two builds are given the same. A tree has one past, so the sources needn't be compared.
    pub(crate) fn is_same(&self, other: &Given) -> bool
        ensures { IsTrue result ↔ (self.now ≡ other.now) }
    {
        a_tree_has_one_past();
        self.is(other.past.tree(), &other.request, other.limits)
    }
}
