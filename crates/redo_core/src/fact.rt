//! Decided targets, each with what became of it.
ghost use Rattle.std.specs.Prelude.{◌≡◌, IsTrue, true};
ghost use Rattle.std.specs.Arc.{arc_value};
ghost use Rattle.redo_rules.specs.Build.{rules_for};
ghost use Rattle.redo_core.specs.inside.Decided.{IsDecided};

use crate::given::Given;
use redo_path::Path;
use redo_record::{Outcome, Record};
use std::marker::Model;
use std::snapshot::Snapshot;
use std::sync::Arc;

/// A decided target with its outcome, its record and whether its script was begun. Every value of this type is true of
/// its build.
#[derive(Drop)]
pub struct Fact {
    /// What its build is given, for contracts alone.
    given: Snapshot<Given>,
    target: Path,
    outcome: Outcome,
    deps: Arc<Record>,
    begun: bool,
}

impl Model for Fact {
    ghost use Rattle.std.specs.Arc.{arc_value};
    ghost use Rattle.redo_core.specs.Views.{FactView};

    ghost Value = { FactView };

    ghost use Rattle.redo_core.specs.inside.Decided.{IsDecided};

    ghost view = { λ f. record {
      given = f.given.value;
      target = f.target;
      outcome = f.outcome;
      deps = arc_value f.deps;
      begun = f.begun;
    } };

    ghost invariant = { λ f. IsDecided f.given.value f.target f.outcome (arc_value f.deps) f.begun };
}

impl Fact {
    /// A target that was decided so.
    pub(crate) fn of(
        given: &Given,
        target: Path,
        outcome: Outcome,
        deps: Arc<Record>,
        begun: bool,
    ) -> Fact
        requires { IsDecided given.now target outcome (arc_value deps) begun }
        ensures { result ≡ record {
          given = given.now;
          target = target;
          outcome = outcome;
          deps = arc_value deps;
          begun = begun;
        } }
    {
        Fact {
            given: Snapshot::of(given),
            target,
            outcome,
            deps,
            begun,
        }
    }

    /// The target that was decided.
    pub fn target(&self) -> &Path
        ensures { result.now ≡ self.now.target }
    {
        &self.target
    }

    /// Its outcome, which is the answer of redo-ifchange(1) to those that asked for it.
    pub fn outcome(&self) -> &Outcome
        ensures { result.now ≡ self.now.outcome }
    {
        &self.outcome
    }

    /// Its record: the entries of the search for its rule, then those that it declared, in order.
    pub fn deps(&self) -> &Arc<Record>
        ensures { arc_value result.now ≡ self.now.deps }
    {
        &self.deps
    }

    /// Whether its script was begun. It wasn't if the target has no rule or is kept.
    pub fn was_begun(&self) -> bool
        ensures begun { result ≡ self.now.begun }
        ensures ruled { IsTrue result → (rules_for self.now.given).has_rule self.now.target ≡ true }
    {
        self.begun
    }

    /// Shows that it was decided so. It does nothing.
    pub(crate) fn is_decided(&self)
        ensures { IsDecided self.now.given self.now.target self.now.outcome self.now.deps self.now.begun }
    {
        let _ = &self.begun;
    }
}
