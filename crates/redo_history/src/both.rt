//! A build by one thread, and the same by many.

ghost use Rattle.std.specs.Prelude.{◌≡◌, ◌≤◌};
ghost use Rattle.redo_core.specs.Permits.{IsUnused};
ghost use Rattle.redo_history.specs.Answers.{AreSameAnswers, MayAnswer, without_ledger};

use crate::laws::a_tree_has_one_answer;
use redo_core::permit::Permit;
use redo_path::Path;
use redo_report::Report;
use redo_run::{BuildBrand, Host, JobOf, Observer, RunFault, build_many, build_one};
use redo_step::Limits;
use redo_sync::Ledger;
use redo_tree::Tree;
use std::sync::Wait;
use std::thread::Threads;

/// Builds over a tree by one thread, and then over an equal one by this many workers, each by a permit of its own. Both
/// answer the same, unless memory runs out in one of them. The second answer comes with the ledger of its jobs.
pub fn build_both_ways<B: BuildBrand + Send + Sync, R: Threads + Wait + Sync, O: Observer>(
    lent: (Permit, Host<'_, R, O>),
    trees: (Tree, Tree),
    request: &[Path],
    limits: Limits,
    workers: usize,
) -> (
    Result<Report, RunFault>,
    Result<(Report, Ledger<JobOf<B>>), RunFault>,
)
    requires permits { IsUnused lent.0 × IsUnused lent.1.permit }
    requires equal { trees.1 ≡ trees.0 }
    requires of_build { (B.tree ≡ trees.0) × (B.request ≡ request.now) × (B.limits ≡ limits) }
    requires some { 1 ≤ workers }
    requires few { workers ≤ 64 }
    ensures one { MayAnswer trees.0 request.now limits result.0 }
    ensures many { MayAnswer trees.0 request.now limits (without_ledger result.1) }
    ensures same { AreSameAnswers result.0 (without_ledger result.1) }
{
    a_tree_has_one_answer();
    let (tree, again) = trees;
    let (mut permit, mut host) = lent;
    let one = build_one(&mut permit, tree, request, limits);
    let many = build_many::<B, R, O>(&mut host, again, request, limits, workers);
    (one, many)
}
