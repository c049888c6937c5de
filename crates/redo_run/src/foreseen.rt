//! What a run over a tree foresees: the report of its build, and what is to be stored.

ghost use Rattle.std.specs.Prelude.{◌≡◌, ◌≤◌, ◌+◌, IfErr, IfOk};
ghost use Rattle.std.specs.Arc.{arc_value};
ghost use Rattle.redo_core.specs.Permits.{IsUnused};
ghost use Rattle.redo_rules.specs.Results.{IsOfTree};
ghost use Rattle.redo_run.specs.Directories.{IsBuilt, IsUnbuilt, to_build};
ghost use Rattle.redo_run.specs.inside.Foreseen.{IsForeseen, IsUnforeseenOver};

use crate::directory::DirRun;
use crate::exit::exit_after;
use crate::request::requested;
use crate::storing::{Plan, to_store};
use crate::workers::{past_of, report_over};
use crate::{Exit, Host, Observer, Options, RunDirFault};
use redo_mend::{Mended, mend};
use redo_past::{Past, ReportParts, has_book};
use redo_report::Report;
use redo_tree::{Content, Tree};
use std::alloc::{AllocError, Global};
use std::marker::Brand;
use std::sync::{Arc, Wait};
use std::thread::Threads;

/// What a build of a tree came to.
#[derive(Drop)]
pub(crate) struct Built {
    past: Past,
    /// The report without the new book.
    report: Report,
    /// The text of the new book.
    book: Content,
    exit: Exit,
}

/// Builds the targets of a tree.
fn build<H: Threads + Wait + Sync, O: Observer>(
    host: &mut Host<'_, H, O>,
    tree: Tree,
    options: &Options,
) -> Result<Built, RunDirFault>
    requires permit { IsUnused host.old.permit }
    ensures opened { host.old.permit ≤ host.new.permit + 1 }
    ensures built { IfOk result (λ built. IsBuilt tree options.now built.report built.book built.exit) }
    ensures past { IfOk result (λ built. IsOfTree tree built.past) }
    ensures refused { IfErr result (IsUnbuilt tree options.now) }
{
    let (limits, workers) = (options.limits, options.workers);
    let request = requested(host.alloc(), &options.targets)?;
    let past = past_of(host.rt, host.alloc(), tree, workers)?;
    let kept = past.share()?;
    let report = report_over::<Brand, H, O>(host, past, &request, limits, workers)?;
    let exit = exit_after(host.alloc(), &report, &request)?;
    let ReportParts { report, book } = report.into_parts(host.alloc())?;
    Ok(Built {
        past: kept,
        report,
        book,
        exit,
    })
}

/// What a build came to without the files that are to be taken back, and the tree that has them.
#[derive(Drop)]
struct OfMended {
    mended: Arc<Tree>,
    built: Built,
}

/// A tree that is shared from here on.
fn shared(alloc: Global, tree: Tree) -> Result<Arc<Tree>, AllocError>
    ensures { IfOk result (λ shared. arc_value shared ≡ tree) }
{
    Ok(Arc::new(alloc, tree)?)
}

/// Builds the targets of a mended tree without the files that are to be taken back.
fn build_mended<H: Threads + Wait + Sync, O: Observer>(
    host: &mut Host<'_, H, O>,
    mended: Tree,
    options: &Options,
) -> Result<OfMended, RunDirFault>
    requires permit { IsUnused host.old.permit }
    ensures opened { host.old.permit ≤ host.new.permit + 1 }
    ensures mended { IfOk result (λ of. arc_value of.mended ≡ mended) }
    ensures past { IfOk result (λ of. IsOfTree (to_build options.now mended) of.built.past) }
    ensures built { IfOk result (λ of.
        IsBuilt (to_build options.now mended) options.now of.built.report of.built.book of.built.exit) }
    ensures refused { IfErr result (IsUnbuilt (to_build options.now mended) options.now) }
{
    if options.taken.is_empty() {
        let built = build(host, mended, options)?;
        let mended = Arc::try_clone(built.past.tree())?;
        return Ok(OfMended { mended, built });
    }
    let tree = mended.without(host.alloc(), &options.taken)?;
    let built = build(host, tree, options)?;
    let mended = shared(host.alloc(), mended)?;
    Ok(OfMended { mended, built })
}

/// What a run over a directory came to, and what is left to be done to the directory.
#[derive(Drop)]
pub(crate) struct Foreseen {
    pub run: DirRun,
    /// The mended tree, over which is stored.
    pub mended: Arc<Tree>,
    pub plan: Plan,
}

/// Mends a tree that was loaded, builds the targets, and plans what a run stores.
pub(crate) fn foresee_over<H: Threads + Wait + Sync, O: Observer>(
    host: &mut Host<'_, H, O>,
    tree: Tree,
    passed: u64,
    options: &Options,
) -> Result<Foreseen, RunDirFault>
    requires permit { IsUnused host.old.permit }
    ensures opened { host.old.permit ≤ host.new.permit + 1 }
    ensures foreseen { IfOk result (IsForeseen options.now tree passed) }
    ensures refused { IfErr result (IsUnforeseenOver options.now tree) }
{
    tree.is_tree();
    let over = has_book(&tree);
    let Mended { tree, left } = mend(host.rt, host.alloc(), options.workers, tree)?;
    let OfMended { mended, built } = build_mended(host, tree, options)?;
    let Built {
        past,
        report,
        book,
        exit,
    } = built;
    let new = to_store(host.alloc(), &mended, &report.files, &book)?;
    let plan = Plan {
        left,
        over,
        new,
        workers: options.workers,
    };
    let run = DirRun {
        exit,
        passed,
        past,
        report,
        book,
    };
    Ok(Foreseen { run, mended, plan })
}
