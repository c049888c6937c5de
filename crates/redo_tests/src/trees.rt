//! Trees, as bundles, and what builds over them are given.

ghost use Rattle.std.specs.Prelude.{◌≡◌, ◌≤◌, IfOk};
ghost use Rattle.redo_bundle.specs.Bundle.{HasSmallFiles};
ghost use Rattle.redo_core.specs.Permits.{IsUnused};
ghost use Rattle.redo_run.specs.Directories.{AllowsRounds};

use redo_bundle::{Plain, read_bundle};
use redo_core::permit::Permit;
use redo_path::{Path, resolve};
use redo_report::{Report, report_text};
use redo_run::{BuildBrand, Host, NoObserver, Observer, ROUNDS, RunFault, build_many};
use redo_step::Limits;
use redo_tree::Tree;
use std::alloc::Global;
use std::marker::Brand;
use std::sync::Wait;
use std::test::Fail;
use std::thread::Threads;

/// `top` asks for `left` and `right`, and both ask for `base`.
pub(crate) const DIAMOND: &str = "file 7 base.do\necho b\n\n\
    file 28 left.do\nredo-ifchange base\ncat base\n\n\
    file 28 right.do\nredo-ifchange base\ncat base\n\n\
    file 40 top.do\nredo-ifchange left right\ncat left right\n\nend\n";

/// The report of `top`, without its files.
pub(crate) const DIAMOND_REPORT: &str = "built 2 base\ndep change base.do\n\
    built 2 left\ndep change left.do\ndep change base\n\
    built 2 right\ndep change right.do\ndep change base\n\
    built 4 top\ndep change top.do\ndep change left\ndep change right\n\
    begun base\nbegun left\nbegun right\nbegun top\nend\n";

/// `a` and `b` ask for each other, `t` asks for `a`, and `u` for nothing.
pub(crate) const RING: &str = "file 16 a.do\nredo-ifchange b\n\nfile 16 b.do\nredo-ifchange a\n\n\
    file 16 t.do\nredo-ifchange a\n\nfile 7 u.do\necho u\n\nend\n";

/// The report of `t` and `u`, without its files.
pub(crate) const RING_REPORT: &str = "cyclic a\ndep change a.do\ndep change b\n\
    cyclic b\ndep change b.do\ndep change a\ncyclic t\ndep change t.do\ndep change a\n\
    built 2 u\ndep change u.do\nbegun a\nbegun b\nbegun t\nbegun u\nend\n";

/// A book whose second line is at fault.
pub(crate) const REFUSED_BOOK: &str = "file 5 .redo-book\nend\nx\nend\n";

/// The tree of a bundle.
pub(crate) fn tree_of(alloc: Global, bundle: &str) -> Result<Tree, Fail>
    ensures { IfOk result HasSmallFiles }
{
    let mut reader = Plain::new(bundle.as_bytes());
    Ok(read_bundle(alloc, &mut reader)?)
}

/// The paths that words name, separated by blanks.
pub(crate) fn paths_of(alloc: Global, words: &str) -> Result<Vec<Path>, Fail> {
    let root = Path::root();
    let mut paths = Vec::new(alloc);
    for word in words.split(' ') {
        if !word.is_empty() {
            paths.push(resolve(alloc, &root, word.as_bytes())?)?;
        }
    }
    Ok(paths)
}

/// Limits of this many targets, and of 100 bytes per file.
pub(crate) fn limits_of(targets: u32) -> Result<Limits, Fail> {
    Ok(Limits::new(targets, 100).ok_or("limits")?)
}

/// What a run is lent that an observer watches, with a permit of its own.
pub(crate) fn host_with<'a, O>(rt: &'a HostRuntime, observer: &'a O) -> Host<'a, HostRuntime, O>
    ensures { AllowsRounds result.permit }
{
    Host {
        rt,
        permit: Permit::new(rt, rt.alloc(), ROUNDS),
        observer,
    }
}

/// The same without an observer.
pub(crate) fn host_of(rt: &HostRuntime) -> Host<'_, HostRuntime, NoObserver>
    ensures { AllowsRounds result.permit }
{
    host_with(rt, &NoObserver)
}

/// A build by so many workers: its report, and whether no job is left. The type names the build in the contract of
/// `build_many`, and stands in no type that comes back, so a test may pick it.
pub(crate) fn built_by<B: BuildBrand + Send + Sync, R: Threads + Wait + Sync, O: Observer>(
    host: &mut Host<'_, R, O>,
    tree: Tree,
    request: &[Path],
    limits: Limits,
    workers: usize,
) -> Result<(Report, bool), RunFault>
    requires permit { IsUnused host.old.permit }
    requires of_build { (B.tree ≡ tree) × (B.request ≡ request.now) × (B.limits ≡ limits) }
    requires some { 1 ≤ workers }
    requires few { workers ≤ 64 }
{
    let (report, ledger) = build_many::<B, R, O>(host, tree, request, limits, workers)?;
    Ok((report, ledger.left().is_empty()))
}

/// The report, without its files, that a bundle's build of these words comes to by so many workers. The limit is four
/// targets. A job that is left is a failure.
pub(crate) fn watched<R: Threads + Wait + Sync, O: Observer>(
    host: &mut Host<'_, R, O>,
    bundle: &str,
    words: &str,
    workers: usize,
) -> Result<Vec<u8>, Fail>
    requires permit { IsUnused host.old.permit }
    requires some { 1 ≤ workers }
    requires few { workers ≤ 64 }
{
    let alloc = host.alloc();
    let (tree, request) = (tree_of(alloc, bundle)?, paths_of(alloc, words)?);
    let limits = limits_of(4)?;
    let (report, none_left) = built_by::<Brand, R, O>(host, tree, &request, limits, workers)?;
    if !none_left {
        Err("a job is left")?;
    }
    Ok(report_text(alloc, &report, false)?)
}
