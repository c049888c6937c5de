//! Built files that a build no longer needs.

ghost use Rattle.redo_run.specs.Directories.{AllowsRounds};

use crate::building::{DirBuild, Run, build_and_write};
use crate::cleaning::{clean_by_plan, print};
use crate::lock;
use crate::progress::Progress;
use crate::status::Fault;
use crate::unseen::Unseen;
use redo_clean::{CleanPlan, planned_text};
use redo_dead::{dead_plan, dead_text};
use redo_dir::{Lockable, SystemDir};
use redo_line::{BuildOptions, Dead, Input, Voice};
use redo_past::Past;
use redo_report::Report;
use redo_run::{BundleRun, Cause, Exit, Host};
use std::alloc::Global;
use std::io;
use std::rt::Runtime;
use std::sync::Wait;
use std::thread::Threads;

/// What a build came to that was tried out.
#[derive(Drop)]
struct Tried {
    /// The clean of what it doesn't need.
    plan: CleanPlan,
    unseen: Unseen,
}

/// Plans the removal of what a build with this report doesn't need. Refuses a build that isn't good: what a failed
/// target needs isn't known.
fn plan_by(alloc: Global, exit: Exit, past: &Past, report: &Report) -> Result<CleanPlan, Fault> {
    if exit != Exit::Good {
        return Err(Fault::Unbuilt);
    }
    Ok(dead_plan(alloc, past, report)?)
}

/// Tries a build out.
fn try_out<H: Runtime + Threads + Wait + Sync>(
    host: &mut Host<'_, H, Progress<'_>>,
    build: &BuildOptions,
    cause: &mut Cause,
) -> Result<Tried, Fault>
where
    H::File: Send + Lockable,
    H::Dir: Send,
    requires permit { AllowsRounds host.old.permit }
{
    let alloc = host.alloc();
    let outcome = build_and_write(host, build, io::sink(), cause);
    host.observer.clear();
    match outcome? {
        Run::OverBundle(run) => {
            let BundleRun { exit, past, report } = run;
            let plan = plan_by(alloc, exit, &past, &report.without_book())?;
            let unseen = Unseen::nothing();
            Ok(Tried { plan, unseen })
        }
        Run::OverDir(built) => {
            let DirBuild { run, unseen, .. } = built;
            let plan = plan_by(alloc, run.exit, &run.past, &run.report)?;
            Ok(Tried { plan, unseen })
        }
    }
}

/// Removes what a build of this directory doesn't need.
fn remove_dead<H: Runtime + Threads + Wait + Sync>(
    host: &mut Host<'_, H, Progress<'_>>,
    dead: &Dead,
    dir: &str,
    cause: &mut Cause,
) -> Result<Unseen, Fault>
where
    H::File: Send + Lockable,
    H::Dir: Send,
    requires permit { AllowsRounds host.old.permit }
{
    let (rt, alloc) = (host.rt, host.alloc());
    let lock = lock(rt, alloc, dir, cause)?;
    let Tried { plan, unseen } = try_out(host, &dead.build, cause)?;
    let mut dir = SystemDir::locked(rt, alloc, &lock, dead.synced);
    clean_by_plan(rt, alloc, &mut dir, &plan, cause)?;
    Ok(unseen)
}

/// Lists the built files that a build no longer needs, removes them, or says which it would remove.
pub(crate) fn tell_dead<H: Runtime + Threads + Wait + Sync>(
    host: &mut Host<'_, H, Progress<'_>>,
    dead: &Dead,
    voice: Voice,
    cause: &mut Cause,
) -> Result<bool, Fault>
where
    H::File: Send + Lockable,
    H::Dir: Send,
    requires permit { AllowsRounds host.old.permit }
{
    let (rt, alloc, build) = (host.rt, host.alloc(), &dead.build);
    let unseen = match &build.input {
        Input::Directory(dir) if dead.cleaned && !dead.dry_run => {
            remove_dead(host, dead, dir, cause)?
        }
        _ => {
            let Tried { plan, unseen } = try_out(host, build, cause)?;
            let text = if dead.cleaned {
                planned_text(alloc, &plan)?
            } else {
                dead_text(alloc, &plan)?
            };
            print(rt, &text)?;
            unseen
        }
    };
    unseen.note(rt, voice);
    Ok(true)
}
