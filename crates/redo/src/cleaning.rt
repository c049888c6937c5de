//! The clean of a directory.

ghost use Rattle.std.specs.Prelude.{IfOk, OnOk};
ghost use Rattle.redo.specs.Cleaning.{IsDoneBy, IsPlanOf};
ghost use Rattle.redo_clean.specs.Cleaned.{AnsweredWhile};
ghost use Rattle.redo_clean.specs.declared.planning.CleanPlan.{CleanPlan};
ghost use Rattle.redo_dir.specs.Loaded.{Leads};
ghost use Rattle.redo_run.specs.Opening.{IsOpened};

use crate::lock;
use crate::status::Fault;
use crate::unseen::Unseen;
use redo_bundle::{Plain, write_all};
use redo_clean::{CleanFault, CleanPlan, clean, cleaned_text, plan, planned_text};
use redo_dir::{DirView, Lockable, StoreFault, SystemDir, SystemView, WorkDir};
use redo_lenient::LenientDir;
use redo_line::{Cleaning, Voice};
use redo_run::{Cause, Opened, Said, open_dir};
use std::alloc::Global;
use std::io;
use std::rt::Runtime;
use std::thread::Threads;

/// Plans a clean of a directory, which `workers` threads read. Returns the plan, and how many names were passed over.
fn plan_of<H: Runtime + Threads + Sync, D: DirView + Sync>(
    rt: &H,
    alloc: Global,
    dir: &D,
    workers: usize,
    cause: &mut Cause,
) -> Result<(CleanPlan, u64), Fault>
    ensures plan { IfOk result (λ planned.
        IsPlanOf (IsOpened (D.lists dir.now) (D.looks dir.now) (D.reads dir.now) (D.lacks dir.now)) planned.0) }
{
    let Opened {
        past,
        left,
        over,
        passed,
    } = open_dir(rt, alloc, dir, workers, cause)?;
    let plan = plan(alloc, &past, left, over)?;
    if plan.is_empty() {
        return Err(Fault::NoBook);
    }
    Ok((plan, passed))
}

/// Prints what a clean did, or would do.
pub(crate) fn print<H: Runtime>(rt: &H, text: &[u8]) -> Result<(), Fault> {
    let mut writer = Plain::new(io::writer(rt));
    Ok(write_all(&mut writer, text)?)
}

/// Removes what a plan names, and prints what became of each file, as far as the clean has come if it is broken off.
pub(crate) fn clean_by_plan<D: WorkDir, H: Runtime>(
    rt: &H,
    alloc: Global,
    dir: &mut D,
    plan: &CleanPlan,
    cause: &mut Cause,
) -> Result<(), Fault>
    ensures cleaned { OnOk result (IsDoneBy (AnsweredWhile D.done (λ d. Leads (D.looks d) (D.reads d)))
        (AnsweredWhile D.done D.refuses) plan.now (D.done dir.old) (D.done dir.new)) }
{
    let mut fates = Vec::new(alloc);
    let outcome = clean(alloc, dir, plan, &mut fates);
    print(rt, &cleaned_text(alloc, plan, &fates)?)?;
    match outcome {
        Ok(()) => Ok(()),
        Err(CleanFault::Memory | CleanFault::Left(StoreFault::Memory(_))) => Err(Fault::Memory),
        Err(CleanFault::Left(fault)) => {
            if let Some(left) = &plan.left {
                cause.note_left(left, fault);
            }
            Err(Fault::Left)
        }
        Err(CleanFault::Device(path, said)) => {
            cause.place.clear();
            cause.place.extend_from_slice(path.text())?;
            cause.said = Some(Said::System(said));
            Err(Fault::Unremoved)
        }
    }
}

/// Prints what would become of a directory, and returns what wasn't seen of it.
fn try_out<H: Runtime + Threads + Sync>(
    rt: &H,
    alloc: Global,
    cleaning: &Cleaning,
    cause: &mut Cause,
) -> Result<Unseen, Fault>
where
    H::File: Send + Lockable,
    H::Dir: Send,
{
    let dir = LenientDir::new(alloc, SystemView::new(rt, &cleaning.dir));
    let (plan, passed) = plan_of(rt, alloc, &dir, cleaning.workers, cause)?;
    print(rt, &planned_text(alloc, &plan)?)?;
    Ok(Unseen::of(alloc, &dir, passed))
}

/// Plans a clean of a directory and carries it out. Returns how many names were passed over.
fn clean_by<D: WorkDir + Sync, H: Runtime + Threads + Sync>(
    rt: &H,
    alloc: Global,
    dir: &mut D,
    workers: usize,
    cause: &mut Cause,
) -> Result<u64, Fault>
    ensures cleaned { OnOk result ((plan : CleanPlan) ×
        IsPlanOf (IsOpened (D.lists dir.old) (D.looks dir.old) (D.reads dir.old) (D.lacks dir.old)) plan ×
        IsDoneBy (AnsweredWhile D.done (λ d. Leads (D.looks d) (D.reads d)))
        (AnsweredWhile D.done D.refuses) plan (D.done dir.old) (D.done dir.new)) }
{
    let (plan, passed) = plan_of(rt, alloc, dir, workers, cause)?;
    clean_by_plan(rt, alloc, dir, &plan, cause)?;
    Ok(passed)
}

/// Locks a directory and cleans it. Returns what wasn't seen of it.
fn clean_locked<H: Runtime + Threads + Sync>(
    rt: &H,
    alloc: Global,
    cleaning: &Cleaning,
    cause: &mut Cause,
) -> Result<Unseen, Fault>
where
    H::File: Send + Lockable,
    H::Dir: Send,
{
    let lock = lock(rt, alloc, &cleaning.dir, cause)?;
    let dir = SystemDir::locked(rt, alloc, &lock, cleaning.synced);
    let mut dir = LenientDir::new(alloc, dir);
    let passed = clean_by(rt, alloc, &mut dir, cleaning.workers, cause)?;
    Ok(Unseen::of(alloc, &dir, passed))
}

/// Cleans a directory; in a dry run, prints what would become of it.
pub(crate) fn clean_dir<H: Runtime + Threads + Sync>(
    rt: &H,
    alloc: Global,
    cleaning: &Cleaning,
    voice: Voice,
    cause: &mut Cause,
) -> Result<bool, Fault>
where
    H::File: Send + Lockable,
    H::Dir: Send,
{
    let unseen = if cleaning.dry_run {
        try_out(rt, alloc, cleaning, cause)?
    } else {
        clean_locked(rt, alloc, cleaning, cause)?
    };
    unseen.note(rt, voice);
    Ok(true)
}
