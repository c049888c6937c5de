//! Builds.

ghost use Rattle.std.specs.Prelude.{◌≡◌, false};
ghost use Rattle.redo_run.specs.Directories.{AllowsRounds};

use crate::after::{After, Built, say_after, warn_of_book_above};
use crate::behind::{Behind, Watched};
use crate::clock::time_of_day;
use crate::formats::{print_report, tells_run};
use crate::found::{Found, find};
use crate::passing::note_names;
use crate::progress::Progress;
use crate::status::Fault;
use crate::taking::{options_for, options_of, say_taken};
use crate::unseen::Unseen;
use crate::{buffered, flush, lock};
use redo_bundle::Plain;
use redo_dir::{Lockable, SystemDir, SystemView};
use redo_lenient::LenientDir;
use redo_line::{BuildOptions, Format, Input, Storing, Voice};
use redo_path::Path;
use redo_run::{BundleRun, Cause, DirRun, Exit, Host, Said, preview_dir, run_bundle, run_dir};
use std::alloc::{AllocError, Global};
use std::io::{BufWriter, ErrorKind, Write};
use std::rt::Runtime;
use std::sync::Wait;
use std::thread::Threads;
use std::{io, mem};

/// What a build came to.
#[derive(Drop)]
pub(crate) enum Run {
    OverBundle(BundleRun),
    OverDir(DirBuild),
}

/// What a build of a directory came to.
#[derive(Drop)]
pub(crate) struct DirBuild {
    pub(crate) run: DirRun,
    /// The files that it took back.
    pub(crate) taken: Vec<Path>,
    pub(crate) unseen: Unseen,
}

/// When a build begins, if it is told and the clock tells it.
fn began_for<H: Runtime>(
    rt: &H,
    alloc: Global,
    build: &BuildOptions,
) -> Result<Option<String>, AllocError> {
    if !tells_run(build.format) {
        return Ok(None);
    }
    time_of_day(rt, alloc)
}

/// Builds targets, and returns whether all went well.
pub(crate) fn build<H: Runtime + Threads + Wait + Sync>(
    host: &mut Host<'_, H, Progress<'_>>,
    build: &BuildOptions,
    voice: Voice,
    cause: &mut Cause,
) -> Result<bool, Fault>
where
    H::File: Send + Lockable,
    H::Dir: Send,
    requires permit { AllowsRounds host.old.permit }
{
    let began = began_for(host.rt, host.alloc(), build)?;
    let outcome = match build.format {
        Format::Report => build_and_write(host, build, io::writer(host.rt), cause),
        // The report is made of what the build returns.
        Format::Short | Format::Json | Format::Dot(_) | Format::Html => {
            build_and_write(host, build, io::sink(), cause)
        }
    };
    host.observer.clear();
    let after = After {
        build,
        voice,
        began,
        milliseconds: host.observer.milliseconds(),
    };
    match outcome? {
        Run::OverBundle(run) => end_over_bundle(host.rt, host.alloc(), &after, run),
        Run::OverDir(built) => end_over_dir(host.rt, host.alloc(), &after, built),
    }
}

/// Finds what there is to show beside a report, or `None` if nothing is to be shown. If memory runs out, it is
/// `None`, too, or a fault if the exit status or the printed report depends on it.
fn find_for(alloc: Global, after: &After<'_>, built: &Built<'_>) -> Result<Option<Found>, Fault> {
    if after.is_silent() {
        return Ok(None);
    }
    let is_plain = after.build.format == Format::Report;
    match find(alloc, after.build, built) {
        Ok(found) => Ok(Some(found)),
        Err(_) if is_plain && !after.build.strict => Ok(None),
        Err(fault) => Err(Fault::from(fault)),
    }
}

/// Shows what follows a report, and returns whether `--strict` refuses nothing of what was found. If memory runs out,
/// the rest isn't shown; that is a fault of a strict build only.
fn say_found<H: Runtime>(
    rt: &H,
    alloc: Global,
    after: &After<'_>,
    built: &Built<'_>,
    found: &Option<Found>,
) -> Result<bool, Fault> {
    let Some(found) = found else {
        return Ok(true);
    };
    match say_after(rt, alloc, after, built, found) {
        Err(_) if after.build.strict => Err(Fault::Memory),
        _ => Ok(found.is_fine),
    }
}

/// Shows what a build over a bundle came to, and returns whether all went well.
fn end_over_bundle<H: Runtime>(
    rt: &H,
    alloc: Global,
    after: &After<'_>,
    run: BundleRun,
) -> Result<bool, Fault> {
    let BundleRun { exit, past, report } = run;
    let good = exit == Exit::Good;
    if after.is_silent() {
        // A leak on purpose: the process ends now, and the system takes back all memory at once.
        mem::forget(report);
        mem::forget(past);
        return Ok(good);
    }
    let report = report.without_book();
    let built = Built {
        past: &past,
        report: &report,
        good,
        hides: false,
    };
    let found = find_for(alloc, after, &built)?;
    print_report(rt, alloc, after, &built, &found)?;
    Ok(say_found(rt, alloc, after, &built, &found)? && good)
}

/// Shows what a build over a directory came to, and returns whether all went well.
fn end_over_dir<H: Runtime>(
    rt: &H,
    alloc: Global,
    after: &After<'_>,
    build: DirBuild,
) -> Result<bool, Fault> {
    let DirBuild { run, taken, unseen } = build;
    let good = run.exit == Exit::Good;
    let built = Built {
        past: &run.past,
        report: &run.report,
        good,
        hides: unseen.hidden.is_some(),
    };
    let found = find_for(alloc, after, &built)?;
    print_report(rt, alloc, after, &built, &found)?;
    unseen.note(rt, after.voice_of_notes());
    if let (true, Input::Directory(dir)) = (run.passed != 0, &after.build.input) {
        note_names(rt, alloc, after.voice, dir, run.past.tree());
    }
    if let Input::Directory(dir) = &after.build.input {
        warn_of_book_above(rt, alloc, after, dir, run.past.tree());
    }
    // Where there is no memory for its words, this is left out.
    let _said = say_taken(rt, alloc, after, &taken, &run.report);
    let fine = say_found(rt, alloc, after, &built, &found)?;
    // Forgotten as above.
    mem::forget(run);
    Ok(fine && good)
}

/// Builds targets, and writes the whole report to a stream.
pub(crate) fn build_and_write<H: Runtime + Threads + Wait + Sync, W: Write + Drop>(
    host: &mut Host<'_, H, Progress<'_>>,
    build: &BuildOptions,
    stream: W,
    cause: &mut Cause,
) -> Result<Run, Fault>
where
    H::File: Send + Lockable,
    H::Dir: Send,
    requires permit { AllowsRounds host.old.permit }
{
    let stream = Watched {
        stream,
        has_gone: false,
    };
    let mut writer = Behind {
        out: Plain::new(buffered(host.alloc(), stream)?),
        progress: host.observer,
    };
    let outcome = build_to(host, build, &mut writer, cause);
    // After a failed write the rest isn't tried again, as it would be if the buffer were dropped.
    let (stream, _unwritten) = writer.out.stream.into_parts();
    if stream.has_gone {
        cause.said = Some(Said::System(ErrorKind::BrokenPipe));
    }
    outcome
}

/// Builds targets, and writes the whole report.
fn build_to<H: Runtime + Threads + Wait + Sync, W: Write + Drop>(
    host: &mut Host<'_, H, Progress<'_>>,
    build: &BuildOptions,
    writer: &mut Behind<'_, Plain<BufWriter<W>>>,
    cause: &mut Cause,
) -> Result<Run, Fault>
where
    H::File: Send + Lockable,
    H::Dir: Send,
    requires writer { writer.old.out.broken ≡ false }
    requires permit { AllowsRounds host.old.permit }
{
    let run = match &build.input {
        Input::Bundle => {
            let mut reader = Plain::new(host.rt.reader());
            let options = options_of(build, Vec::new(host.alloc()))?;
            Run::OverBundle(run_bundle(host, &mut reader, writer, &options, cause)?)
        }
        Input::Directory(dir) => Run::OverDir(build_dir(host, dir, build, writer, cause)?),
    };
    flush(&mut writer.out.stream)?;
    Ok(run)
}

/// Builds the targets of a directory.
fn build_dir<H: Runtime + Threads + Wait + Sync, W: Write + Drop>(
    host: &mut Host<'_, H, Progress<'_>>,
    dir: &str,
    build: &BuildOptions,
    writer: &mut Behind<'_, Plain<BufWriter<W>>>,
    cause: &mut Cause,
) -> Result<DirBuild, Fault>
where
    H::File: Send + Lockable,
    H::Dir: Send,
    requires writer { writer.old.out.broken ≡ false }
    requires permit { AllowsRounds host.old.permit }
{
    if build.storing == Storing::Nothing {
        let dir = LenientDir::new(host.alloc(), SystemView::new(host.rt, dir));
        let options = options_for(host, &dir, build, cause)?;
        let run = preview_dir(host, &dir, writer, &options, cause)?;
        let unseen = Unseen::of(host.alloc(), &dir, run.passed);
        let taken = options.taken;
        return Ok(DirBuild { run, taken, unseen });
    }
    let lock = lock(host.rt, host.alloc(), dir, cause)?;
    let synced = build.storing == Storing::Synced;
    let dir = SystemDir::locked(host.rt, host.alloc(), &lock, synced);
    let mut dir = LenientDir::new(host.alloc(), dir);
    let options = options_for(host, &dir, build, cause)?;
    let run = run_dir(host, &mut dir, writer, &options, cause)?;
    let unseen = Unseen::of(host.alloc(), &dir, run.passed);
    let taken = options.taken;
    Ok(DirBuild { run, taken, unseen })
}
