//! `redo`: builds the targets of a tree of files by their `.do` scripts, and reports what became of each.
//!
//! This crate carries out what the command line asks for (`redo_line`), and has the words on standard error.
#![tactic(auto)]

ghost use Rattle.std.specs.Prelude.{◌≡◌, false};
ghost use Rattle.redo_run.specs.Directories.{AllowsRounds};

mod after;
mod behind;
mod building;
mod causes;
mod cleaning;
mod clock;
mod damaged;
mod dead;
mod diagnosing;
mod formats;
mod found;
mod lists;
mod opening;
mod packing;
mod passing;
mod progress;
mod queries;
mod status;
mod summary;
mod taking;
mod unpacking;
mod unseen;
mod version;

use formats::tells_run;
use progress::Progress;
use redo_bundle::Plain;
use redo_core::permit::Permit;
use redo_dir::{DirLock, LockFault, Lockable, SystemView, lock_dir};
use redo_lenient::LenientDir;
use redo_line::{Action, BuildOptions, Call, Dead, Input, Voice, read_call};
use redo_path::Path;
use redo_run::{Cause, Host, ROUNDS, Said, requested, whichdo_bundle, whichdo_dir};
use status::Fault;
use std::alloc::{AllocError, Global};
use std::io;
use std::io::{BufWriter, Write};
use std::process::ExitCode;
use std::rt::Runtime;
use std::sync::Wait;
use std::thread::Threads;
use unseen::Unseen;
use version::VERSION;

/// The size of the buffer of standard output, in bytes.
const BUFFER_BYTES: usize = 65_536;

fn main(rt: HostRuntime) -> ExitCode {
    let alloc = rt.alloc();
    let Call { action, voice } = match read_call(&rt, alloc, VERSION) {
        Ok(call) => call,
        Err(status) => return ExitCode::from(status),
    };
    let Ok(action) = with_request(alloc, action) else {
        return ExitCode::from(tell_fault(&rt, Fault::Memory));
    };
    let mut cause = Cause::new(alloc);
    let progress = Progress::new(&rt, voice, is_timed(&action, voice));
    let mut host = Host {
        rt: &rt,
        permit: Permit::new(&rt, alloc, ROUNDS),
        observer: &progress,
    };
    match run(&mut host, &action, voice, &mut cause) {
        Ok(good) => ExitCode::from(status::of_good(good)),
        Err(fault) => {
            let status = tell_fault(&rt, fault);
            if voice.causes {
                show_cause(&rt, causes::of_fault(&rt, alloc, fault, &cause, &action));
            }
            ExitCode::from(status)
        }
    }
}

/// A build with what it requests: the default target, where none is named.
fn requesting(alloc: Global, mut build: BuildOptions) -> Result<BuildOptions, AllocError> {
    build.targets = requested(alloc, &build.targets)?;
    Ok(build)
}

/// What is done, with what it requests.
fn with_request(alloc: Global, action: Action) -> Result<Action, AllocError> {
    match action {
        Action::Build(build) => Ok(Action::Build(requesting(alloc, build)?)),
        Action::Dead(dead) => {
            let build = requesting(alloc, dead.build)?;
            Ok(Action::Dead(Dead { build, ..dead }))
        }
        action => Ok(action),
    }
}

/// Whether it is told how long the build takes.
fn is_timed(action: &Action, voice: Voice) -> bool {
    match action {
        Action::Build(build) => voice.summary || tells_run(build.format),
        _ => voice.summary,
    }
}

/// Shows a fault's message. Returns the exit status.
fn tell_fault(rt: &HostRuntime, fault: Fault) -> u8 {
    let _shown = eprintln!(rt; "redo: {fault}");
    status::of_fault(fault)
}

/// Shows the cause of a message, if it is known and memory suffices for its words.
fn show_cause<E: Drop>(rt: &HostRuntime, cause: Result<Option<String>, E>) {
    if let Ok(Some(words)) = cause {
        let _shown = eprintln!(rt; "redo: {words}");
    }
}

/// Does what was asked for, and returns whether all went well.
fn run<H: Runtime + Threads + Wait + Sync>(
    host: &mut Host<'_, H, Progress<'_>>,
    action: &Action,
    voice: Voice,
    cause: &mut Cause,
) -> Result<bool, Fault>
where
    H::File: Send + Lockable,
    H::Dir: Send,
    requires permit { AllowsRounds host.old.permit }
{
    let (rt, alloc) = (host.rt, host.alloc());
    match action {
        Action::Build(build) => building::build(host, build, voice, cause),
        Action::Whichdo(target, input) => list(host, target, input, voice, cause),
        Action::Ask(query) => queries::ask(rt, alloc, query, voice, cause),
        Action::OutOfDate(listing) => queries::list_out_of_date(rt, alloc, listing, voice, cause),
        Action::Shadowed(shadows) => queries::list_shadowed(rt, alloc, shadows, voice, cause),
        Action::Pack(packing) => packing::pack_dir(rt, alloc, packing, cause),
        Action::Unpack(dir) => unpacking::unpack_into(rt, alloc, dir, cause),
        Action::Clean(cleaning) => cleaning::clean_dir(rt, alloc, cleaning, voice, cause),
        Action::Dead(dead) => dead::tell_dead(host, dead, voice, cause),
    }
}

/// Takes the lock of a directory. Where it can't be opened, the cause says why.
pub(crate) fn lock<'a, H: Runtime>(
    rt: &H,
    alloc: Global,
    dir: &'a str,
    cause: &mut Cause,
) -> Result<DirLock<'a, H::File>, Fault>
where
    H::File: Lockable,
{
    match lock_dir(rt, alloc, dir) {
        Ok(lock) => Ok(lock),
        Err(LockFault::Busy) => Err(Fault::Busy),
        Err(LockFault::Device(kind)) => {
            cause.said = Some(Said::System(kind));
            Err(Fault::Directory)
        }
        Err(LockFault::Memory) => Err(Fault::Memory),
    }
}

/// A writer with a buffer, as a report comes in many small pieces.
pub(crate) fn buffered<S: Write + Drop>(alloc: Global, stream: S) -> Result<BufWriter<S>, Fault> {
    BufWriter::with_capacity(alloc, BUFFER_BYTES, stream).map_err(|_| Fault::Memory)
}

/// Writes what is left in the buffer.
pub(crate) fn flush<S: Write + Drop>(writer: &mut BufWriter<S>) -> Result<(), Fault> {
    writer.flush().map_err(|_| Fault::Output)
}

/// Lists a target's candidates, and returns whether one of them is a file.
fn list<H: Runtime + Threads + Sync>(
    host: &Host<'_, H, Progress<'_>>,
    target: &Path,
    input: &Input,
    voice: Voice,
    cause: &mut Cause,
) -> Result<bool, Fault>
where
    H::File: Send,
    H::Dir: Send,
{
    let mut writer = Plain::new(io::writer(host.rt));
    match input {
        Input::Bundle => {
            let mut reader = Plain::new(host.rt.reader());
            Ok(whichdo_bundle(host.alloc(), &mut reader, &mut writer, target, cause)?)
        }
        Input::Directory(dir) => {
            let dir = LenientDir::new(host.alloc(), SystemView::new(host.rt, dir));
            let (found, passed) = whichdo_dir(host, &dir, &mut writer, target, cause)?;
            Unseen::of(host.alloc(), &dir, passed).note(host.rt, voice);
            Ok(found)
        }
    }
}
