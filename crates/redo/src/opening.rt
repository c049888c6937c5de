//! The past of a tree that is asked about, and isn't built.

use crate::status::Fault;
use crate::unseen::Unseen;
use redo_bundle::{Plain, read_bundle_by_line};
use redo_dir::{DirView, SystemView};
use redo_lenient::LenientDir;
use redo_line::Input;
use redo_past::Past;
use redo_run::{Cause, Opened, open_dir};
use std::alloc::Global;
use std::rt::Runtime;
use std::thread::Threads;

/// Reads a directory with `workers` threads, and opens its past as a run would. Returns it, and how many names were
/// passed over.
pub(crate) fn past_in<H: Runtime + Threads + Sync, D: DirView + Sync>(
    rt: &H,
    alloc: Global,
    dir: &D,
    workers: usize,
    cause: &mut Cause,
) -> Result<(Past, u64), Fault> {
    let Opened { past, passed, .. } = open_dir(rt, alloc, dir, workers, cause)?;
    Ok((past, passed))
}

/// The same of a bundle, or of a directory. Returns what wasn't seen of it, too.
pub(crate) fn past_of<H: Runtime + Threads + Sync>(
    rt: &H,
    alloc: Global,
    input: &Input,
    workers: usize,
    cause: &mut Cause,
) -> Result<(Past, Unseen), Fault>
where
    H::File: Send,
    H::Dir: Send,
{
    match input {
        Input::Bundle => {
            let mut reader = Plain::new(rt.reader());
            let tree = read_bundle_by_line(alloc, &mut reader, &mut cause.header)?;
            Ok((Past::open_by(rt, alloc, workers, tree)?, Unseen::nothing()))
        }
        Input::Directory(dir) => {
            let dir = LenientDir::new(alloc, SystemView::new(rt, dir));
            let (past, passed) = past_in(rt, alloc, &dir, workers, cause)?;
            Ok((past, Unseen::of(alloc, &dir, passed)))
        }
    }
}
