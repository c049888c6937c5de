//! Runs over a directory in memory.

ghost use Rattle.redo_run.specs.Directories.{AllowsRounds};

use crate::memory_dir::{MemoryDir, Node};
use crate::trees::{host_of, limits_of, paths_of};
use redo_bundle::Plain;
use redo_dir::Change;
use redo_path::{Path, resolve};
use redo_run::{Cause, Exit, Host, NoObserver, Options, RunDirFault, run_dir};
use redo_tree::Content;
use std::alloc::Global;
use std::sync::Wait;
use std::test::Fail;
use std::thread::Threads;

/// The path that a word names.
fn path_of(alloc: Global, word: &str) -> Result<Path, Fail> {
    Ok(resolve(alloc, &Path::root(), word.as_bytes())?)
}

/// A file with this text.
fn file_of(alloc: Global, text: &str) -> Result<Node, Fail> {
    let mut bytes = Vec::new(alloc);
    bytes.extend_from_slice(text.as_bytes())?;
    Ok(Node::File(Content::new(bytes)?))
}

/// A directory with two rules, of which one lies in a directory below, a link, and a file with a capital letter.
fn small_dir(alloc: Global) -> Result<MemoryDir, Fail> {
    let mut dir = MemoryDir::new(alloc);
    dir.nodes
        .push((path_of(alloc, "a.do")?, file_of(alloc, "echo a\n")?))?;
    dir.nodes.push((path_of(alloc, "below")?, Node::Directory))?;
    dir.nodes.push((path_of(alloc, "below/b.do")?, file_of(alloc, "echo b\n")?))?;
    dir.nodes.push((path_of(alloc, "link")?, Node::Link))?;
    dir.nodes
        .push((path_of(alloc, "C")?, file_of(alloc, "mine\n")?))?;
    dir.nodes
        .push((path_of(alloc, "c.do")?, file_of(alloc, "echo c\n")?))?;
    Ok(dir)
}

/// What a run came to: whether all was made and how many names were passed over, or why it has no report.
fn ran<H: Threads + Wait + Sync>(
    host: &mut Host<'_, H, NoObserver>,
    dir: &mut MemoryDir,
    targets: &str,
    workers: usize,
) -> Result<Result<(Exit, u64), RunDirFault>, Fail>
    requires { AllowsRounds host.old.permit }
{
    let alloc = host.alloc();
    let options = Options {
        targets: paths_of(alloc, targets)?,
        taken: Vec::new(alloc),
        workers: workers.clamp(1, 64),
        limits: limits_of(9)?,
    };
    let mut writer = Plain::new(Vec::new(alloc));
    let mut cause = Cause::new(alloc);
    let outcome = run_dir(host, dir, &mut writer, &options, &mut cause);
    Ok(outcome.map(|run| (run.exit, run.passed)))
}

/// What was changed, in order: `journal`, the path of a file that got its name, `book` for the journal that became it, and
/// a path behind `-` for a file that was removed.
fn changes(alloc: Global, dir: &MemoryDir) -> Result<String, Fail> {
    let mut text = String::new(alloc);
    for change in &dir.done {
        match change {
            Change::Journal(_) => text.push_str("journal")?,
            Change::Put(path, _, _) => text.push_str(str::from_utf8(path.text())?)?,
            Change::Finish => text.push_str("book")?,
            Change::Remove(path) => {
                text.push('-')?;
                text.push_str(str::from_utf8(path.text())?)?;
            }
        }
        text.push(' ')?;
    }
    Ok(text)
}

#[test]
fn files_are_stored_in_path_order_behind_the_journal(rt: HostRuntime) -> Result<(), Fail> {
    let alloc = rt.alloc();
    for workers in [1, 3] {
        let mut dir = small_dir(alloc)?;
        let outcome = ran(&mut host_of(&rt), &mut dir, "below/b a", workers)?;
        assert_eq!(rt; outcome, Ok((Exit::Good, 1)));
        assert_eq!(rt; changes(alloc, &dir)?.as_str(), "journal a below/b book ");
    }
    Ok(())
}

#[test]
fn what_a_broken_off_run_has_left_is_cleared_away_first(rt: HostRuntime) -> Result<(), Fail> {
    let alloc = rt.alloc();
    // A torn journal, and a whole one, of an empty book.
    let rows = [
        ("en", "-.redo-journal journal a below/b book "),
        ("end\n", ".redo-book -.redo-journal journal a below/b book "),
    ];
    for (text, expected) in rows {
        let mut dir = small_dir(alloc)?;
        dir.nodes
            .push((path_of(alloc, ".redo-journal")?, file_of(alloc, text)?))?;
        let outcome = ran(&mut host_of(&rt), &mut dir, "below/b a", 1)?;
        assert_eq!(rt; outcome, Ok((Exit::Good, 1)));
        assert_eq!(rt; changes(alloc, &dir)?.as_str(), expected);
    }
    Ok(())
}

#[test]
fn each_call_that_fails_is_told(rt: HostRuntime) -> Result<(), Fail> {
    let alloc = rt.alloc();
    let mut whole = small_dir(alloc)?;
    let _all = ran(&mut host_of(&rt), &mut whole, "below/b a", 1)?;
    // Two directories are listed, and six names looked at. Then four files are read, and the places of book and journal
    // looked at; where that fails, it is made again, for the files that are needed. The journal is written, two files are
    // written and named, and the journal becomes the book.
    assert_eq!(rt; whole.calls(), 20);
    for call in 1..21u64 {
        let mut dir = small_dir(alloc)?;
        dir.fails_at = call;
        let outcome = ran(&mut host_of(&rt), &mut dir, "below/b a", 1)?;
        let (expected, done) = match call {
            1..=8 => (Err(RunDirFault::Load), 0),
            9..=14 => (Ok((Exit::Good, 1)), 4),
            15 => (Err(RunDirFault::Journal), 0),
            16 | 17 => (Err(RunDirFault::Store(0)), 1),
            18 | 19 => (Err(RunDirFault::Store(1)), 2),
            _ => (Err(RunDirFault::Store(2)), 3),
        };
        assert_eq!(rt; outcome, expected);
        assert_eq!(rt; dir.done.len(), done);
    }
    Ok(())
}

#[test]
fn another_spelling_of_a_name_is_left_as_it_is(rt: HostRuntime) -> Result<(), Fail> {
    let alloc = rt.alloc();
    let mut dir = small_dir(alloc)?;
    dir.folds_case = true;
    assert_eq!(rt;
        ran(&mut host_of(&rt), &mut dir, "a c", 1)?,
        Err(RunDirFault::Store(1))
    );
    assert_eq!(rt; changes(alloc, &dir)?.as_str(), "journal a ");
    Ok(())
}
