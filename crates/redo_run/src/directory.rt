//! Runs over a directory.

ghost use Rattle.std.specs.Prelude.{◌≡◌, ◌↔◌, ◌≤◌, ◌+◌, false, IfErr, IfOk, IfSome, IsErrOf, true};
ghost use Rattle.redo_core.specs.Permits.{IsUnused};
ghost use Rattle.redo_dir.specs.Loaded.{AreNamesIn, IsLoaded, Leads, ReadIf, wants};
ghost use Rattle.redo_run.specs.Directories.{AllowsRounds, AreFilesOrNone, FallsInList, FallsInPreview, IsFaultOf, IsUnread, IsUnwritten};
ghost use Rattle.redo_run.specs.Directories.{ListsTree, PreviewsTree, ReportsTree};
ghost use Rattle.redo_run.specs.Reading.{HasMended};
ghost use Rattle.redo_run.specs.inside.Foreseen.{IsDecided, IsLoadedAnd, IsUnforeseen, IsUnloadedOr};

use crate::candidates::text_of_search;
use crate::coverage::{is_covered, is_mending_read};
use crate::foreseen::{Foreseen, foresee_over};
use crate::laws::runs_rest_on_what_they_read;
use crate::loading::{Lent, list, load_unread, load_wanted};
use crate::request::requested;
use crate::storing::carry_out;
use crate::wanting::{want_less, want_mended, want_more, wanted_first, wanted_for};
use crate::{Cause, Exit, Host, Observer, Options, RunDirFault};
use redo_bundle::{ByteOut, write_all};
use redo_dir::{DirView, Names, Reading, Wanted, WorkDir};
use redo_names::PathSet;
use redo_past::Past;
use redo_past::laws::a_tree_has_one_past;
use redo_path::Path;
use redo_report::{Report, write_report};
use redo_tree::{Content, Tree};
use redo_which::lookup::search;
use std::sync::Wait;
use std::thread::Threads;

/// What a run over a directory came to.
#[derive(Drop)]
pub struct DirRun {
    /// Whether every requested path is a source or built.
    pub exit: Exit,
    /// How many names were passed over, as `load_dir` says.
    pub passed: u64,
    /// The past of the tree that was built, which the run opened. The tree is as it was loaded, or mended, without the files
    /// that were to be taken back. A file that wasn't read is empty in it.
    pub past: Past,
    /// The report, with the files that were built or kept, but without the new book.
    pub report: Report,
    /// The text of the new book.
    pub book: Content,
}

/// In at most so many rounds not all files are read. One is the rule over a book, and two without one: another is needed
/// where a script fails over an empty file before it declares what it needs besides.
const PARTS: u64 = 14;

/// What was found in a directory, and which files of it are read.
#[derive(Drop)]
struct Round {
    names: Names,
    wanted: Wanted,
    /// The files that couldn't be read once, and weren't wanted from then on. Where one is wanted again, it is needed.
    refused: PathSet,
}

/// Loads a directory, and foresees what a run over it comes to. The directory stays as it is.
fn attempt<H: Threads + Wait + Sync, D: DirView + Sync, O: Observer>(
    host: &mut Host<'_, H, O>,
    dir: &D,
    round: &mut Round,
    options: &Options,
    cause: &mut Cause,
) -> Result<Foreseen, RunDirFault>
    requires permit { IsUnused host.old.permit }
    requires names { AreNamesIn (D.lists dir.now) (D.looks dir.now) round.old.names }
    ensures opened { host.old.permit ≤ host.new.permit + 1 }
    ensures names { AreNamesIn (D.lists dir.now) (D.looks dir.now) round.new.names }
    ensures wanted { round.new.wanted ≡ round.old.wanted }
    ensures foreseen { IfOk result (IsLoadedAnd (D.lists dir.now) (D.looks dir.now)
        (ReadIf (wants round.old.wanted) (D.reads dir.now)) (D.lacks dir.now) options.now) }
    ensures fault { IfErr result (IsUnloadedOr (D.lists dir.now) (D.looks dir.now)
        (wants round.old.wanted) (D.reads dir.now) (D.refuses dir.now) options.now) }
{
    let lent = Lent {
        rt: host.rt,
        alloc: host.alloc(),
    };
    let reading = Reading {
        workers: options.workers,
        wanted: &round.wanted,
    };
    let tree = load_wanted(&lent, dir, &mut round.names, reading, cause)?;
    foresee_over(host, tree, round.names.passed, options)
}

/// Reads the files that are wanted. Answers no tree where one can't be read that nobody may need: the next round does without
/// it; and where mending the tree looks into others: the next round reads those, too.
fn load_part<H: Threads + Sync, D: DirView + Sync, O>(
    host: &Host<'_, H, O>,
    dir: &D,
    round: &mut Round,
    workers: usize,
    cause: &mut Cause,
) -> Result<Option<Tree>, RunDirFault>
    requires names { AreNamesIn (D.lists dir.now) (D.looks dir.now) round.old.names }
    ensures names { AreNamesIn (D.lists dir.now) (D.looks dir.now) round.new.names }
    ensures loaded { IfOk result (λ found. IfSome found (λ tree. IsLoaded (D.lists dir.now)
        (Leads (D.looks dir.now) (ReadIf (wants round.new.wanted) (D.reads dir.now))) tree round.new.names.passed)) }
    ensures own { IfOk result (λ found. IfSome found (AreFilesOrNone (D.lacks dir.now))) }
    ensures mended { IfOk result (λ found. IfSome found (HasMended (wants round.new.wanted))) }
    ensures unread { IfErr result (IsUnread (D.lists dir.now) (D.looks dir.now) (D.reads dir.now) (D.refuses dir.now)) }
{
    let lent = Lent {
        rt: host.rt,
        alloc: host.alloc(),
    };
    let reading = Reading {
        workers,
        wanted: &round.wanted,
    };
    match load_wanted(&lent, dir, &mut round.names, reading, cause) {
        Ok(tree) => {
            if is_mending_read(host.alloc(), &tree, &round.wanted)? {
                return Ok(Some(tree));
            }
            want_mended(host.alloc(), &mut round.wanted, &tree)?;
            Ok(None)
        }
        Err(RunDirFault::Load) => {
            if !want_less(
                host.alloc(),
                &round.names,
                &mut round.wanted,
                &mut round.refused,
            )? {
                return Err(RunDirFault::Load);
            }
            cause.forget();
            Ok(None)
        }
        Err(fault) => Err(fault),
    }
}

/// The same where not all files are read. Answers nothing where what was foreseen rests on others: more files are read then,
/// or all of them.
fn attempt_part<H: Threads + Wait + Sync, D: DirView + Sync, O: Observer>(
    host: &mut Host<'_, H, O>,
    dir: &D,
    round: &mut Round,
    options: &Options,
    cause: &mut Cause,
) -> Result<Option<Foreseen>, RunDirFault>
    requires permit { IsUnused host.old.permit }
    requires names { AreNamesIn (D.lists dir.now) (D.looks dir.now) round.old.names }
    ensures opened { host.old.permit ≤ host.new.permit + 1 }
    ensures names { AreNamesIn (D.lists dir.now) (D.looks dir.now) round.new.names }
    ensures decided { IfOk result (λ found. IfSome found
        (IsDecided (D.lists dir.now) (D.looks dir.now) (D.reads dir.now) (D.lacks dir.now) options.now)) }
    ensures unread { IfErr result (IsUnread (D.lists dir.now) (D.looks dir.now) (D.reads dir.now) (D.refuses dir.now)) }
{
    runs_rest_on_what_they_read();
    a_tree_has_one_past();
    if round.wanted.all {
        return Ok(None);
    }
    let Some(tree) = load_part(host, dir, round, options.workers, cause)? else {
        return Ok(None);
    };
    match foresee_over(host, tree, round.names.passed, options) {
        Ok(foreseen) => {
            if is_covered(host.alloc(), &foreseen, &round.wanted)? {
                return Ok(Some(foreseen));
            }
            want_more(host.alloc(), &mut round.wanted, &foreseen)?;
            Ok(None)
        }
        Err(RunDirFault::Memory) => Err(RunDirFault::Memory),
        Err(_) => {
            // A book or a number of targets is refused only by all files.
            round.wanted.all = true;
            Ok(None)
        }
    }
}

/// The same where all files are read, so that they decide.
fn attempt_all<H: Threads + Wait + Sync, D: DirView + Sync, O: Observer>(
    host: &mut Host<'_, H, O>,
    dir: &D,
    round: &mut Round,
    options: &Options,
    cause: &mut Cause,
) -> Result<Foreseen, RunDirFault>
    requires permit { IsUnused host.old.permit }
    requires names { AreNamesIn (D.lists dir.now) (D.looks dir.now) round.old.names }
    ensures opened { host.old.permit ≤ host.new.permit + 1 }
    ensures names { AreNamesIn (D.lists dir.now) (D.looks dir.now) round.new.names }
    ensures decided { IfOk result (IsDecided (D.lists dir.now) (D.looks dir.now) (D.reads dir.now) (D.lacks dir.now) options.now) }
    ensures fault { IfErr result (IsUnforeseen (D.lists dir.now) (D.looks dir.now) (D.reads dir.now) (D.refuses dir.now) options.now) }
{
    round.wanted.all = true;
    attempt(host, dir, round, options, cause)
}

/// Reads some files, and then those that were looked into besides, as often as it takes, and at last all.
fn foresee_part<H: Threads + Wait + Sync, D: DirView + Sync, O: Observer>(
    host: &mut Host<'_, H, O>,
    dir: &D,
    round: &mut Round,
    options: &Options,
    cause: &mut Cause,
) -> Result<Foreseen, RunDirFault>
    requires permit { 15 ≤ host.old.permit }
    requires names { AreNamesIn (D.lists dir.now) (D.looks dir.now) round.old.names }
    ensures decided { IfOk result (IsDecided (D.lists dir.now) (D.looks dir.now) (D.reads dir.now) (D.lacks dir.now) options.now) }
    ensures fault { IfErr result (IsUnforeseen (D.lists dir.now) (D.looks dir.now) (D.reads dir.now) (D.refuses dir.now) options.now) }
{
    for _part in 0..PARTS {
        if let Some(foreseen) = attempt_part(host, dir, round, options, cause)? {
            return Ok(foreseen);
        }
    }
    attempt_all(host, dir, round, options, cause)
}

/// Reads what a build needs of a directory, in rounds, and foresees what a run comes to. The directory stays as it is.
///
/// A round reads some files, and takes each other one for empty. If all files that its build looked into were read, what it
/// came to holds whatever is in the others. If not, those are read besides, and the build is made again; the last round reads
/// all files. Where they have few bytes, so does the first, unless one can't be read: it may be one that nobody needs.
fn foresee<H: Threads + Wait + Sync, D: DirView + Sync, O: Observer>(
    host: &mut Host<'_, H, O>,
    dir: &D,
    options: &Options,
    cause: &mut Cause,
) -> Result<Foreseen, RunDirFault>
    requires permit { AllowsRounds host.old.permit }
    ensures decided { IfOk result (IsDecided (D.lists dir.now) (D.looks dir.now) (D.reads dir.now) (D.lacks dir.now) options.now) }
    ensures fault { IfErr result (IsUnforeseen (D.lists dir.now) (D.looks dir.now) (D.reads dir.now) (D.refuses dir.now) options.now) }
{
    let names = list(host.rt, host.alloc(), dir, options.workers, cause)?;
    let request = requested(host.alloc(), &options.targets)?;
    let wanted = wanted_first(host.alloc(), dir, &names, &request)?;
    let mut round = Round {
        names,
        wanted,
        refused: PathSet::new(host.alloc()),
    };
    if round.wanted.all {
        match attempt_all(host, dir, &mut round, options, cause) {
            Ok(foreseen) => return Ok(foreseen),
            Err(RunDirFault::Load) => cause.forget(),
            Err(fault) => return Err(fault),
        }
        round.wanted = wanted_for(host.alloc(), dir, &round.names, &request)?;
    }
    foresee_part(host, dir, &mut round, options, cause)
}

/// Finds what a directory has, reads the files that a build of the targets needs, stores the files that were built and the
/// new book in the directory, and then writes the report, without the files. A file that already stood there as it came
/// out is not written again. The workers also read the files, make the digests that the book is compared with, and write.
///
/// What was read decides what the run comes to: it is the same for each tree with these names and these contents,
/// whatever is in the other files.
///
/// Where a run was broken off while it stored its files, the tree is mended first: its files count as built, as its
/// journal tells.
///
/// The build doesn't see the files that are to be taken back, and what it makes is stored over them. One that it doesn't
/// make stays.
///
/// Nothing is written before the build has answered. Then what a broken-off run has left is cleared away, and the new book
/// is written as the journal; the journal becomes the book once the other files are stored. Where a file can't be stored,
/// those before it were, and no report is written; where the report can't be written, all files were stored. A run that
/// has nothing to store writes no journal.
///
/// The report goes out in many small pieces: hand in a writer with a buffer, and flush it afterwards. A program that
/// ends with the run may forget what it returns, rather than free it piece by piece.
pub fn run_dir<H: Threads + Wait + Sync, D: WorkDir + Sync, W: ByteOut, O: Observer>(
    host: &mut Host<'_, H, O>,
    dir: &mut D,
    writer: &mut W,
    options: &Options,
    cause: &mut Cause,
) -> Result<DirRun, RunDirFault>
where
    D::Draft: Send,
    requires permit { AllowsRounds host.old.permit }
    requires writer { W.has_failed writer.old ≡ false }
    ensures report { IfOk result (ReportsTree (D.lists dir.old) (D.looks dir.old) (D.reads dir.old) (D.lacks dir.old)
        options.now (D.done dir.old) (D.done dir.new) (W.held writer.old) (W.held writer.new)) }
    ensures fault { IfErr result (IsFaultOf (D.lists dir.old) (D.looks dir.old) (D.reads dir.old) (D.lacks dir.old)
        (D.refuses dir.old) (λ path kind. (d : D) × D.refuses d path kind) options.now (D.done dir.old) (D.done dir.new)) }
    ensures untouched { IsUnwritten result writer.old writer.new }
    ensures device { IsErrOf result RunDirFault.Device ↔ (W.has_failed writer.new ≡ true) }
{
    let Foreseen { run, mended, plan } = foresee(host, dir, options, cause)?;
    carry_out(host, dir, &mended, &plan, cause)?;
    write_report(writer, &run.report, false)?;
    Ok(run)
}

/// Writes the report that [`run_dir`] would write, and leaves the directory as it is: a run to try out.
pub fn preview_dir<H: Threads + Wait + Sync, D: DirView + Sync, W: ByteOut, O: Observer>(
    host: &mut Host<'_, H, O>,
    dir: &D,
    writer: &mut W,
    options: &Options,
    cause: &mut Cause,
) -> Result<DirRun, RunDirFault>
    requires permit { AllowsRounds host.old.permit }
    requires writer { W.has_failed writer.old ≡ false }
    ensures report { IfOk result (PreviewsTree (D.lists dir.now) (D.looks dir.now) (D.reads dir.now) (D.lacks dir.now)
        options.now (W.held writer.old) (W.held writer.new)) }
    ensures fault { IfErr result
        (FallsInPreview (D.lists dir.now) (D.looks dir.now) (D.reads dir.now) (D.lacks dir.now)
        (D.refuses dir.now) options.now) }
    ensures untouched { IsUnwritten result writer.old writer.new }
    ensures device { IsErrOf result RunDirFault.Device ↔ (W.has_failed writer.new ≡ true) }
{
    let Foreseen { run: preview, .. } = foresee(host, dir, options, cause)?;
    write_report(writer, &preview.report, false)?;
    Ok(preview)
}

/// Reads the names of a directory with all that is below it, and no file, and writes the candidates for a target's rule,
/// as `whichdo_bundle` does. Answers whether one of them is a file, and how many names were passed over.
pub fn whichdo_dir<H: Threads + Sync, D: DirView + Sync, W: ByteOut, O>(
    host: &Host<'_, H, O>,
    dir: &D,
    writer: &mut W,
    target: &Path,
    cause: &mut Cause,
) -> Result<(bool, u64), RunDirFault>
    requires writer { W.has_failed writer.old ≡ false }
    ensures list { IfOk result (λ run. ListsTree (D.lists dir.now) (D.looks dir.now)
        target.now (W.held writer.old) (W.held writer.new) run.0 run.1) }
    ensures fault { IfErr result (FallsInList (D.lists dir.now) (D.looks dir.now) (D.refuses dir.now)) }
    ensures untouched { IsUnwritten result writer.old writer.new }
    ensures device { IsErrOf result RunDirFault.Device ↔ (W.has_failed writer.new ≡ true) }
{
    let (names, passed) = load_unread(host.rt, host.alloc(), dir, cause)?;
    let found = search(host.alloc(), &names, target)?;
    let text = text_of_search(host.alloc(), &found)?;
    write_all(writer, &text)?;
    Ok((found.chosen.is_some(), passed))
}
