//! What the words of a command line ask for.

ghost use Rattle.std.specs.Prelude.{IfOk};
ghost use Rattle.redo_line.specs.Calls.{AreWorkers, HasWorkers};

use crate::above::Here;
use crate::actions::{
    Action, BuildOptions, Cleaning, Dead, Format, Input, Listing, Packing, Query, Shadows, Storing,
};
use crate::commands;
use crate::commands::{
    BUNDLE, CLEAN, DEAD, DIRECTORY, DRY_RUN, EXPLAIN, FORMAT, KEEP_GOING, OOD, PACK, STRICT, SYNC,
    TOP, UNPACK, WHICHDO, WITH_RULES,
};
use crate::line::Line;
use crate::refusal::Refusal;
use redo_path::{Path, PathFault, resolve};
use redo_step::Limits;
use std::alloc::{AllocError, Global};

/// The program's limits: 65,536 targets, and 16 MiB a file.
pub const MOST_TARGETS: u32 = 65_536;

const FILE_BYTES: u32 = 16_777_216;

/// The most scripts that may run side by side.
const MOST_JOBS: usize = 64;

/// Refuses words that ask for nothing that could be done. If there are several reasons, returns the first one that it
/// finds.
pub(crate) fn check(line: &Line<'_>) -> Result<(), Refusal> {
    if !commands::is_given(line) && !line.has(KEEP_GOING) {
        return Err(Refusal::NoKeepGoing);
    }
    commands::check(line)
}

/// What the words ask for, read in this place. They were checked.
pub(crate) fn action_of(alloc: Global, line: &Line<'_>, here: Here) -> Result<Action, Refusal>
    ensures workers { IfOk result HasWorkers }
{
    let Here { top, below } = here;
    if line.has(PACK) {
        let workers = workers(line);
        return Ok(Action::Pack(Packing { dir: top, workers }));
    }
    if line.has(UNPACK) {
        return Ok(Action::Unpack(top));
    }
    if line.has(CLEAN) && !line.has(DEAD) {
        return Ok(Action::Clean(Cleaning {
            dir: top,
            workers: workers(line),
            dry_run: line.has(DRY_RUN),
            synced: line.has(SYNC),
        }));
    }
    let input = if line.has(BUNDLE) {
        Input::Bundle
    } else {
        Input::Directory(top)
    };
    if commands::is_given(line) {
        answer_of(alloc, line, input, &below)
    } else {
        Ok(Action::Build(build_of(alloc, line, input, &below)?))
    }
}

/// What is asked of a tree in place of a build.
fn answer_of(alloc: Global, line: &Line<'_>, input: Input, below: &Path) -> Result<Action, Refusal>
    ensures workers { IfOk result HasWorkers }
{
    let workers = workers(line);
    if line.has(DEAD) {
        return Ok(Action::Dead(Dead {
            build: tried_build_of(alloc, line, input, below)?,
            cleaned: line.has(CLEAN),
            dry_run: line.has(DRY_RUN),
            synced: line.has(SYNC),
        }));
    }
    if let Some(word) = line.word(WHICHDO) {
        return Ok(Action::Whichdo(target(alloc, below, word)?, input));
    }
    if line.has(OOD) {
        return Ok(Action::OutOfDate(Listing {
            targets: named(alloc, line, below)?,
            input,
            workers,
            format: format_of(line),
        }));
    }
    match commands::question_of(alloc, line, below)? {
        Some(question) => Ok(Action::Ask(Query {
            question,
            input,
            workers,
        })),
        None => Ok(Action::Shadowed(Shadows { input, workers })),
    }
}

/// Whether a build stores its files, and whether it waits for the disk.
fn storing_of(line: &Line<'_>) -> Storing {
    if line.has(DRY_RUN) {
        Storing::Nothing
    } else if line.has(SYNC) {
        Storing::Synced
    } else {
        Storing::Plain
    }
}

/// In which form the report or the list is printed.
fn format_of(line: &Line<'_>) -> Format {
    match line.word(FORMAT) {
        Some("short") => Format::Short,
        Some("json") => Format::Json,
        Some("dot") => Format::Dot(line.has(WITH_RULES)),
        Some("html") => Format::Html,
        _ => Format::Report,
    }
}

/// The first of some words that names no path, and why.
fn bad_word<'m>(
    alloc: Global,
    words: Option<&[&'m str]>,
    below: &Path,
) -> Option<(&'m str, PathFault)> {
    words?.iter().find_map(|word| fault_of(alloc, below, word))
}

/// The first word that names no path, and why.
pub(crate) fn bad_target<'m>(
    alloc: Global,
    line: &Line<'m>,
    below: &Path,
) -> Option<(&'m str, PathFault)> {
    if let Some(word) = commands::word_of(line) {
        return fault_of(alloc, below, word);
    }
    match bad_word(alloc, line.targets(), below) {
        Some(bad) => Some(bad),
        None => bad_word(alloc, line.taken(), below),
    }
}

/// The word, and why it names no target, if it names none.
fn fault_of<'w>(alloc: Global, below: &Path, word: &'w str) -> Option<(&'w str, PathFault)> {
    match target(alloc, below, word) {
        Ok(_) => None,
        Err(fault) => Some((word, fault)),
    }
}

/// The path from the top that a word names, which is read in the directory `below` it.
pub(crate) fn target(alloc: Global, below: &Path, word: &str) -> Result<Path, PathFault> {
    resolve(alloc, below, word.as_bytes())
}

/// How many threads may work side by side.
fn workers(line: &Line<'_>) -> usize
    ensures { AreWorkers result }
{
    let Some(matches) = line.jobs() else {
        return 1;
    };
    match matches.get_many::<usize>("jobs") {
        Some(jobs) => match jobs.last() {
            Some(Ok(jobs)) => jobs.clamp(1, MOST_JOBS),
            _ => 1,
        },
        None => 1,
    }
}

/// The paths that some words name.
fn paths_of(alloc: Global, words: Option<&[&str]>, below: &Path) -> Result<Vec<Path>, Refusal> {
    let mut paths = Vec::new(alloc);
    if let Some(words) = words {
        for word in words {
            paths.push(target(alloc, below, word)?)?;
        }
    }
    Ok(paths)
}

/// The targets that are named.
fn named(alloc: Global, line: &Line<'_>, below: &Path) -> Result<Vec<Path>, Refusal> {
    paths_of(alloc, line.targets(), below)
}

/// The path from where the user is to the top, with a slash at its end; nothing if the user is at the top.
fn to_top(alloc: Global, line: &Line<'_>, below: &Path) -> Result<Vec<u8>, AllocError> {
    let mut way = Vec::new(alloc);
    if line.has(TOP) {
        for name in below.text().split(|byte| *byte == b'/') {
            if !name.is_empty() {
                way.extend_from_slice(b"../")?;
            }
        }
        return Ok(way);
    }
    match line.word(DIRECTORY) {
        Some(dir) if dir != "." && !dir.is_empty() => {
            way.extend_from_slice(dir.as_bytes())?;
            if !dir.ends_with('/') {
                way.push(b'/')?;
            }
            Ok(way)
        }
        _ => Ok(way),
    }
}

/// A build of what is named, which is tried out.
fn tried_build_of(
    alloc: Global,
    line: &Line<'_>,
    input: Input,
    below: &Path,
) -> Result<BuildOptions, Refusal>
    ensures workers { IfOk result (λ build. AreWorkers build.workers) }
{
    let mut build = build_of(alloc, line, input, below)?;
    build.storing = Storing::Nothing;
    build.format = Format::Report;
    Ok(build)
}

/// A build as the options want it.
fn build_of(
    alloc: Global,
    line: &Line<'_>,
    input: Input,
    below: &Path,
) -> Result<BuildOptions, Refusal>
    ensures workers { IfOk result (λ build. AreWorkers build.workers) }
{
    let targets = named(alloc, line, below)?;
    let workers = workers(line);
    let Some(limits) = Limits::new(MOST_TARGETS, FILE_BYTES) else {
        unreachable!()
    };
    Ok(BuildOptions {
        targets,
        workers,
        limits,
        take: paths_of(alloc, line.taken(), below)?,
        input,
        storing: storing_of(line),
        format: format_of(line),
        explained: line.has(EXPLAIN),
        strict: line.has(STRICT),
        to_top: to_top(alloc, line, below)?,
        below: below.clone()?,
    })
}
