//! The options that replace a build, and which options don't go together.

use crate::asked::target;
use crate::line::{Line, Named};
use crate::refusal::Refusal;
use clap::{Arg, ArgAction, ArgMatches, Command};
use redo_path::{Path, PathFault};
use redo_query::Question;
use std::alloc::{AllocError, Global};

pub(crate) const OOD: Named = Named("ood", "--ood");

pub(crate) const WHICHDO: Named = Named("whichdo", "--whichdo");

pub(crate) const TARGETS: Named = Named("list-targets", "--targets");

pub(crate) const SOURCES: Named = Named("list-sources", "--sources");

pub(crate) const DEPS: Named = Named("deps", "--deps");

pub(crate) const RDEPS: Named = Named("rdeps", "--rdeps");

pub(crate) const ALL: Named = Named("all", "--all");

pub(crate) const SHADOWED: Named = Named("shadowed", "--shadowed");

pub(crate) const PACK: Named = Named("pack", "--pack");

pub(crate) const UNPACK: Named = Named("unpack", "--unpack");

pub(crate) const CLEAN: Named = Named("clean", "--clean");

pub(crate) const DEAD: Named = Named("dead", "--dead");

pub(crate) const BUNDLE: Named = Named("bundle", "--bundle");

pub(crate) const DIRECTORY: Named = Named("directory", "-C");

pub(crate) const TOP: Named = Named("top", "--top");

pub(crate) const SYNC: Named = Named("sync", "--sync");

pub(crate) const DRY_RUN: Named = Named("dry-run", "-n");

pub(crate) const EXPLAIN: Named = Named("explain", "--explain");

pub(crate) const STRICT: Named = Named("strict", "--strict");

pub(crate) const TAKE: Named = Named("take", "--take");

pub(crate) const FORMAT: Named = Named("format", "--format");

pub(crate) const WITH_RULES: Named = Named("with-rules", "--with-rules");

pub(crate) const JOBS: Named = Named("jobs", "-j");

pub(crate) const KEEP_GOING: Named = Named("keep-going", "-k");

pub(crate) const VERBOSE: Named = Named("verbose", "-v");

pub(crate) const QUIET: Named = Named("quiet", "-q");

/// The options that replace a build. Each excludes the others, except that `--clean` goes with `--dead`.
static COMMANDS: [Named; 11] = [
    WHICHDO, TARGETS, SOURCES, DEPS, RDEPS, OOD, SHADOWED, PACK, UNPACK, CLEAN, DEAD,
];

/// Other options that exclude each other.
static PAIRS: [(Named, Named); 12] = [
    (PACK, BUNDLE),
    (UNPACK, BUNDLE),
    (UNPACK, TOP),
    (CLEAN, BUNDLE),
    (BUNDLE, DIRECTORY),
    (BUNDLE, TOP),
    (BUNDLE, SYNC),
    (BUNDLE, DRY_RUN),
    (BUNDLE, TAKE),
    (DIRECTORY, TOP),
    (SYNC, DRY_RUN),
    (VERBOSE, QUIET),
];

/// Options of builds. [`takes`] tells which command takes one of them, too.
static OF_BUILDS: [Named; 7] = [SYNC, EXPLAIN, STRICT, FORMAT, WITH_RULES, TAKE, DRY_RUN];

/// Under which heading the help has the questions to the book.
const BOOK: &str = "What the book knows, building nothing";

fn list_targets<'a>(alloc: Global) -> Arg<'a> {
    Arg::new(alloc, "list-targets")
        .long("targets")
        .action(ArgAction::SetTrue)
        .help("Print the built targets that stand as they were left")
        .help_heading(BOOK)
}

fn list_sources<'a>(alloc: Global) -> Arg<'a> {
    Arg::new(alloc, "list-sources")
        .long("sources")
        .action(ArgAction::SetTrue)
        .help("Print the sources that these depend on")
        .help_heading(BOOK)
}

fn deps<'a>(alloc: Global) -> Arg<'a> {
    Arg::new(alloc, "deps")
        .long("deps")
        .value_name("TARGET")
        .help("Print what TARGET depends on")
        .help_heading(BOOK)
}

fn rdeps<'a>(alloc: Global) -> Arg<'a> {
    Arg::new(alloc, "rdeps")
        .long("rdeps")
        .value_name("PATH")
        .help("Print the targets that depend on PATH")
        .help_heading(BOOK)
}

fn all<'a>(alloc: Global) -> Arg<'a> {
    Arg::new(alloc, "all")
        .long("all")
        .action(ArgAction::SetTrue)
        .help("With --rdeps: directly or through others")
        .help_heading(BOOK)
}

fn ood<'a>(alloc: Global) -> Arg<'a> {
    Arg::new(alloc, "ood")
        .long("ood")
        .action(ArgAction::SetTrue)
        .help("Print which targets are out of date, and why")
        .help_heading(BOOK)
}

fn shadowed<'a>(alloc: Global) -> Arg<'a> {
    Arg::new(alloc, "shadowed")
        .long("shadowed")
        .action(ArgAction::SetTrue)
        .help("Print the sources that have a rule")
        .help_heading(BOOK)
}

fn pack<'a>(alloc: Global) -> Arg<'a> {
    Arg::new(alloc, "pack")
        .long("pack")
        .action(ArgAction::SetTrue)
        .help("Print the directory as a bundle")
        .help_heading("Trees")
}

fn unpack<'a>(alloc: Global) -> Arg<'a> {
    Arg::new(alloc, "unpack")
        .long("unpack")
        .action(ArgAction::SetTrue)
        .help("Make a bundle's files in an empty or new directory")
        .help_heading("Trees")
}

fn clean<'a>(alloc: Global) -> Arg<'a> {
    Arg::new(alloc, "clean")
        .long("clean")
        .action(ArgAction::SetTrue)
        .help("Remove the files that the last run left, and its book")
        .help_heading("Trees")
}

fn dead<'a>(alloc: Global) -> Arg<'a> {
    Arg::new(alloc, "dead")
        .long("dead")
        .action(ArgAction::SetTrue)
        .help("Print or clean built files that TARGETS need no more")
        .help_heading("Trees")
}

/// Adds these options to the forms of the command line.
pub(crate) fn with_commands<'a>(
    alloc: Global,
    command: Command<'a>,
) -> Result<Command<'a>, AllocError> {
    let mut command = command;
    let options = [
        list_targets(alloc),
        list_sources(alloc),
        deps(alloc),
        rdeps(alloc),
        all(alloc),
        ood(alloc),
        shadowed(alloc),
        pack(alloc),
        unpack(alloc),
        clean(alloc),
        dead(alloc),
    ];
    for option in options {
        command = command.arg(option)?;
    }
    Ok(command)
}

/// Whether an option says what is done in place of a build.
pub(crate) fn is_given(line: &Line<'_>) -> bool {
    COMMANDS.iter().any(|option| line.has_own(*option))
}

/// The question that is asked, if one is.
pub(crate) fn question_of(
    alloc: Global,
    line: &Line<'_>,
    below: &Path,
) -> Result<Option<Question>, PathFault> {
    if line.has(TARGETS) {
        return Ok(Some(Question::Targets));
    }
    if line.has(SOURCES) {
        return Ok(Some(Question::Sources));
    }
    if let Some(word) = line.word(DEPS) {
        return Ok(Some(Question::Deps(target(alloc, below, word)?)));
    }
    match line.word(RDEPS) {
        Some(word) => Ok(Some(Question::Users(target(alloc, below, word)?, line.has(ALL)))),
        None => Ok(None),
    }
}

/// The word of `--whichdo`, `--deps` or `--rdeps`, if one of them is given: it is to name a path.
pub(crate) fn word_of<'a>(line: &Line<'a>) -> Option<&'a str> {
    for option in [WHICHDO, DEPS, RDEPS] {
        if let Some(word) = line.word(option) {
            return Some(word);
        }
    }
    None
}

/// What is done in place of a build by these words, if anything is. Two that say so exclude each other.
pub(crate) fn first_command(matches: &ArgMatches<'_>) -> Result<Option<&'static str>, Refusal> {
    let mut first = None;
    for option in &COMMANDS {
        if option.is_in(matches) {
            match first {
                Some(other) if other == CLEAN.1 && option.1 == DEAD.1 => {}
                Some(other) => return Err(Refusal::Excluded(other, option.1)),
                None => first = Some(option.1),
            }
        }
    }
    Ok(first)
}

/// Whether a command takes an option of builds, too: a list has forms, and a clean may be tried out or wait for the disk.
fn takes(command: &str, option: Named) -> bool {
    if command == CLEAN.1 {
        return option.1 == DRY_RUN.1 || option.1 == SYNC.1;
    }
    command == OOD.1 && option.1 == FORMAT.1
}

/// Whether two options are the same.
fn is_same(one: Named, other: Named) -> bool {
    one.0 == other.0
}

/// Whether an option excludes another one that is among these words.
fn is_excluded(matches: &ArgMatches<'_>, option: Named) -> bool {
    PAIRS.iter().any(|(one, other)| {
        (is_same(option, *one) && other.is_in(matches))
            || (is_same(option, *other) && one.is_in(matches))
    })
}

/// Whether an option belongs to builds, and these words have a command that replaces the build and doesn't take it.
fn is_out_of_place(matches: &ArgMatches<'_>, option: Named) -> bool {
    let is_of_builds = OF_BUILDS.iter().any(|other| is_same(option, *other));
    is_of_builds
        && COMMANDS.iter().any(|command| command.is_in(matches) && !takes(command.1, option))
}

/// Whether an option in the environment doesn't count beside these words: they have one that it excludes, or ask for
/// something that doesn't take it.
pub(crate) fn is_overruled(matches: &ArgMatches<'_>, option: Named) -> bool {
    is_excluded(matches, option) || is_out_of_place(matches, option)
}

/// Refuses two options that exclude each other, or one without another one that it needs.
pub(crate) fn check_pairs(matches: &ArgMatches<'_>) -> Result<(), Refusal> {
    for (one, other) in &PAIRS {
        if one.is_in(matches) && other.is_in(matches) {
            return Err(Refusal::Excluded(one.1, other.1));
        }
    }
    if ALL.is_in(matches) && !RDEPS.is_in(matches) {
        return Err(Refusal::Alone("--all", "--rdeps"));
    }
    Ok(())
}

/// Refuses options that don't go together: two that exclude each other, or one that another one needs.
pub(crate) fn check(line: &Line<'_>) -> Result<(), Refusal> {
    let command = first_command(&line.own)?;
    check_pairs(&line.own)?;
    if line.has_own(WITH_RULES) && line.word(FORMAT) != Some("dot") {
        return Err(Refusal::Alone("--with-rules", "--format dot"));
    }
    let Some(command) = command else {
        return Ok(());
    };
    for option in &OF_BUILDS {
        if line.has_own(*option) && !takes(command, *option) {
            return Err(Refusal::Excluded(command, option.1));
        }
    }
    if line.targets().is_some() && command != OOD.1 && !line.has_own(DEAD) {
        return Err(Refusal::TargetsBeside(command));
    }
    Ok(())
}
