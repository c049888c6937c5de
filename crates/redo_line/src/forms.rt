//! The forms of the command line: each option, and what the help says of it.

use crate::commands;
use clap::builder::ValueParser;
use clap::{Arg, ArgAction, Command, value_parser};
use std::alloc::{AllocError, Global};

/// The forms in which a report or a list is printed.
static FORMATS: [&str; 5] = ["report", "short", "json", "dot", "html"];

/// If it is given several times, the last one counts, so that an alias may have it.
fn jobs<'a>(alloc: Global) -> Arg<'a> {
    Arg::new(alloc, "jobs")
        .short('j')
        .long("jobs")
        .value_name("N")
        .action(ArgAction::Append)
        .value_parser(value_parser!(usize).range(1..=64))
        .help("Run up to N scripts at a time, 1 to 64 [default: 1]")
}

/// Further uses change nothing.
fn keep_going<'a>(alloc: Global) -> Arg<'a> {
    Arg::new(alloc, "keep-going")
        .short('k')
        .long("keep-going")
        .action(ArgAction::Count)
        .help("Keep going when targets fail; required for a build")
}

fn bundle<'a>(alloc: Global) -> Arg<'a> {
    Arg::new(alloc, "bundle")
        .long("bundle")
        .action(ArgAction::SetTrue)
        .help("Read the tree as a bundle from standard input")
}

fn directory<'a>(alloc: Global) -> Arg<'a> {
    Arg::new(alloc, "directory")
        .short('C')
        .value_name("DIR")
        .help("Read the tree from the directory DIR [default: .]")
}

fn top<'a>(alloc: Global) -> Arg<'a> {
    Arg::new(alloc, "top")
        .long("top")
        .action(ArgAction::SetTrue)
        .help("Read it from the nearest directory with a book")
}

fn dry_run<'a>(alloc: Global) -> Arg<'a> {
    Arg::new(alloc, "dry-run")
        .short('n')
        .long("dry-run")
        .action(ArgAction::SetTrue)
        .help("Do all but change the directory")
}

fn explain<'a>(alloc: Global) -> Arg<'a> {
    Arg::new(alloc, "explain")
        .long("explain")
        .action(ArgAction::SetTrue)
        .help("Say why each script was begun")
}

fn strict<'a>(alloc: Global) -> Arg<'a> {
    Arg::new(alloc, "strict")
        .long("strict")
        .action(ArgAction::SetTrue)
        .help("Fail if a file is stale or soon will be")
}

fn report_format<'a>(alloc: Global) -> Arg<'a> {
    Arg::new(alloc, "format")
        .long("format")
        .value_name("FORMAT")
        .value_parser(ValueParser::Names(&FORMATS))
        .hide_possible_values(true)
        .help("Print as report, short, json, dot or html")
}

fn with_rules<'a>(alloc: Global) -> Arg<'a> {
    Arg::new(alloc, "with-rules")
        .long("with-rules")
        .action(ArgAction::SetTrue)
        .help("With --format dot: draw .do files, too")
}

fn take<'a>(alloc: Global) -> Arg<'a> {
    Arg::new(alloc, "take")
        .long("take")
        .value_name("PATH")
        .action(ArgAction::Append)
        .help("Build sources with a rule at or below PATH anew")
}

fn sync<'a>(alloc: Global) -> Arg<'a> {
    Arg::new(alloc, "sync")
        .long("sync")
        .action(ArgAction::SetTrue)
        .help("Have each file on the disk before it gets its name")
}

fn whichdo<'a>(alloc: Global) -> Arg<'a> {
    Arg::new(alloc, "whichdo")
        .long("whichdo")
        .value_name("TARGET")
        .help("Print where the rule of TARGET is looked for")
}

fn verbose<'a>(alloc: Global) -> Arg<'a> {
    Arg::new(alloc, "verbose")
        .short('v')
        .long("verbose")
        .action(ArgAction::Count)
        .help("Say why targets failed, causes of messages, and notes")
}

fn quiet<'a>(alloc: Global) -> Arg<'a> {
    Arg::new(alloc, "quiet")
        .short('q')
        .long("quiet")
        .action(ArgAction::Count)
        .help("Print no notes and no progress on a terminal")
}

fn targets<'a>(alloc: Global) -> Arg<'a> {
    Arg::new(alloc, "targets")
        .value_name("TARGETS")
        .action(ArgAction::Append)
        .help("What to build [default: all]")
}

/// The forms of the command line.
pub(crate) fn command<'a>(alloc: Global, version: &'a str) -> Result<Command<'a>, AllocError> {
    let mut command = Command::new(alloc, "redo")
        .version(version)
        .about("Builds targets by their .do scripts, in parallel")
        .override_usage("redo -k [OPTIONS] [TARGETS]...")
        .after_help(
            "Options in REDOFLAGS, as -k -j 4, count where the command line doesn't say\notherwise",
        );
    let options = [
        jobs(alloc),
        keep_going(alloc),
        bundle(alloc),
        directory(alloc),
        top(alloc),
        dry_run(alloc),
        explain(alloc),
        report_format(alloc),
        with_rules(alloc),
        strict(alloc),
        take(alloc),
        sync(alloc),
        whichdo(alloc),
        verbose(alloc),
        quiet(alloc),
        targets(alloc),
    ];
    for option in options {
        command = command.arg(option)?;
    }
    commands::with_commands(alloc, command)
}
