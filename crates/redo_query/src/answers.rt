//! Questions to the book of the last run, and their answers.

ghost use Rattle.std.specs.Prelude.{◌≡◌, IfOk, map};
ghost use Rattle.redo_query.specs.Answers.{AreUsers, IsAnswer, TellsDeps, TellsUsers};

use crate::nearest::nearest;
use crate::needing::needing;
use crate::standing::{sources, targets};
use crate::text::{entry_lines, path_lines};
use crate::users::{is_one, known_names, targets_of, users};
use redo_book::Book;
use redo_past::Past;
use redo_path::Path;
use std::alloc::{AllocError, Global};

/// What is asked.
#[derive(Drop)]
pub enum Question {
    /// Which targets stand as the last run left them?
    Targets,
    /// Which sources do these depend on?
    Sources,
    /// What does this target depend on?
    Deps(Path),
    /// Who names this path? If `true`, who needs it, to the end?
    Users(Path, bool),
}

/// The answer to a question.
#[derive(Drop)]
pub enum Answer<'a> {
    /// Paths or entries, one a line.
    Lines(Vec<u8>),
    /// The book doesn't know the path. This is the nearest name that it knows.
    Unknown(Option<&'a Path>),
}

/// What a target depends on.
fn deps<'a>(alloc: Global, book: &'a Book, target: &Path) -> Result<Answer<'a>, AllocError>
    ensures { IfOk result (TellsDeps book.now target.now) }
{
    match book.find(target) {
        Some(made) => Ok(Answer::Lines(entry_lines(alloc, &made.entries)?)),
        None => {
            let known = targets_of(alloc, book)?;
            Ok(Answer::Unknown(nearest(alloc, target, &known)?))
        }
    }
}

/// The targets that name a path, or all that need it.
fn users_of<'a>(
    alloc: Global,
    book: &'a Book,
    path: &Path,
    all: bool,
) -> Result<Vec<&'a Path>, AllocError>
    ensures { IfOk result (λ paths. AreUsers book.now path.now all (map (λ p. p.now) paths.items)) }
{
    if all {
        needing(alloc, book, path)
    } else {
        users(alloc, book, path)
    }
}

/// Who needs a path that the book knows.
fn told<'a>(alloc: Global, book: &'a Book, path: &Path, all: bool) -> Result<Answer<'a>, AllocError>
    ensures { IfOk result (TellsUsers book.now path.now all) }
{
    let known = known_names(alloc, book)?;
    if is_one(&known, path) {
        let users = users_of(alloc, book, path, all)?;
        Ok(Answer::Lines(path_lines(alloc, &users)?))
    } else {
        Ok(Answer::Unknown(nearest(alloc, path, &known)?))
    }
}

/// The answer to a question over a past. A path is unknown if it is no target of the book or, where users are asked for,
/// if no record names it either.
pub fn answer_to<'a>(
    alloc: Global,
    past: &'a Past,
    question: &Question,
) -> Result<Answer<'a>, AllocError>
    ensures { IfOk result (IsAnswer past.now question.now) }
{
    match question {
        Question::Targets => Ok(Answer::Lines(path_lines(alloc, &targets(alloc, past)?)?)),
        Question::Sources => Ok(Answer::Lines(path_lines(alloc, &sources(alloc, past)?)?)),
        Question::Deps(target) => deps(alloc, past.book(), target),
        Question::Users(path, all) => told(alloc, past.book(), path, *all),
    }
}
