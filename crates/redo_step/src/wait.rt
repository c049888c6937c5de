//! What a redo-ifchange waits for.
//!
//! A script goes on with the operands that aren't sources: its words aren't evaluated again, nothing is declared again,
//! and the tree isn't asked again. Each operand is looked up once, to see whether all are made; only if they aren't
//! does a second pass find out which.

ghost use Rattle.std.specs.Prelude.{◌≡◌, List, IfOk, IsTrue, false, Some, is_none, []};
ghost use Rattle.redo_record.specs.Paths.{Path};
ghost use Rattle.redo_step.specs.Runs.{State, stopped, ends};
ghost use Rattle.redo_step.specs.inside.Machine.{kept_by, run_by, IsMeant};
ghost use Rattle.redo_step.specs.inside.Waiting.{unanswered, any_failure, waited_on};

use crate::answers::Answers;
use crate::halt::Halt;
use redo_names::PathSet;
use redo_path::Path;
use redo_record::Why;
use std::alloc::{AllocError, Global};

/// A redo-ifchange that waits: its line, and its operands that aren't sources.
#[derive(Debug, Drop)]
pub(crate) struct WaitingChange {
    pub(crate) line: u64,
    pub(crate) targets: Vec<Path>,
}

impl WaitingChange {
    /// Goes on if all the targets have answers and none has failed. Else it waits, or fails with `Depends`.
    pub(crate) fn go_on<A: Answers>(self, alloc: Global, answers: &A) -> Result<(), Halt>
        ensures run { (s : State) →
            IsMeant (run_by result s)
            (waited_on (A.ask answers.now) self.line self.targets.items
            (unanswered (A.ask answers.now) [] self.targets.items) s) }
        ensures keeps { (s : State) (ps : List Path) →
            run_by result s ≡ Some (ends (stopped ps) s) → kept_by result ≡ Some self }
    {
        if are_made(answers, &self.targets) {
            return Ok(());
        }
        let found = without_answer(alloc, answers, &self.targets)?;
        if !found.is_empty() {
            return Err(Halt::Waits(found, self));
        }
        if is_any_failed(answers, &self.targets) {
            return Err(Halt::fault(Why::Depends(self.line)));
        }
        Ok(())
    }
}

/// Whether all of these targets have answers and none has failed, as is usual when a script goes on.
fn are_made<A: Answers>(answers: &A, targets: &[Path]) -> bool
    ensures answered { IsTrue result → unanswered (A.ask answers.now) [] targets.now ≡ [] }
    ensures good { IsTrue result → any_failure (A.ask answers.now) targets.now ≡ false }
{
    for path in targets {
        match answers.answer(path) {
            Some(outcome) if !outcome.has_failed() => {}
            _ => return false,
        }
    }
    true
}

/// Whether one of these targets has failed.
fn is_any_failed<A: Answers>(answers: &A, targets: &[Path]) -> bool
    ensures { result ≡ any_failure (A.ask answers.now) targets.now }
{
    for path in targets {
        if answers
            .answer(path)
            .is_some_and(|outcome| outcome.has_failed())
        {
            return true;
        }
    }
    false
}

/// The targets among these that have no answer, each once.
fn without_answer<A: Answers>(
    alloc: Global,
    answers: &A,
    targets: &[Path],
) -> Result<Vec<Path>, AllocError>
    ensures { IfOk result (λ found. found.items ≡ unanswered (A.ask answers.now) [] targets.now) }
{
    let mut found = PathSet::with_capacity(alloc, targets.len())?;
    for path in targets {
        if answers.answer(path).is_none() {
            found.insert(path.clone()?)?;
        }
    }
    Ok(found.into_paths())
}
