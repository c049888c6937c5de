//! Runs a script until it ends or lacks an answer.

ghost use Rattle.std.specs.Prelude.{◌≡◌, ◌+◌, ◌<◌, ◌^◌, IfOk, IfSome, IfNone, length};
ghost use Rattle.redo_script.specs.View.{script_of};
ghost use Rattle.redo_script.specs.Syntax.{finish};
ghost use Rattle.redo_step.specs.Place.{all_of, and_then, skip, left_at};
ghost use Rattle.redo_step.specs.inside.Stands.{stands_at};
ghost use Rattle.redo_step.specs.inside.Kept.{IsKept};
ghost use Rattle.redo_step.specs.inside.Machine.{state_of, Comes, IsStopBefore, IsWithin, IsInTurn, IsPassed};
ghost use Rattle.redo_step.specs.inside.Machine.{turns_from, AreRun, IsTurn, HasBranch, HasNoBranch, HasTurns};
ghost use Rattle.redo_step.specs.inside.Machine.{HasNoTurn};
ghost use Rattle.redo_step.specs.inside.Scene.{scene_setting};

use crate::answers::Answers;
use crate::halt::{Ending, Halt};
use crate::place::{Branch, StopPlace};
use crate::scene::Scene;
use crate::scope::Values;
use crate::shell::Shell;
use crate::wait::WaitingChange;
use redo_bytes::Bytes;
use redo_path::Path;
use redo_record::Deps;
use redo_script::Stmt;
use std::alloc::{AllocError, Global};

/// What a script has done so far.
#[derive(Drop)]
pub(crate) struct Effects {
    pub(crate) output: Vec<u8>,
    /// The bytes of `$3`, once a redirection has created it.
    pub(crate) third: Option<Vec<u8>>,
    pub(crate) deps: Deps,
}

/// How far a list of statements has run.
#[derive(Debug, Drop)]
pub(crate) enum RunEnd {
    Finished,
    Ended(Ending),
    /// Stopped at a place of the list, as these paths lack answers; with the redo-ifchange that waits there, if one
    /// does.
    Stopped(Vec<Path>, StopPlace, Option<WaitingChange>),
}

/// A loop, with the values of its words.
#[derive(Drop)]
struct Turns<'a> {
    name: &'a Bytes,
    values: &'a Values,
    body: &'a [Stmt],
    /// The loop's index among the statements around it.
    index: usize,
}

impl Turns<'_> {
    /// What commands see in this turn.
    fn scene<'a>(&self, scene: &Scene<'a>, turn: usize) -> Result<Scene<'a>, AllocError>
        requires { turn < length self.now.values.now }
        ensures { IfOk result (λ inner. IsTurn (scene_setting scene.now) self.now turn (scene_setting inner)) }
    {
        scene.with_value(self.name, &self.values.as_slice()[turn])
    }
}

/// Runs these statements from index `first` on.
#[cycle(running)]
fn run_from<A: Answers>(
    shell: &Shell<A>,
    effects: &mut Effects,
    stmts: &[Stmt],
    first: usize,
) -> Result<RunEnd, AllocError>
    ensures { IfOk result (λ progress. Comes (scene_setting shell.now.scene) (A.ask shell.now.answers.now)
        (script_of stmts.now) (all_of (scene_setting shell.now.scene) (skip first (script_of stmts.now)))
        (all_of (scene_setting shell.now.scene) finish) (state_of effects.old) progress (state_of effects.new)) }
{
    for index in first..stmts.len() {
        match run_stmt(shell, effects, &stmts[index], index)? {
            RunEnd::Finished => {}
            progress => return Ok(progress),
        }
    }
    Ok(RunEnd::Finished)
}

/// Runs one statement, which has this index among those around it.
#[cycle(running)]
fn run_stmt<A: Answers>(
    shell: &Shell<A>,
    effects: &mut Effects,
    stmt: &Stmt,
    index: usize,
) -> Result<RunEnd, AllocError>
    ensures { IfOk result (λ progress. IsPassed (scene_setting shell.now.scene)
        (A.ask shell.now.answers.now) stmt.now index (state_of effects.old) progress (state_of effects.new)) }
{
    match stmt {
        Stmt::Simple(line, command) => match shell.command(*line, command, effects) {
            Ok(()) => Ok(RunEnd::Finished),
            Err(stop) => stop_before(stop, index),
        },
        Stmt::If(line, condition, first, second) => {
            match shell.condition(*line, condition, effects) {
                Ok(true) => {
                    let progress = run_from(shell, effects, first, 0)?;
                    within(shell.scene.alloc, progress, index, Branch::First)
                }
                Ok(false) => {
                    let progress = run_from(shell, effects, second, 0)?;
                    within(shell.scene.alloc, progress, index, Branch::Second)
                }
                Err(stop) => stop_before(stop, index),
            }
        }
        Stmt::Loop(line, name, words, body) => match shell.scene.values(*line, words) {
            Ok(values) => {
                let turns = Turns {
                    name,
                    values: &values,
                    body,
                    index,
                };
                run_turns(shell, effects, &turns, 0)
            }
            Err(stop) => stop_before(stop, index),
        },
    }
}

/// Runs the turns of a loop from `first` on.
#[cycle(running)]
fn run_turns<A: Answers>(
    shell: &Shell<A>,
    effects: &mut Effects,
    turns: &Turns,
    first: usize,
) -> Result<RunEnd, AllocError>
    ensures { IfOk result (λ progress. AreRun (scene_setting shell.now.scene)
        (A.ask shell.now.answers.now) turns.now first (state_of effects.old) progress (state_of effects.new)) }
{
    for turn in first..turns.values.as_slice().len() {
        let inner = Shell {
            scene: turns.scene(&shell.scene, turn)?,
            answers: shell.answers,
        };
        match run_from(&inner, effects, turns.body, 0)? {
            RunEnd::Finished => {}
            progress => return in_turn(shell.scene.alloc, progress, turns, turn),
        }
    }
    Ok(RunEnd::Finished)
}

/// Runs the turns of a loop from `first` on, and then the statements behind the loop.
fn run_behind<A: Answers>(
    shell: &Shell<A>,
    effects: &mut Effects,
    stmts: &[Stmt],
    turns: &Turns,
    first: usize,
) -> Result<RunEnd, AllocError>
    requires { HasTurns stmts.now turns.now.index turns.now }
    ensures { IfOk result (λ progress. Comes (scene_setting shell.now.scene) (A.ask shell.now.answers.now)
        (script_of stmts.now) (and_then (turns_from (scene_setting shell.now.scene) turns.now first)
        (all_of (scene_setting shell.now.scene) (skip (turns.now.index + 1) (script_of stmts.now))))
        (all_of (scene_setting shell.now.scene) finish) (state_of effects.old) progress (state_of effects.new)) }
{
    match run_turns(shell, effects, turns, first)? {
        RunEnd::Finished => run_from(shell, effects, stmts, turns.index + 1),
        progress => Ok(progress),
    }
}

/// Runs these statements from index `first` on. A redo-ifchange that waited there isn't begun again.
fn resume_before<A: Answers>(
    shell: &Shell<A>,
    effects: &mut Effects,
    stmts: &[Stmt],
    first: usize,
    kept: Option<WaitingChange>,
) -> Result<RunEnd, AllocError>
    requires { IsKept (record { setting = scene_setting shell.now.scene; script = skip first (script_of stmts.now) })
        (state_of effects.old) kept }
    ensures { IfOk result (λ progress. Comes (scene_setting shell.now.scene) (A.ask shell.now.answers.now)
        (script_of stmts.now) (all_of (scene_setting shell.now.scene) (skip first (script_of stmts.now)))
        (all_of (scene_setting shell.now.scene) finish) (state_of effects.old) progress (state_of effects.new)) }
{
    let Some(waiting) = kept else {
        return run_from(shell, effects, stmts, first);
    };
    match waiting.go_on(shell.scene.alloc, shell.answers) {
        Ok(()) => run_from(shell, effects, stmts, first + 1),
        Err(stop) => stop_before(stop, first),
    }
}

/// Runs the rest of these statements from a place on. A redo-ifchange that waited there isn't begun again.
pub(crate) fn resume<A: Answers>(
    shell: &Shell<A>,
    effects: &mut Effects,
    stmts: &[Stmt],
    place: &StopPlace,
    kept: Option<WaitingChange>,
) -> Result<RunEnd, AllocError>
    requires { IsKept (stands_at place.now (scene_setting shell.now.scene) (script_of stmts.now)) (state_of effects.old)
        kept }
    ensures { IfOk result (λ progress. Comes (scene_setting shell.now.scene) (A.ask shell.now.answers.now)
        (script_of stmts.now) (left_at place.now (scene_setting shell.now.scene) (script_of stmts.now))
        (all_of (scene_setting shell.now.scene) finish) (state_of effects.old) progress (state_of effects.new)) }
{
    match place {
        StopPlace::Before(first) => resume_before(shell, effects, stmts, *first, kept),
        StopPlace::Within(index, branch, inner) => {
            // Nothing is left at a place inside a statement that isn't an `if`.
            let Some(part) = branch_at(stmts, *index, *branch) else {
                return Ok(RunEnd::Finished);
            };
            let progress = resume(shell, effects, part, inner, kept)?;
            match within(shell.scene.alloc, progress, *index, *branch)? {
                RunEnd::Finished => run_from(shell, effects, stmts, *index + 1),
                progress => Ok(progress),
            }
        }
        StopPlace::InTurn(index, values, turn, inner) => {
            // Nor is anything in a turn of a statement that isn't a loop, or in a turn without a value.
            let Some(turns) = turns_at(stmts, *index, values, *turn) else {
                return Ok(RunEnd::Finished);
            };
            let here = Shell {
                scene: turns.scene(&shell.scene, *turn)?,
                answers: shell.answers,
            };
            let progress = resume(&here, effects, turns.body, inner, kept)?;
            match in_turn(shell.scene.alloc, progress, &turns, *turn)? {
                RunEnd::Finished => run_behind(shell, effects, stmts, &turns, *turn + 1),
                progress => Ok(progress),
            }
        }
    }
}

/// The statements of a branch, if the statement at this index has branches.
fn branch_at(stmts: &[Stmt], index: usize, branch: Branch) -> Option<&[Stmt]>
    ensures found { IfSome result (λ part. HasBranch stmts.now index branch part.now) }
    ensures none { IfNone result (HasNoBranch stmts.now index) }
{
    if index >= stmts.len() {
        return None;
    }
    match &stmts[index] {
        Stmt::Simple(_, _) | Stmt::Loop(_, _, _, _) => None,
        Stmt::If(_, _, first, second) => match branch {
            Branch::First => Some(first),
            Branch::Second => Some(second),
        },
    }
}

/// The turns of the statement at this index for these values, if it is a loop and has this turn.
fn turns_at<'a>(
    stmts: &'a [Stmt],
    index: usize,
    values: &'a Values,
    turn: usize,
) -> Option<Turns<'a>>
    ensures found { IfSome result (λ turns. HasTurns stmts.now index turns) }
    ensures same { IfSome result (λ turns. turns.values.now ≡ values.now) }
    ensures within { IfSome result (λ turns. turn < length values.now) }
    ensures small { IfSome result (λ turns. turn + 1 < 2 ^ 64) }
    ensures none { IfNone result (HasNoTurn stmts.now index values.now turn) }
{
    if index >= stmts.len() || turn >= values.as_slice().len() {
        return None;
    }
    match &stmts[index] {
        Stmt::Simple(_, _) | Stmt::If(_, _, _, _) => None,
        Stmt::Loop(_, name, _, body) => Some(Turns {
            name,
            values,
            body,
            index,
        }),
    }
}

/// How the statements around one that halted have run.
fn stop_before(stop: Halt, index: usize) -> Result<RunEnd, AllocError>
    ensures { IfOk result (IsStopBefore stop index) }
{
    let here = StopPlace::Before(index);
    match stop {
        Halt::Ended(ending) => Ok(RunEnd::Ended(ending)),
        Halt::Lacks(paths) => Ok(RunEnd::Stopped(paths, here, None)),
        Halt::Waits(paths, waiting) => Ok(RunEnd::Stopped(paths, here, Some(waiting))),
        Halt::Memory => Err(AllocError),
    }
}

/// How the statements around an `if` have run, from how its branch has.
fn within(
    alloc: Global,
    progress: RunEnd,
    index: usize,
    branch: Branch,
) -> Result<RunEnd, AllocError>
    ensures { IfOk result (IsWithin progress index branch) }
{
    match progress {
        RunEnd::Stopped(paths, place, kept) => {
            let place = Box::new(alloc, place)?;
            Ok(RunEnd::Stopped(paths, StopPlace::Within(index, branch, place), kept))
        }
        other => Ok(other),
    }
}

/// How the statements around a loop have run, from how this turn of it has.
fn in_turn(
    alloc: Global,
    progress: RunEnd,
    turns: &Turns,
    turn: usize,
) -> Result<RunEnd, AllocError>
    ensures { IfOk result (IsInTurn progress turns.now.index turns.now.values.now turn) }
{
    match progress {
        RunEnd::Stopped(paths, place, kept) => {
            let place = Box::new(alloc, place)?;
            let values = turns.values.clone()?;
            Ok(RunEnd::Stopped(
                paths,
                StopPlace::InTurn(turns.index, values, turn, place),
                kept,
            ))
        }
        other => Ok(other),
    }
}
