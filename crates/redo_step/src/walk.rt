//! Runs a script to the statement that ends it.

ghost use Rattle.std.specs.Prelude.{◌≡◌, ◌+◌, ◌<◌, length, IfOk};
ghost use Rattle.redo_script.specs.Syntax.{finish};
ghost use Rattle.redo_script.specs.View.{script_of, before};
ghost use Rattle.redo_step.specs.Ends.{size, act_operands, moment_run};
ghost use Rattle.redo_step.specs.inside.Machine.{state_of, IsMeant, run_by};
ghost use Rattle.redo_step.specs.inside.Operands.{seen};
ghost use Rattle.redo_step.specs.inside.Scene.{scene_setting};
ghost use Rattle.redo_step.specs.inside.Walk.{Walks, Passes, WalksTurns, IsFurther, IsHalted};

use crate::answers::Answers;
use crate::ends::EndPlace;
use crate::halt::Halt;
use crate::machine::Effects;
use crate::operands::{Operand, Role, all_as, command_operands, condition_operands};
use crate::scope::Values;
use crate::shell::Shell;
use redo_bytes::Bytes;
use redo_record::Deps;
use redo_script::Stmt;
use std::alloc::AllocError;

/// What running some statements came to. A statement is numbered from the first of them.
#[derive(Debug, Drop)]
pub(crate) enum Walked {
    /// The run goes on behind them.
    Past,
    Ended(EndPlace),
    /// It lacks answers.
    Stopped,
}

/// A loop, with the values of its words.
#[derive(Drop)]
struct Round<'a> {
    name: &'a Bytes,
    values: &'a Values,
    body: &'a [Stmt],
}

/// Runs these statements.
#[cycle(walking)]
pub(crate) fn walk<A: Answers>(
    shell: &Shell<A>,
    effects: &mut Effects,
    stmts: &[Stmt],
) -> Result<Walked, AllocError>
    ensures { IfOk result (λ walked. Walks (scene_setting shell.now.scene) (A.ask shell.now.answers.now)
        (script_of stmts.now) (state_of effects.old) walked (state_of effects.new)) }
{
    for (index, stmt) in stmts.iter().enumerate() {
        match walk_stmt(shell, effects, stmt)? {
            Walked::Past => {}
            walked => return further(walked, size_of(&stmts[..index])?),
        }
    }
    Ok(Walked::Past)
}

/// Runs one statement.
#[cycle(walking)]
fn walk_stmt<A: Answers>(
    shell: &Shell<A>,
    effects: &mut Effects,
    stmt: &Stmt,
) -> Result<Walked, AllocError>
    ensures { IfOk result (λ walked. Passes (scene_setting shell.now.scene) (A.ask shell.now.answers.now) stmt.now
        (state_of effects.old) walked (state_of effects.new)) }
{
    match stmt {
        Stmt::Simple(line, command) => match shell.command(*line, command, effects) {
            Ok(()) => Ok(Walked::Past),
            Err(halt) => {
                let operands = command_operands(shell.scene.alloc, command)?;
                halted(shell, *line, &effects.deps, halt, &operands)
            }
        },
        Stmt::If(line, condition, first, second) => {
            match shell.condition(*line, condition, effects) {
                Ok(true) => further(walk(shell, effects, first)?, 1),
                Ok(false) => {
                    let walked = walk(shell, effects, second)?;
                    further(further(walked, size_of(first)?)?, 1)
                }
                Err(halt) => {
                    let operands = condition_operands(shell.scene.alloc, condition)?;
                    halted(shell, *line, &effects.deps, halt, &operands)
                }
            }
        }
        Stmt::Loop(line, name, words, body) => match shell.scene.values(*line, words) {
            Ok(values) => {
                let round = Round {
                    name,
                    values: &values,
                    body,
                };
                further(walk_turns(shell, effects, &round)?, 1)
            }
            Err(halt) => {
                let operands = all_as(shell.scene.alloc, Role::Text, words)?;
                halted(shell, *line, &effects.deps, halt, &operands)
            }
        },
    }
}

/// Runs the turns of a loop.
#[cycle(walking)]
fn walk_turns<A: Answers>(
    shell: &Shell<A>,
    effects: &mut Effects,
    round: &Round,
) -> Result<Walked, AllocError>
    ensures { IfOk result (λ walked. WalksTurns (scene_setting shell.now.scene) (A.ask shell.now.answers.now) round.now
        (state_of effects.old) walked (state_of effects.new)) }
{
    for value in round.values.as_slice() {
        let turn = Shell {
            scene: shell.scene.with_value(round.name, value)?,
            answers: shell.answers,
        };
        match walk(&turn, effects, round.body)? {
            Walked::Past => {}
            walked => return Ok(walked),
        }
    }
    Ok(Walked::Past)
}

/// What a statement came to whose act halted, given its operands.
fn halted<A: Answers>(
    shell: &Shell<A>,
    line: u64,
    declared: &Deps,
    halt: Halt,
    operands: &[Operand],
) -> Result<Walked, AllocError>
    ensures { IfOk result (λ walked. IsHalted (scene_setting shell.now.scene)
        (A.ask shell.now.answers.now) line declared.now (seen operands.now) halt walked) }
{
    match halt {
        Halt::Ended(end) => {
            let fault = shell.at_fault(line, declared, operands, end)?;
            Ok(Walked::Ended(EndPlace {
                statement: 0,
                fault,
                end,
            }))
        }
        Halt::Lacks(_) | Halt::Waits(_, _) => Ok(Walked::Stopped),
        Halt::Memory => Err(AllocError),
    }
}

/// The same, with a statement's number higher by this.
fn further(walked: Walked, by: usize) -> Result<Walked, AllocError>
    ensures { IfOk result (IsFurther walked by) }
{
    match walked {
        Walked::Ended(place) => {
            let statement = sum(by, place.statement)?;
            Ok(Walked::Ended(EndPlace { statement, ..place }))
        }
        other => Ok(other),
    }
}

/// The sum of two numbers of statements. No memory holds more than a `usize` counts.
fn sum(one: usize, other: usize) -> Result<usize, AllocError>
    ensures { IfOk result (λ all. all ≡ one + other) }
{
    one.checked_add(other).ok_or(AllocError)
}

/// The number of these statements and of those inside them.
#[cycle(sizing)]
fn size_of(stmts: &[Stmt]) -> Result<usize, AllocError>
    ensures { IfOk result (λ count. count ≡ size (script_of stmts.now)) }
{
    let mut count: usize = 0;
    for stmt in stmts {
        count = sum(count, size_of_one(stmt)?)?;
    }
    Ok(count)
}

/// The number of a statement and of those inside it.
#[cycle(sizing)]
fn size_of_one(stmt: &Stmt) -> Result<usize, AllocError>
    ensures { IfOk result (λ count. count ≡ size (before stmt.now finish)) }
{
    let inside = match stmt {
        Stmt::Simple(_, _) => 0,
        Stmt::If(_, _, first, second) => sum(size_of(first)?, size_of(second)?)?,
        Stmt::Loop(_, _, _, body) => size_of(body)?,
    };
    sum(inside, 1)
}
