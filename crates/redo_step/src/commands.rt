//! What each command does.

ghost use Rattle.std.specs.Prelude.{◌≡◌, IfSome, None};
ghost use Rattle.redo_script.specs.Syntax.{change};
ghost use Rattle.redo_script.specs.View.{words_of, test_of, command_of, condition_of};
ghost use Rattle.redo_step.specs.Words.{operands_of};
ghost use Rattle.redo_step.specs.Declaring.{free_operands, changed, created, in_any_case};
ghost use Rattle.redo_step.specs.Files.{tested_in};
ghost use Rattle.redo_step.specs.Statements.{command_run, condition_result};
ghost use Rattle.redo_step.specs.inside.Kept.{HasOperands};
ghost use Rattle.redo_step.specs.inside.Machine.{state_of, kept_by, given_by, run_by, IsMeant};
ghost use Rattle.redo_step.specs.inside.Scene.{scene_setting};

use crate::answers::Answers;
use crate::declaring::declare;
use crate::halt::Halt;
use crate::machine::Effects;
use crate::scene::Scene;
use crate::shell::Shell;
use crate::wait::WaitingChange;
use redo_path::Path;
use redo_record::{Dep, DepKind, Deps};
use redo_script::{Command, Condition, Test, Word};

impl<A: Answers> Shell<'_, '_, A> {
    /// Runs a simple command.
    pub(crate) fn command(
        &self,
        line: u64,
        command: &Command,
        effects: &mut Effects,
    ) -> Result<(), Halt>
        ensures run { IsMeant (run_by result (state_of effects.new))
            (command_run (scene_setting self.now.scene) (A.ask self.now.answers.now) line (command_of command.now)
            (state_of effects.old)) }
        ensures keeps { IfSome (kept_by result)
            (HasOperands (scene_setting self.now.scene) line (command_of command.now) (state_of effects.new)) }
    {
        match command {
            Command::Write(writer, redirection) => {
                self.write(line, writer, redirection, effects)
            }
            Command::Test(test) => {
                if self.tested(line, test, &effects.deps)? {
                    Ok(())
                } else {
                    Err(Halt::exit(1))
                }
            }
            Command::Change(words) => self.change(line, words, effects),
            Command::Create(words) => self.scene.create(line, words, effects),
            Command::Always => always(effects),
            Command::True => Ok(()),
            Command::False => Err(Halt::exit(1)),
            Command::Exit(status) => Err(Halt::exit(*status)),
        }
    }

    /// redo-ifchange(1): declares the paths that these words name, and waits for their answers.
    fn change(&self, line: u64, words: &[Word], effects: &mut Effects) -> Result<(), Halt>
        ensures run { IsMeant (run_by result (state_of effects.new))
            (changed (scene_setting self.now.scene) (A.ask self.now.answers.now) line
            (operands_of (scene_setting self.now.scene) line (words_of words.now)) (state_of effects.old)) }
        ensures keeps { IfSome (kept_by result)
            (HasOperands (scene_setting self.now.scene) line (change (words_of words.now)) (state_of effects.new)) }
    {
        let paths = self.scene.operands(line, words)?;
        declare(&mut effects.deps, DepKind::Change, &paths)?;
        let targets = self.scene.targets(paths);
        WaitingChange { line, targets }.go_on(self.scene.alloc, self.answers)
    }

    /// Whether the condition of test(1) holds.
    fn tested(&self, line: u64, test: &Test, declared: &Deps) -> Result<bool, Halt>
        ensures holds { IsMeant (given_by (λ holds. holds) result)
            (tested_in (scene_setting self.now.scene) (A.ask self.now.answers.now) declared.now line
            (test_of test.now)) }
        ensures keeps { kept_by result ≡ None }
    {
        match test {
            Test::IsFile(word) => {
                let text = self.scene.text(line, word)?;
                Ok(self.file(line, declared, text.bytes())?.is_some())
            }
            Test::Equal(first, second) => {
                let first = self.scene.text(line, first)?;
                let second = self.scene.text(line, second)?;
                Ok(first.bytes() == second.bytes())
            }
            Test::Differ(first, second) => {
                let first = self.scene.text(line, first)?;
                let second = self.scene.text(line, second)?;
                Ok(first.bytes() != second.bytes())
            }
        }
    }

    /// Whether the condition of an `if` holds.
    pub(crate) fn condition(
        &self,
        line: u64,
        condition: &Condition,
        effects: &Effects,
    ) -> Result<bool, Halt>
        ensures holds { IsMeant (given_by (λ holds. holds) result)
            (condition_result (scene_setting self.now.scene) (A.ask self.now.answers.now) line
            (condition_of condition.now) (state_of effects.now)) }
        ensures keeps { kept_by result ≡ None }
    {
        match condition {
            Condition::Test(test) => self.tested(line, test, &effects.deps),
            Condition::True => Ok(true),
            Condition::False => Ok(false),
        }
    }
}

impl Scene<'_> {
    /// redo-ifcreate(1): declares the paths that these words name. None may exist or have a rule.
    fn create(&self, line: u64, words: &[Word], effects: &mut Effects) -> Result<(), Halt>
        ensures run { IsMeant (run_by result (state_of effects.new))
            (created (free_operands (scene_setting self.now) line (words_of words.now)) (state_of effects.old)) }
        ensures keeps { kept_by result ≡ None }
    {
        let paths = self.operands(line, words)?;
        self.check_free(line, &paths)?;
        declare(&mut effects.deps, DepKind::Create, &paths)?;
        Ok(())
    }
}

/// redo-always(1): declares that the target is never to be kept.
fn always(effects: &mut Effects) -> Result<(), Halt>
    ensures run { IsMeant (run_by result (state_of effects.new)) (in_any_case (state_of effects.old)) }
    ensures keeps { kept_by result ≡ None }
{
    effects.deps.insert(Dep {
        kind: DepKind::Always,
        path: Path::root(),
    })?;
    Ok(())
}
