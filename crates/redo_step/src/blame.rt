//! Which operand is at fault.

ghost use Rattle.std.specs.Prelude.{◌≡◌, ◌↔◌, IfOk, IsTrue};
ghost use Rattle.redo_script.specs.View.{word_of};
ghost use Rattle.redo_step.specs.Ends.{Brings, Blames};
ghost use Rattle.redo_step.specs.Operands.{operand_check, value_check, made_check, goal_check, shown_in};
ghost use Rattle.redo_step.specs.Runs.{end_of};
ghost use Rattle.redo_step.specs.inside.Machine.{given_by, IsMeant};
ghost use Rattle.redo_step.specs.inside.Operands.{operand_of, seen};
ghost use Rattle.redo_step.specs.inside.Scene.{scene_setting};

use crate::answers::Answers;
use crate::ends::AtFault;
use crate::halt::{Ending, Halt};
use crate::operands::{Operand, Role};
use crate::scene::Scene;
use crate::shell::Shell;
use crate::shown::shown_value;
use redo_bytes::Bytes;
use redo_record::{Deps, Why};
use redo_script::Word;
use std::alloc::AllocError;

impl<A: Answers> Shell<'_, '_, A> {
    /// The first of these operands that brings about this end by itself.
    pub(crate) fn at_fault(
        &self,
        line: u64,
        declared: &Deps,
        operands: &[Operand],
        end: Ending,
    ) -> Result<Option<AtFault>, AllocError>
        ensures { IfOk result (Blames (scene_setting self.now.scene) (A.ask self.now.answers.now) line declared.now
            (end_of end) (seen operands.now)) }
    {
        for (index, operand) in operands.iter().enumerate() {
            if self.brings(line, declared, operand, end)? {
                return Ok(Some(AtFault {
                    operand: index,
                    value: self.scene.shown(operand.word)?,
                }));
            }
        }
        Ok(None)
    }

    /// Whether an operand brings about this end by itself.
    fn brings(
        &self,
        line: u64,
        declared: &Deps,
        operand: &Operand,
        end: Ending,
    ) -> Result<bool, AllocError>
        ensures { IfOk result (λ found. IsTrue found ↔
            Brings (scene_setting self.now.scene) (A.ask self.now.answers.now) line declared.now (end_of end)
            (operand_of operand.now)) }
    {
        match self.check(line, declared, operand) {
            Err(Halt::Ended(own)) => Ok(own == end),
            Err(Halt::Memory) => Err(AllocError),
            Ok(()) | Err(Halt::Lacks(_) | Halt::Waits(_, _)) => Ok(false),
        }
    }

    /// What an operand comes to by itself.
    fn check(&self, line: u64, declared: &Deps, operand: &Operand) -> Result<(), Halt>
        ensures { IsMeant (given_by (λ _. tt) result)
            (operand_check (scene_setting self.now.scene) (A.ask self.now.answers.now) line declared.now
            (operand_of operand.now)) }
    {
        let text = self.scene.text(line, operand.word)?;
        self.check_value(line, declared, operand.role, text.bytes())
    }

    /// What a value comes to by itself.
    fn check_value(&self, line: u64, declared: &Deps, role: Role, text: &[u8]) -> Result<(), Halt>
        ensures { IsMeant (given_by (λ _. tt) result)
            (value_check (scene_setting self.now.scene) (A.ask self.now.answers.now) line declared.now role text.now) }
    {
        match role {
            Role::Text => Ok(()),
            Role::Format => Err(Halt::fault(Why::Format(line))),
            Role::Shown => match self.file(line, declared, text)? {
                Some(_) => Ok(()),
                None => Err(Halt::exit(1)),
            },
            Role::Tested => {
                self.file(line, declared, text)?;
                Ok(())
            }
            Role::Changed => self.check_made(line, text),
            Role::Created => {
                let path = self.scene.path(line, text)?;
                self.scene.check_free(line, &[path])
            }
            Role::Goal => self.scene.check_goal(line, text),
        }
    }

    /// Refuses a path that failed (`Depends`).
    fn check_made(&self, line: u64, text: &[u8]) -> Result<(), Halt>
        ensures { IsMeant (given_by (λ _. tt) result)
            (made_check (scene_setting self.now.scene) (A.ask self.now.answers.now) line text.now) }
    {
        let path = self.scene.path(line, text)?;
        if self.scene.source(&path).is_some() {
            return Ok(());
        }
        match self.answers.answer(&path) {
            Some(outcome) if outcome.has_failed() => Err(Halt::fault(Why::Depends(line))),
            _ => Ok(()),
        }
    }
}

impl Scene<'_> {
    /// Refuses a redirection to the target (`Direct`), or to any path but that of `$3` (`Elsewhere`).
    fn check_goal(&self, line: u64, text: &[u8]) -> Result<(), Halt>
        ensures { IsMeant (given_by (λ _. tt) result)
            (goal_check (scene_setting self.now) line text.now) }
    {
        let path = self.path(line, text)?;
        if self.is_target(&path) {
            return Err(Halt::fault(Why::Direct(line)));
        }
        if !self.is_third(&path)? {
            return Err(Halt::fault(Why::Elsewhere(line)));
        }
        Ok(())
    }

    /// What a word stands for: its value, or that of its first parameter outside quotes that isn't fit.
    #[tactic(auto, unfolding(crate::specs::Setting::setting_by))]
    fn shown(&self, word: &Word) -> Result<Bytes, AllocError>
        ensures { IfOk result (λ value. value ≡ shown_in (scene_setting self.now) (word_of word.now)) }
    {
        shown_value(self.alloc, self.args, &self.bound, word)
    }
}
