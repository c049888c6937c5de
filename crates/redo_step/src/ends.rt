//! Where a script ended, and by which operand.
//!
//! A row of a report has the line of a fault. What is asked here, after a build and for a target that failed, is more:
//! the statement, and the operand whose value ended the script. The script is run once more, with the answers that the
//! build had.

ghost use Rattle.std.specs.Prelude.{◌≡◌, IfOk, IfSome, IfNone};
ghost use Rattle.redo_script.specs.View.{script_of};
ghost use Rattle.redo_step.specs.Ends.{EndsAt, HasNoEnd};
ghost use Rattle.redo_step.specs.Inputs.{inputs_setting};
ghost use Rattle.redo_step.specs.Runs.{start};
ghost use Rattle.redo_step.specs.Statements.{meaning};
ghost use Rattle.redo_step.specs.inside.Scene.{scene_setting};

use crate::answers::Answers;
use crate::halt::Ending;
use crate::limits::Limits;
use crate::machine::Effects;
use crate::scene::Scene;
use crate::shell::Shell;
use crate::walk::{Walked, walk};
use redo_bytes::Bytes;
use redo_path::Path;
use redo_record::Deps;
use redo_script::Script;
use redo_tree::Tree;
use redo_which::Args;
use std::alloc::{AllocError, Global};

/// The operand whose value ended a script.
#[derive(Debug, Drop)]
pub struct AtFault {
    /// Its number among the operands, from 0: the words behind the command's name (of `for`, those behind `in`), then
    /// that of a redirection.
    pub operand: usize,
    /// Its value. If it has none, as the value of a parameter or name outside quotes isn't one plain word, the first
    /// such value.
    pub value: Bytes,
}

/// Where a script ended before its last statement.
#[derive(Debug, Drop)]
pub struct EndPlace {
    /// The number of the statement that ended it, from 0, in the order in which statements begin in the text. An `if`
    /// comes before what is in its branches, a `for` before its body; they end a script by the condition and by the
    /// words.
    pub statement: usize,
    /// The first operand that ends the script by itself. `exit`, `false`, a test that doesn't hold and an output that
    /// is too large are no operand's fault.
    pub fault: Option<AtFault>,
    pub end: Ending,
}

/// What a target's script is given, besides answers: the tree, the target, the rule's arguments and the limits.
#[derive(Clone, Copy)]
#[derive(Drop)]
pub struct ScriptInputs<'a> {
    pub tree: &'a Tree,
    pub target: &'a Path,
    pub args: &'a Args,
    pub limits: Limits,
}

impl<'a> ScriptInputs<'a> {
    /// What the script's commands go by, with these answers.
    #[tactic(auto, unfolding(crate::specs::Setting::setting_by))]
    fn shell<'b, A: Answers>(&self, alloc: Global, answers: &'b A) -> Shell<'a, 'b, A>
        ensures setting { scene_setting result.scene ≡ inputs_setting self.now }
        ensures answers { result.answers.now ≡ answers.now }
    {
        let scene = Scene {
            alloc,
            tree: self.tree,
            target: self.target,
            args: self.args,
            limit: self.limits.file_bytes() as usize,
            bound: Vec::new(alloc),
        };
        Shell { scene, answers }
    }
}

/// Where a script ends with these answers. `None` if it comes to its end, or lacks an answer.
pub fn find_end<A: Answers>(
    alloc: Global,
    inputs: &ScriptInputs,
    script: &Script,
    answers: &A,
) -> Result<Option<EndPlace>, AllocError>
    ensures found { IfOk result (λ found. IfSome found
        (EndsAt (inputs_setting inputs.now) (A.ask answers.now) (script_of script.now.stmts.items) start)) }
    ensures none { IfOk result (λ found. IfNone found
        (HasNoEnd (meaning (inputs_setting inputs.now) (A.ask answers.now) (script_of script.now.stmts.items)))) }
{
    let mut effects = Effects {
        output: Vec::new(alloc),
        third: None,
        deps: Deps::new(alloc),
    };
    let shell = inputs.shell(alloc, answers);
    match walk(&shell, &mut effects, &script.stmts)? {
        Walked::Ended(place) => Ok(Some(place)),
        Walked::Past | Walked::Stopped => Ok(None),
    }
}
