//! The laws of a run that is killed, and of the run after it. The functions do nothing: each contract is a law.

ghost use Rattle.std.specs.Prelude.{◌≡◌, ◌++◌, ℕ, List, Option};
ghost use Rattle.redo_tree.specs.Tree.{IsTree, Tree};
ghost use Rattle.redo_dir.specs.Stored.{Step};
ghost use Rattle.redo_mend.specs.Mended.{MendsTo};
ghost use Rattle.redo_past.specs.Past.{IsPast, PastView};
ghost use Rattle.redo_report.specs.declared.report.Report.{Report};
ghost use Rattle.redo_rules.specs.Build.{GivenView};
ghost use Rattle.redo_rules.specs.Results.{IsResult, IsResultOn};
ghost use Rattle.redo_recover.specs.Broken.{IsBrokenOff, IsStart};
ghost use Rattle.redo_recover.specs.Opening.{AreTwins, Opens};
ghost use Rattle.redo_recover.specs.Steps.{IsFound, IsOfOthers, IsStage, MayHold};
ghost use Rattle.redo_run.specs.Directories.{IsBuilt, steps_of};
ghost use Rattle.redo_run.specs.declared.exit.Exit.{Exit};
ghost use Rattle.redo_run.specs.declared.options.Options.{Options};
ghost use Rattle.redo_resume.specs.Killed.{IsClear};
ghost use Rattle.redo_resume.specs.Resuming.{IsAsFromNothing};
ghost use Rattle.redo_step.specs.Limits.{LimitsView};

use redo_book::laws::a_text_has_one_book;
use redo_past::laws::a_tree_has_one_past;
use redo_recover::laws::each_step_is_a_stage;
use redo_run::laws::keeping_is_sound;

/// The run after one that was broken off comes to what the build of the sources alone comes to, wherever keeping is
/// safe with the recovered book: of the sources that were there before, or, where somebody wrote in between, of those
/// with the same edits.
pub fn the_next_run_is_as_from_nothing()
    ensures unedited { (given : GivenView) (result : Report) (is : IsResult given result) → IsStart given.past →
        (broken : Tree) → IsBrokenOff given result is broken → (past : PastView) → Opens broken past →
        (request : List (List ℕ)) (limits : LimitsView) (next : Report) →
        IsResultOn past.tree request limits next →
        IsAsFromNothing given.past.sources past.tree request limits next }
    ensures edited { (given : GivenView) (result : Report) (is : IsResult given result) → IsStart given.past →
        (before : PastView) → IsStart before → given.past.sources ≡ before.sources →
        (now twin : Tree) → AreTwins given result is now before twin → (past : PastView) → Opens now past →
        (other : PastView) → IsPast other → other.tree ≡ twin →
        (request : List (List ℕ)) (limits : LimitsView) (next : Report) →
        IsResultOn past.tree request limits next →
        IsAsFromNothing other.sources past.tree request limits next }
{
    a_text_has_one_book();
    a_tree_has_one_past();
    keeping_is_sound();
}

/// A run over a directory that is killed at any moment. It takes the steps that `run_dir` promises, one after another, and
/// of these some first ones were answered, and the next one was done or wasn't. Whatever the directory holds then, it is
/// one of the stages: the next run goes on with the tree that this run had, or the run is broken off, as
/// [`the_next_run_is_as_from_nothing`] has it, or it has stored its files.
///
/// That the system does what it answers well is the premise, and that nobody else writes meanwhile.
pub fn a_killed_run_is_at_a_stage()
    ensures { (loaded mended : Tree) (options : Options) (report : Report) (book : List ℕ) (exit : Exit)
        (built : IsBuilt mended options report book exit) → IsTree loaded → MendsTo loaded mended →
        IsStart built.given.past → IsClear mended book report.files.items → IsOfOthers loaded →
        (named : Option (List ℕ)) → IsFound loaded mended named → (front rest : List Step) →
        steps_of loaded mended report book ≡ front ++ rest → (now : Tree) → MayHold named loaded front now →
        IsStage built.given built.whole built.is now }
{
    each_step_is_a_stage();
}
