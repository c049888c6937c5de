//! Laws of runs. The functions do nothing: each contract is a law.

ghost use Rattle.std.specs.Prelude.{◌≡◌, ℕ, Bool, List};
ghost use Rattle.redo_mend.specs.Mended.{MendsTo};
ghost use Rattle.redo_reads.specs.Reads.{AgreeOn, AreNamedAlike};
ghost use Rattle.redo_report.specs.declared.report.Report.{Report};
ghost use Rattle.redo_rules.specs.Results.{IsResultOn, NeedsTooMany};
ghost use Rattle.redo_run.specs.Directories.{IsBuilt, steps_of, to_build};
ghost use Rattle.redo_run.specs.Reading.{HasMended, HasRead, MendsAlike};
ghost use Rattle.redo_run.specs.Skipping.{IsSoundOn, IsUnsafeOn};
ghost use Rattle.redo_step.specs.Limits.{LimitsView};
ghost use Rattle.redo_run.specs.declared.exit.Exit.{Exit};
ghost use Rattle.redo_run.specs.declared.options.Options.{Options};
ghost use Rattle.redo_tree.specs.Tree.{IsTree, Tree};

use redo_past::laws::a_tree_has_one_past;
use redo_reads::laws::results_rest_on_what_they_name;
use redo_rules::laws::{books_are_true, true_books_skip_soundly};
use redo_tree::laws::{a_tree_without_files_is_a_tree, no_other_file_is_taken_out};

/// If keeping is safe, the result of a build agrees with that of the sources alone, and the build doesn't need too many
/// targets. If all records of the last book are true, so are those of the new one.
pub fn keeping_is_sound()
    ensures sound { (tree : Tree) (request : List (List ℕ)) (limits : LimitsView) (result : Report) → IsTree tree →
        IsResultOn tree request limits result → IsSoundOn tree request limits result }
    ensures within { (tree : Tree) (request : List (List ℕ)) (limits : LimitsView) →
        NeedsTooMany tree request limits → IsUnsafeOn tree request limits }
{
    true_books_skip_soundly();
    books_are_true();
    a_tree_has_one_past();
    a_tree_without_files_is_a_tree();
    no_other_file_is_taken_out();
}

/// What a run over a directory does depends on names and on the files that it looks into: it is the same for each tree with
/// the same names that agrees on those, whatever its other files contain. That tree is mended alike, comes to the same
/// report, book and exit, and takes the same steps.
pub fn runs_rest_on_what_they_read()
    ensures mended { (one two mended : Tree) (paths : List ℕ → Bool) → IsTree one → IsTree two → AreNamedAlike one two →
        AgreeOn paths one two → HasMended paths one → MendsTo one mended →
        (other : Tree) × MendsAlike paths mended two other }
    ensures built { (one two : Tree) (paths : List ℕ → Bool) (options : Options) (report : Report) (book : List ℕ)
        (exit : Exit) → IsTree one → IsTree two → AreNamedAlike one two → AgreeOn paths one two →
        HasRead paths one options report book exit → IsBuilt (to_build options two) options report book exit }
    ensures steps { (one two mended other : Tree) (paths : List ℕ → Bool) (options : Options) (report : Report)
        (book : List ℕ) (exit : Exit) → IsTree one → IsTree two → AreNamedAlike one two → AgreeOn paths one two →
        HasMended paths one → MendsAlike paths mended two other → HasRead paths mended options report book exit →
        steps_of two other report book ≡ steps_of one mended report book }
{
    results_rest_on_what_they_name();
    keeping_is_sound();
    a_tree_without_files_is_a_tree();
}
