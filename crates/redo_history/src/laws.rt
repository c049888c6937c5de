//! Laws of runs over one tree, and of runs one after another. The functions do nothing: each contract is a law.

ghost use Rattle.std.specs.Prelude.{◌≡◌, ◌∷◌, ℕ, Bool, List, Result, Some};
ghost use Rattle.redo_report.specs.ReportText.{report_text};
ghost use Rattle.redo_report.specs.declared.report.Report.{Report};
ghost use Rattle.redo_rules.specs.Build.{GivenView};
ghost use Rattle.redo_rules.specs.Results.{IsGiven, IsResult, IsResultOn, NeedsTooMany};
ghost use Rattle.redo_past.specs.Past.{PastView};
ghost use Rattle.redo_recover.specs.Broken.{GoesOn};
ghost use Rattle.redo_run.specs.Runs.{Reports};
ghost use Rattle.redo_run.specs.declared.bundle.BundleRun.{BundleRun};
ghost use Rattle.redo_run.specs.declared.options.Options.{Options};
ghost use Rattle.redo_core.specs.declared.opening.OpenFault.{OpenFault as RunFault};
ghost use Rattle.redo_history.specs.Answers.{AreSameAnswers, AreSameReports, MayAnswer};
ghost use Rattle.redo_history.specs.Histories.{HasBookOf, HasRecordsOf, IsAfter, IsPlainOn, NoneConfused, Run};
ghost use Rattle.redo_history.specs.SmallHistory.{IsSmallHistory};
ghost use Rattle.redo_run.specs.Skipping.{Agrees};
ghost use Rattle.redo_step.specs.Limits.{LimitsView};
ghost use Rattle.redo_tree.specs.Tree.{Tree};

use redo_book::laws::{a_book_has_no_fault, a_text_has_one_book, a_text_has_one_fault};
use redo_bundle::laws::a_bundle_has_one_tree;
use redo_past::laws::{a_run_leaves_one_book, a_tree_has_one_past};
use redo_tree::laws::{a_tree_without_files_is_a_tree, no_other_file_is_taken_out};

/// A tree, a request and limits have at most one report: any two results are the same, by rows, files with their bytes,
/// the new book among them, and begun scripts. Reports that are the same have the same text.
pub fn a_tree_has_one_report()
    ensures report { (tree : Tree) (request : List (List ℕ)) (limits : LimitsView) (one other : Report) →
        IsResultOn tree request limits one → IsResultOn tree request limits other → AreSameReports one other }
    ensures text { (one other : Report) → AreSameReports one other → (with_files : Bool) →
        report_text one with_files ≡ report_text other with_files }
{
    a_run_leaves_one_book();
    a_tree_has_one_past();
}

/// Two builds of a tree answer the same: a tree that has a report has no refused book and doesn't need too many targets,
/// and a book is refused for one line.
pub fn a_tree_has_one_answer()
    ensures { (tree : Tree) (request : List (List ℕ)) (limits : LimitsView) (one other : Result Report RunFault) →
        MayAnswer tree request limits one → MayAnswer tree request limits other → AreSameAnswers one other }
{
    a_tree_has_one_report();
    a_book_has_no_fault();
    a_text_has_one_fault();
    a_tree_has_one_past();
}

/// Two runs over one bundle, with the same targets and limits, write the same bytes and have the same exit, each with any
/// number of workers. What is said of each run is what [`redo_run::run_bundle`] ensures of one that goes well.
pub fn a_bundle_has_one_report()
    ensures { (one other : Options) → other.targets.items ≡ one.targets.items → other.limits ≡ one.limits →
        (text before after again : List ℕ) (run also : BundleRun) →
        Reports one text (Some before) (Some after) run → Reports other text (Some before) (Some again) also →
        (after ≡ again) × (run.exit ≡ also.exit) }
{
    a_bundle_has_one_tree();
    a_tree_has_one_past();
    a_tree_has_one_report();
}

/// Keeping is sound over any number of runs. Each of them found the book that the one before had left, the first one no
/// book, and whatever else was written into their trees in between. If no digest confuses contents of their trees and
/// reports, then the next run agrees with the build of its sources alone, where no target of that is cyclic: it has the
/// same outcomes and records, the same files, but for the book, and begins no script that isn't begun there. And it
/// doesn't need too many targets, if no digest confuses contents of the report of the sources alone, either.
pub fn books_that_runs_leave_can_be_trusted()
    ensures agrees { (before : List Run) (tree : Tree) (request : List (List ℕ)) (limits : LimitsView)
        (plain report : Report) → IsAfter HasBookOf limits.file_bytes before tree →
        IsPlainOn tree request limits plain → IsResultOn tree request limits report →
        NoneConfused before tree report → Agrees report plain }
    ensures within { (before : List Run) (tree : Tree) (request : List (List ℕ)) (limits : LimitsView)
        (plain : Report) → IsAfter HasBookOf limits.file_bytes before tree → IsPlainOn tree request limits plain →
        NoneConfused before tree plain → NeedsTooMany tree request limits → ⊥ }
{
    any_records_that_runs_leave_can_be_trusted();
}

/// The same holds where each run found any records that runs before it had left: the last book or an older one, one that
/// was put together after a run was broken off, or none.
pub fn any_records_that_runs_leave_can_be_trusted()
    ensures agrees { (before : List Run) (tree : Tree) (request : List (List ℕ)) (limits : LimitsView)
        (plain report : Report) → IsAfter HasRecordsOf limits.file_bytes before tree →
        IsPlainOn tree request limits plain → IsResultOn tree request limits report →
        NoneConfused before tree report → Agrees report plain }
    ensures within { (before : List Run) (tree : Tree) (request : List (List ℕ)) (limits : LimitsView)
        (plain : Report) → IsAfter HasRecordsOf limits.file_bytes before tree → IsPlainOn tree request limits plain →
        NoneConfused before tree plain → NeedsTooMany tree request limits → ⊥ }
    ensures last { (before : List Run) (tree : Tree) → HasBookOf before tree → HasRecordsOf before tree }
{
    a_text_has_one_book();
    a_tree_has_one_past();
    a_tree_without_files_is_a_tree();
    no_other_file_is_taken_out();
}

/// A run was broken off while it stored its files, and somebody may have written since. The tree with which the next run
/// goes on has only records that this run or those before had left. So a run that was broken off counts among those
/// before, though nobody has seen its report.
pub fn recovered_books_are_of_runs()
    ensures { (before : List Run) (run : Run) (given : GivenView) → IsGiven run.tree run.request run.limits given →
        (is : IsResult given run.report) → HasRecordsOf before run.tree → (now : Tree) (past : PastView) →
        GoesOn given run.report is now past → HasRecordsOf (run ∷ before) past.tree }
{
    a_text_has_one_book();
}

/// What these laws ask for can be met. In a small history a first run builds `all`, which depends on `head` and `text`. Its
/// files are stored, and somebody writes `text` a rule of its own. The next run begins `all`, which is requested, and
/// `text`, since its record told that there is no such rule, and keeps `head`; the build of the sources alone begins all
/// three.
pub fn small_histories_are_met()
    ensures { (first : Report) × (next : Report) × (plain : Report) × IsSmallHistory first next plain }
{}
