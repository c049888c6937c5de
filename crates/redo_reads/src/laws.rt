//! Laws of what a report rests on. The functions do nothing: each contract is a law.
ghost use Rattle.std.specs.Prelude.{◌≡◌, ℕ, Bool, List, true};
ghost use Rattle.redo_report.specs.Reports.{IsReport};
ghost use Rattle.redo_report.specs.declared.report.Report.{Report};
ghost use Rattle.redo_rules.specs.Build.{GivenView, rules_of};
ghost use Rattle.redo_rules.specs.Results.{IsGiven, IsRefused, IsResult, IsResultOn};
ghost use Rattle.redo_step.specs.Limits.{LimitsView};
ghost use Rattle.redo_tree.specs.Tree.{IsTree, Tree};
ghost use Rattle.redo_which.specs.Candidates.{book_path};
ghost use Rattle.redo_reads.specs.Reads.{AgreeOn, AreNamedAlike, HasChecked, IsCovered};

use redo_step::more_answers;

/// A report of a tree's sources depends on names and on what its records name: it is that of each tree with the same
/// names that agrees on the .do files of its targets and on the sources that they declared. That holds also where a
/// script failed, and of cyclic targets.
pub fn reports_rest_on_what_they_name()
    ensures { (one two : Tree) (limits : LimitsView) (request : List (List ℕ)) (limit : ℕ) (paths : List ℕ → Bool)
        (report : Report) → AreNamedAlike one two → AgreeOn paths one two →
        IsReport (rules_of one limits) request limit report → IsCovered paths one report →
        IsReport (rules_of two limits) request limit report }
{
    more_answers();
}

/// With a book, the report of a tree depends on the book, on the files at its targets and on what it names of the
/// report's targets, too: it is that of each tree with the same names that agrees on those, with the same rows, begun
/// scripts, files and new book. If the book is refused, it is so for the same line.
pub fn results_rest_on_what_they_name()
    ensures result { (one two : Tree) (request : List (List ℕ)) (limits : LimitsView) (given : GivenView)
        (paths : List ℕ → Bool) (result : Report) → IsTree one → IsTree two → IsGiven one request limits given →
        AreNamedAlike one two → AgreeOn paths one two → HasChecked paths one given.past.book result →
        IsResult given result → IsCovered paths given.past.sources result → IsResultOn two request limits result }
    ensures refused { (one two : Tree) (paths : List ℕ → Bool) (n : ℕ) → AgreeOn paths one two →
        paths book_path ≡ true → IsRefused one n → IsRefused two n }
{
    more_answers();
}
