//! Laws of these rules, as contracts of functions that do nothing.
ghost use Rattle.std.specs.Prelude.{◌≡◌, ℕ, List, ◌≤◌, ◌↔◌, All, true, length};
ghost use Rattle.redo_record.specs.Paths.{IsAmong};
ghost use Rattle.redo_book.specs.Book.{Record, record_at};
ghost use Rattle.redo_build.specs.Rules.{Ask, AreLawful};
ghost use Rattle.redo_build.specs.Outcomes.{needed_at, IsSettled};
ghost use Rattle.redo_build.specs.Schedule.{Event, AllOpen, IsQuiet, opening, run};
ghost use Rattle.redo_build.specs.Takes.{takes, AreOnce, IsTaken};
ghost use Rattle.redo_build.specs.Theorems.{IsPartOfBuild, ShowsBuild};
ghost use Rattle.redo_report.specs.Reports.{IsReport};
ghost use Rattle.redo_report.specs.declared.report.Report.{Report};
ghost use Rattle.redo_step.specs.Limits.{LimitsView};
ghost use Rattle.redo_tree.specs.Tree.{Tree, IsTree};
ghost use Rattle.redo_skip.specs.Checks.{Checks, AreChecks, with_book};
ghost use Rattle.redo_skip.specs.NewBook.{IsGood, new_book};
ghost use Rattle.redo_skip.specs.Sources.{without_book};
ghost use Rattle.redo_skip.specs.Truth.{IsAlike, IsSkipping, NoneCyclic};
ghost use Rattle.redo_rules.specs.Build.{GivenView, checks_for, last_run_of, plain_rules_for, rules_for, rules_of};
ghost use Rattle.redo_rules.specs.Build.{sources_for, sources_of};
ghost use Rattle.redo_rules.specs.Results.{IsResult};
ghost use Rattle.redo_rules.specs.TreeSources.{AreTrueOfTrees, HasHonestBook, IsNotedWhole, IsTrueOfTrees};

/// The scripts of a source tree keep the laws that a build rests on.
pub fn trees_are_lawful()
    ensures { (tree : Tree) (limits : LimitsView) → AreLawful (rules_of tree limits) }
{}

/// The laws of builds, for the scripts of a source tree without a book. Depth `limit` is enough. Every order of takes
/// and hand-ins shows a part of the one build, and all of it once nothing more can happen. No target is taken twice at
/// one turn, and those taken at turn 0 are exactly the needed ones that have a rule.
pub fn builds_of_trees()
    ensures depth { (tree : Tree) (limits : LimitsView) (request : List (List ℕ)) (limit : ℕ) →
        length (needed_at (rules_of tree limits) request limit) ≤ limit →
        IsSettled (rules_of tree limits) request limit }
    ensures part { (tree : Tree) (limits : LimitsView) (request : List (List ℕ)) (limit : ℕ) (events : List Event) →
        AllOpen (rules_of tree limits) (opening (rules_of tree limits) request) events →
        IsPartOfBuild (rules_of tree limits) request limit
        (run (rules_of tree limits) events (opening (rules_of tree limits) request)) }
    ensures quiet { (tree : Tree) (limits : LimitsView) (request : List (List ℕ)) (limit : ℕ) (events : List Event) →
        AllOpen (rules_of tree limits) (opening (rules_of tree limits) request) events →
        IsQuiet (run (rules_of tree limits) events (opening (rules_of tree limits) request)) →
        length (run (rules_of tree limits) events (opening (rules_of tree limits) request)).entries ≤ limit →
        ShowsBuild (rules_of tree limits) request limit
        (run (rules_of tree limits) events (opening (rules_of tree limits) request)) }
    ensures once { (tree : Tree) (limits : LimitsView) (request : List (List ℕ)) (events : List Event) →
        AllOpen (rules_of tree limits) (opening (rules_of tree limits) request) events →
        AreOnce (takes (rules_of tree limits) events (opening (rules_of tree limits) request)) }
    ensures begun { (tree : Tree) (limits : LimitsView) (request : List (List ℕ)) (limit : ℕ) (events : List Event) →
        AllOpen (rules_of tree limits) (opening (rules_of tree limits) request) events →
        IsQuiet (run (rules_of tree limits) events (opening (rules_of tree limits) request)) →
        length (run (rules_of tree limits) events (opening (rules_of tree limits) request)).entries ≤ limit →
        (p : List ℕ) → IsTaken (takes (rules_of tree limits) events (opening (rules_of tree limits) request)) p 0 ↔
        (IsAmong (needed_at (rules_of tree limits) request limit) p × ((rules_of tree limits).has_rule p ≡ true)) }
{}

/// A target behaves alike with any two trees of sources, if both builds allow a file the same number of bytes: if all
/// that its record names is as it was, it is built the same again, with the same record.
pub fn trees_are_alike()
    ensures { (old new : Tree) (before now : LimitsView) → before.file_bytes ≡ now.file_bytes →
        (before_known now_known : Ask) (p : List ℕ) →
        IsAlike (sources_of old before) before_known (sources_of new now) now_known p }
{}

/// A book can have each record of a target that the sources of a tree build. Only a path with a rule is built, and no
/// .do file has one.
pub fn trees_are_good()
    ensures { (tree : Tree) (limits : LimitsView) → IsGood (sources_of tree limits) }
{}

/// Without a book, the build of a tree's sources is that of the tree. With one it keeps the laws of builds, whatever
/// the book says.
pub fn books_over_trees_are_lawful()
    ensures plain { (tree : Tree) (limits : LimitsView) → without_book (sources_of tree limits) ≡ rules_of tree limits }
    ensures checks { (tree : Tree) (limits : LimitsView) (k : Checks) → AreChecks (sources_of tree limits) k →
        AreLawful (with_book (sources_of tree limits) k) }
    ensures book { (given : GivenView) → AreLawful (rules_for given) }
{}

/// If the book is honest, and the build of the sources alone needs at most `limit` targets and none of them is cyclic,
/// then the build with the book comes to the same, and begins no other scripts.
pub fn true_books_skip_soundly()
    ensures { (given : GivenView) →
        length (needed_at (plain_rules_for given) given.request given.limits.targets) ≤ given.limits.targets →
        NoneCyclic (plain_rules_for given) given.request given.limits.targets → HasHonestBook given →
        IsSkipping (sources_for given) (checks_for given) given.request given.limits.targets }
{}

/// A build with a book of records that are true of trees leaves such a book, if it keeps to the limit.
pub fn true_books_stay_true()
    ensures { (given : GivenView) →
        length (needed_at (rules_for given) given.request given.limits.targets) ≤ given.limits.targets →
        AreTrueOfTrees given.limits.file_bytes (record_at given.past.book) →
        AreTrueOfTrees given.limits.file_bytes
        (new_book (sources_for given) (last_run_of given.past) given.request given.limits.targets) }
{}

/// The book that a build leaves has every entry in the record of every target that was built: none is left out for
/// being about the top directory.
pub fn books_leave_nothing_out()
    ensures { (given : GivenView) (report : Report) → IsTree given.past.sources →
        IsReport (rules_for given) given.request given.limits.targets report →
        All IsNotedWhole report.rows.items }
{}

/// If the records of the last book are true of trees, so are those of the book in the result of a build. A look-up
/// finds no others.
pub fn books_are_true()
    ensures left { (given : GivenView) (result : Report) (is : IsResult given result) → IsTree given.past.sources →
        All (IsTrueOfTrees given.limits.file_bytes) given.past.book →
        All (IsTrueOfTrees given.limits.file_bytes) is.with_book.book }
    ensures found { (file_bytes : ℕ) (book : List Record) → All (IsTrueOfTrees file_bytes) book →
        AreTrueOfTrees file_bytes (record_at book) }
{}
