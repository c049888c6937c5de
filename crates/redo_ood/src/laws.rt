//! Laws: what a list tells of runs. Each is the contract of a function that does nothing.

ghost use Rattle.std.specs.Prelude.{◌≡◌, ◌⊎◌, ℕ, ◌≤◌, true, false, List, [], Some, None, length};
ghost use Rattle.redo_names.specs.Paths.{IsAmong};
ghost use Rattle.redo_tree.specs.Tree.{IsTree, file_at};
ghost use Rattle.redo_book.specs.Book.{Record, record_at};
ghost use Rattle.redo_book.specs.Intact.{is_intact};
ghost use Rattle.redo_build.specs.Outcomes.{needed_at};
ghost use Rattle.redo_build.specs.Rules.{AreLawful};
ghost use Rattle.redo_skip.specs.NewBook.{IsGood, LastRun};
ghost use Rattle.redo_skip.specs.Sources.{Sources, without_book};
ghost use Rattle.redo_why.specs.OutOfDate.{Ring, Word, listed, may_begin};
ghost use Rattle.redo_why.specs.Runs.{IsBegunBy, IsKept, IsNeededBy, IsRecordInCheck, end_with, rules_with};
ghost use Rattle.redo_list.specs.Lists.{ListedView};
ghost use Rattle.redo_past.specs.Past.{IsPast, PastView};
ghost use Rattle.redo_reads.specs.Reads.{AreNamedAlike, named_in};
ghost use Rattle.redo_report.specs.Reports.{IsReport};
ghost use Rattle.redo_report.specs.declared.report.Report.{Report};
ghost use Rattle.redo_rules.specs.Build.{GivenView, last_run_of, rules_for, sources_for};
ghost use Rattle.redo_why_trees.specs.TreeWhy.{IsToldCyclic, IsToldKept};
ghost use Rattle.redo_ood.specs.Foreseen.{IsFirstAsked, IsHonestGiven, IsListed, IsListedAs, IsNeededIn, IsUnforeseen, is_new};
ghost use Rattle.redo_ood.specs.Foreseen.{is_open, is_ring, is_unknown};
ghost use Rattle.redo_ood.specs.Listing.{IsList, IsRingOf, RestsOn, run_over, word_with};

use redo_why::laws::verdicts_tell_of_this_run;

/// Without a request a list tells of every run: what it says of a record's target is what redo_why lists, so the laws
/// of that crate tell of it.
pub fn a_list_tells_of_every_run()
    ensures { (s : Sources) (last : LastRun) (r : Record) → record_at last.book r.target ≡ Some r →
        word_with s last [] r ≡ listed s last r.target }
{}

/// With a request a word tells of the run that requests it and keeps to the limit, whatever the book says. A target
/// that is in check and that the run needs is kept if it isn't listed. If the run begins its script, it is listed, as
/// stale or maybe. If it is listed as a ring, it is cyclic, and isn't begun.
pub fn a_word_tells_of_its_run()
    ensures kept { (s : Sources) (last : LastRun) (request : List (List ℕ)) (limit : ℕ) → AreLawful (without_book s) →
        IsGood s → length (needed_at (rules_with s last request) request limit) ≤ limit → (r : Record) →
        IsRecordInCheck s last request r.target r → IsNeededBy s last request limit r.target →
        s.is_source r.target ≡ false → word_with s last request r ≡ None → IsKept s last request limit r.target }
    ensures begun { (s : Sources) (last : LastRun) (request : List (List ℕ)) (limit : ℕ) → AreLawful (without_book s) →
        IsGood s → length (needed_at (rules_with s last request) request limit) ≤ limit → (r : Record) →
        IsRecordInCheck s last request r.target r → IsNeededBy s last request limit r.target →
        s.is_source r.target ≡ false → IsBegunBy s last request limit r.target →
        (w : Word) × (word_with s last request r ≡ Some w) × (may_begin w ≡ true) }
    ensures ring { (s : Sources) (last : LastRun) (request : List (List ℕ)) (limit : ℕ) → AreLawful (without_book s) →
        IsGood s → length (needed_at (rules_with s last request) request limit) ≤ limit → (r : Record) →
        IsRecordInCheck s last request r.target r → IsNeededBy s last request limit r.target →
        s.is_source r.target ≡ false → word_with s last request r ≡ Some Ring →
        (end_with s last request limit r.target ≡ None) ×
        ((rules_with s last request).begins r.target (end_with s last request limit) ≡ false) }
{
    verdicts_tell_of_this_run();
}

/// A list tells of the report of its run, whatever the book says. What the run needs is what the request rests on, or
/// what no list can know, as a script that is begun is the first to ask for it. What it begins is requested, or is
/// listed as stale, maybe or new, or is such an unforeseen target. What the request rests on and isn't listed is
/// kept, unless it is requested; and what is listed as a ring is cyclic.
pub fn a_list_tells_of_its_run()
    ensures known { (given : GivenView) (report : Report) →
        IsReport (rules_for given) given.request given.limits.targets report → (p : List ℕ) → IsNeededIn given p →
        RestsOn given p ⊎ IsUnforeseen given p }
    ensures begun { (given : GivenView) (report : Report) (listed : List ListedView) →
        IsReport (rules_for given) given.request given.limits.targets report → IsList given listed → (p : List ℕ) →
        IsAmong report.begun.items p →
        IsAmong given.request p ⊎ (IsListedAs listed p is_open ⊎ IsUnforeseen given p) }
    ensures kept { (given : GivenView) (report : Report) (listed : List ListedView) →
        IsReport (rules_for given) given.request given.limits.targets report → IsList given listed → (p : List ℕ) →
        IsNeededIn given p → RestsOn given p → (sources_for given).has_rule p ≡ true →
        (IsAmong given.request p → ⊥) → (IsListed listed p → ⊥) → IsToldKept given report p }
    ensures ring { (given : GivenView) (report : Report) (listed : List ListedView) →
        IsReport (rules_for given) given.request given.limits.targets report → IsList given listed → (p : List ℕ) →
        IsNeededIn given p → (IsAmong given.request p → ⊥) → IsListedAs listed p is_ring → IsToldCyclic report p }
{
    a_word_tells_of_its_run();
}

/// A requested path is left out only if it is a source, or a target whose whole record stands. Without a record, a
/// target is listed as new, and what is neither a source nor a target as unknown.
pub fn a_requested_path_is_listed()
    ensures silent { (given : GivenView) (listed : List ListedView) → IsList given listed → (p : List ℕ) →
        IsAmong given.request p → (IsListed listed p → ⊥) → ((sources_for given).is_source p ≡ true) ⊎ ((r : Record) ×
        (record_at given.past.book p ≡ Some r) × ((sources_for given).has_rule p ≡ true) ×
        (is_intact (file_at given.past.tree) r ≡ true) ×
        (word_with (sources_for given) (last_run_of given.past) given.request r ≡ None)) }
    ensures new { (given : GivenView) (listed : List ListedView) → IsList given listed → (p : List ℕ) →
        IsAmong given.request p → (sources_for given).is_source p ≡ false → (sources_for given).has_rule p ≡ true →
        record_at given.past.book p ≡ None → IsListedAs listed p is_new }
    ensures unknown { (given : GivenView) (listed : List ListedView) → IsList given listed → (p : List ℕ) →
        IsAmong given.request p → (sources_for given).is_source p ≡ false → (sources_for given).has_rule p ≡ false →
        record_at given.past.book p ≡ None → IsListedAs listed p is_unknown }
{}

/// With an honest book only a listed target's script asks for what no list can know. So where nothing is listed, a run
/// begins nothing but what is requested.
pub fn an_empty_list_tells_all()
    ensures first { (given : GivenView) (report : Report) (listed : List ListedView) →
        IsReport (rules_for given) given.request given.limits.targets report → IsList given listed →
        IsHonestGiven given → (target path : List ℕ) → RestsOn given target → IsFirstAsked given target path →
        IsListed listed target }
    ensures empty { (given : GivenView) (report : Report) →
        IsReport (rules_for given) given.request given.limits.targets report → IsList given [] → IsHonestGiven given →
        (p : List ℕ) → IsAmong report.begun.items p → IsAmong given.request p }
{
    a_list_tells_of_its_run();
}

/// What a ring is told to wait for is named by its record, and is listed as a ring, too.
pub fn a_ring_waits_for_a_ring()
    ensures { (s : Sources) (last : LastRun) (request : List (List ℕ)) (r : Record) →
        word_with s last request r ≡ Some Ring → IsRingOf s last request r }
{}

/// A list depends on names, on the book and on the files that this names: it is that of each past with the same names
/// and the same book whose files are the same where it names them, whatever is in the others.
pub fn a_list_rests_on_what_the_book_names()
    ensures { (given : GivenView) (now : PastView) (listed : List ListedView) → IsTree given.past.tree →
        IsTree now.tree → IsPast given.past → IsPast now → AreNamedAlike given.past.tree now.tree →
        now.book ≡ given.past.book →
        ((p : List ℕ) → IsAmong (named_in given.past.book) p → file_at now.tree p ≡ file_at given.past.tree p) →
        IsList given listed → IsList (run_over now given.request given.limits) listed }
{}
