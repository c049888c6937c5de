//! Laws of reasons and of lists, over trees and reports. The functions do nothing: each contract is a law.
ghost use Rattle.std.specs.Prelude.{◌≡◌, ◌↔◌, ℕ, true, List, Option, Some, None};
ghost use Rattle.redo_record.specs.Paths.{IsAmong};
ghost use Rattle.redo_book.specs.Book.{Record, record_at};
ghost use Rattle.redo_build.specs.Outcomes.{outcome_at};
ghost use Rattle.redo_build.specs.Rules.{Ask};
ghost use Rattle.redo_report.specs.Reports.{IsReport};
ghost use Rattle.redo_report.specs.declared.report.Report.{Report};
ghost use Rattle.redo_why.specs.Reasons.{Reason};
ghost use Rattle.redo_why.specs.OutOfDate.{Stale, Ring, Word, may_begin};
ghost use Rattle.redo_rules.specs.Build.{GivenView, rules_for};
ghost use Rattle.redo_why_trees.specs.TreeWhy.{IsNeededFor, IsToldCyclic, IsToldKept, TellsOf, listed_for, reason_for};

/// By the outcomes that a report tells, each script that it says was begun has a reason, the same as by the outcomes of
/// the build.
pub fn reports_give_reasons()
    ensures { (given : GivenView) (report : Report) →
        IsReport (rules_for given) given.request given.limits.targets report → (b : Ask) → TellsOf report b →
        (p : List ℕ) → IsAmong report.begun.items p → (why : Reason) ×
        (reason_for given (outcome_at (rules_for given) given.limits.targets) p ≡ Some why) ×
        (reason_for given b p ≡ Some why) }
{}

/// Of a target that has a record: if it isn't listed, a report says that it was kept; if it is listed as a ring, that it is
/// cyclic. If it is listed as stale, a report says that its script was begun, unless the target is cyclic. And if a report
/// says so, it was listed as stale or maybe.
pub fn lists_tell_of_reports()
    ensures kept { (given : GivenView) (report : Report) →
        IsReport (rules_for given) given.request given.limits.targets report → (p : List ℕ) (r : Record) →
        record_at given.past.book p ≡ Some r → IsNeededFor given p → listed_for given p ≡ None →
        IsToldKept given report p }
    ensures stale { (given : GivenView) (report : Report) →
        IsReport (rules_for given) given.request given.limits.targets report → (p : List ℕ) (r : Record) →
        record_at given.past.book p ≡ Some r → IsNeededFor given p → (why : Reason) →
        listed_for given p ≡ Some (Stale why) → (outcome_at (rules_for given) given.limits.targets p ≡ None → ⊥) →
        IsAmong report.begun.items p }
    ensures ring { (given : GivenView) (report : Report) →
        IsReport (rules_for given) given.request given.limits.targets report → (p : List ℕ) (r : Record) →
        record_at given.past.book p ≡ Some r → IsNeededFor given p → listed_for given p ≡ Some Ring →
        IsToldCyclic report p }
    ensures begun { (given : GivenView) (report : Report) →
        IsReport (rules_for given) given.request given.limits.targets report → (p : List ℕ) (r : Record) →
        record_at given.past.book p ≡ Some r → IsNeededFor given p → IsAmong report.begun.items p →
        (w : Word) × (listed_for given p ≡ Some w) × (may_begin w ≡ true) }
{}
