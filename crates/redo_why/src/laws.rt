//! Laws of reasons and of lists. The functions do nothing: each contract is a law.
ghost use Rattle.std.specs.Prelude.{◌≡◌, ◌↔◌, ◌⊎◌, ℕ, ◌≤◌, true, false, List, Option, Some, None, length};
ghost use Rattle.redo_record.specs.Paths.{IsAmong, is_among};
ghost use Rattle.redo_record.specs.declared.outcome.Outcome.{Outcome};
ghost use Rattle.redo_book.specs.declared.book.BookEntry.{BookEntry};
ghost use Rattle.redo_book.specs.Book.{Record, record_at};
ghost use Rattle.redo_book.specs.Intact.{is_intact};
ghost use Rattle.redo_build.specs.Looking.{NoneDue};
ghost use Rattle.redo_build.specs.Outcomes.{final_outcome};
ghost use Rattle.redo_build.specs.Rules.{Ask, AreLawful, Extends};
ghost use Rattle.redo_build.specs.Schedule.{Entry, Event, IsQuiet, known_to, opening};
ghost use Rattle.redo_build.specs.Takes.{takes, IsTaken};
ghost use Rattle.redo_skip.specs.Sources.{Sources, without_book};
ghost use Rattle.redo_skip.specs.Checks.{Check, falls, finding};
ghost use Rattle.redo_skip.specs.NewBook.{LastRun, IsGood, checks_of};
ghost use Rattle.redo_why.specs.Reasons.{Reason, Requested, Unrecorded, Altered, Fallen, reason_of, IsFirstFallen};
ghost use Rattle.redo_why.specs.Verdicts.{Begins, verdict_at, Verdicts, AreFixed, AreReached, Keeps};
ghost use Rattle.redo_why.specs.OutOfDate.{Stale, Maybe, Ring, Word, listed, named, checks_left, verdict_left};
ghost use Rattle.redo_why.specs.OutOfDate.{may_begin, IsOpen, first_drop};
ghost use Rattle.redo_why.specs.Runs.{rules_with, end_with, IsNeededBy, Needs, IsKept, IsBegunBy, IsRecordInCheck};
ghost use Rattle.redo_why.specs.Runs.{AreEvents, KeepsTo, state_with, verdict_with};

/// Whatever is answered, the script of a target with a rule is begun exactly where there is a reason. In a whole run, in
/// whatever order its scripts are taken, those are begun that make a needed target with a reason in the end.
pub fn each_begun_has_a_reason()
    ensures begun { (s : Sources) (last : LastRun) (request : List (List ℕ)) (a : Ask) (p : List ℕ) →
        s.has_rule p ≡ true →
        ((rules_with s last request).begins p a ≡ true) ↔
        ((why : Reason) × (reason_of s last request a p ≡ Some why)) }
    ensures taken { (s : Sources) (last : LastRun) (request : List (List ℕ)) (limit : ℕ) (events : List Event) →
        AreLawful (without_book s) → AreEvents s last request events → IsQuiet (state_with s last request events) →
        NoneDue (rules_with s last request) (state_with s last request events) →
        length (state_with s last request events).entries ≤ limit → (p : List ℕ) →
        IsTaken (takes (rules_with s last request) events (opening (rules_with s last request) request)) p 0 ↔
        (IsNeededBy s last request limit p × (s.has_rule p ≡ true) ×
        ((why : Reason) × (reason_of s last request (end_with s last request limit) p ≡ Some why))) }
{}

/// Which reason it is: the target is requested; else it has no record; else it isn't as the last run left it; else one of
/// its entries is the first that falls.
pub fn reasons_are_exact()
    ensures requested { (s : Sources) (last : LastRun) (request : List (List ℕ)) (a : Ask) (p : List ℕ) →
        (reason_of s last request a p ≡ Some Requested) ↔ (is_among request p ≡ true) }
    ensures unrecorded { (s : Sources) (last : LastRun) (request : List (List ℕ)) (a : Ask) (p : List ℕ) →
        (reason_of s last request a p ≡ Some Unrecorded) ↔
        ((is_among request p ≡ false) × (record_at last.book p ≡ None)) }
    ensures altered { (s : Sources) (last : LastRun) (request : List (List ℕ)) (a : Ask) (p : List ℕ) →
        (reason_of s last request a p ≡ Some Altered) ↔
        ((is_among request p ≡ false) ×
        ((r : Record) × (record_at last.book p ≡ Some r) × (is_intact last.file r ≡ false))) }
    ensures fallen { (s : Sources) (last : LastRun) (request : List (List ℕ)) (a : Ask) (p : List ℕ) (e : BookEntry) →
        (reason_of s last request a p ≡ Some (Fallen e)) ↔
        ((is_among request p ≡ false) × ((r : Record) × (record_at last.book p ≡ Some r) × (is_intact last.file r ≡ true) ×
        IsFirstFallen s a r.entries e)) }
{}

/// A reason stays when more is answered. So the reason when a script is begun, in whatever order, is the reason in the
/// end; and a report gives the same, though it has an outcome for cyclic targets, for which a build has no answer: the
/// check of a begun target asked only for what is needed and has ended.
pub fn reasons_stay()
    ensures more { (s : Sources) (last : LastRun) (request : List (List ℕ)) (a b : Ask) (p : List ℕ) (why : Reason) →
        Extends (without_book s) a b → reason_of s last request a p ≡ Some why →
        reason_of s last request b p ≡ Some why }
    ensures when { (s : Sources) (last : LastRun) (request : List (List ℕ)) (limit : ℕ) → AreLawful (without_book s) →
        (events : List Event) → AreEvents s last request events →
        length (state_with s last request events).entries ≤ limit →
        (e : Entry) (p : List ℕ) (why : Reason) →
        reason_of s last request (known_to (rules_with s last request) (state_with s last request events).entries e) p ≡ Some why →
        reason_of s last request (end_with s last request limit) p ≡ Some why }
    ensures told { (s : Sources) (last : LastRun) (request : List (List ℕ)) (limit : ℕ) → AreLawful (without_book s) → IsGood s →
        KeepsTo s last request limit → (b : Ask) →
        ((q : List ℕ) → IsNeededBy s last request limit q → b q ≡ Some (final_outcome (rules_with s last request) limit q)) →
        (p : List ℕ) → IsBegunBy s last request limit p → (why : Reason) →
        reason_of s last request (end_with s last request limit) p ≡ Some why →
        reason_of s last request b p ≡ Some why }
    ensures answered { (s : Sources) (last : LastRun) (request : List (List ℕ)) (limit : ℕ) →
        AreLawful (without_book s) → IsGood s →
        KeepsTo s last request limit → (p : List ℕ) (c : Check) →
        IsNeededBy s last request limit p → checks_of s last request p ≡ Some c →
        (finding s (end_with s last request limit) c.entries).standing ≡ falls → (q : List ℕ) →
        IsAmong (finding s (end_with s last request limit) c.entries).asked q →
        IsNeededBy s last request limit q × ((o : Outcome) × (end_with s last request limit q ≡ Some o)) }
{}

/// The verdicts that know the request tell of its run, whatever the book says: what they keep is kept; what they begin is
/// begun, for the first entry that drops; what has none is cyclic, and isn't begun.
pub fn verdicts_tell_of_this_run()
    ensures keeps { (s : Sources) (last : LastRun) (request : List (List ℕ)) (limit : ℕ) → AreLawful (without_book s) → IsGood s →
        KeepsTo s last request limit → (p : List ℕ) (r : Record) →
        IsRecordInCheck s last request p r → IsNeededBy s last request limit p →
        verdict_with s last request p ≡ Some Keeps → IsKept s last request limit p }
    ensures begins { (s : Sources) (last : LastRun) (request : List (List ℕ)) (limit : ℕ) → AreLawful (without_book s) → IsGood s →
        KeepsTo s last request limit → (p : List ℕ) (r : Record) →
        IsRecordInCheck s last request p r → IsNeededBy s last request limit p →
        verdict_with s last request p ≡ Some Begins → IsBegunBy s last request limit p × ((d : BookEntry) ×
        (first_drop s (checks_of s last request) (verdict_with s last request) r.entries ≡ Some d) ×
        (reason_of s last request (end_with s last request limit) p ≡ Some (Fallen d))) }
    ensures waits { (s : Sources) (last : LastRun) (request : List (List ℕ)) (limit : ℕ) → AreLawful (without_book s) → IsGood s →
        KeepsTo s last request limit → (p : List ℕ) (r : Record) →
        IsRecordInCheck s last request p r → IsNeededBy s last request limit p →
        verdict_with s last request p ≡ None → (end_with s last request limit p ≡ None) ×
        ((rules_with s last request).begins p (end_with s last request limit) ≡ false) }
{}

/// A target that has a record and isn't listed is kept by each run that needs it and doesn't request it, if the run
/// requests nothing that it rests on, or if the book is honest.
pub fn unlisted_is_kept()
    ensures { (s : Sources) (last : LastRun) (request : List (List ℕ)) (limit : ℕ) → AreLawful (without_book s) →
        IsGood s → (p : List ℕ) (r : Record) → record_at last.book p ≡ Some r → Needs s last request limit p →
        listed s last p ≡ None → IsKept s last request limit p }
{}

/// The script of a stale target is begun by each such run, unless the target is cyclic in it. If its file is altered, or
/// no entry before the one that drops hangs on a script, it is begun in any case, for the reason that is listed.
pub fn stale_is_begun()
    ensures begun { (s : Sources) (last : LastRun) (request : List (List ℕ)) (limit : ℕ) → AreLawful (without_book s) →
        IsGood s → (p : List ℕ) (r : Record) → record_at last.book p ≡ Some r → Needs s last request limit p →
        (why : Reason) → listed s last p ≡ Some (Stale why) → (end_with s last request limit p ≡ None → ⊥) →
        IsBegunBy s last request limit p }
    ensures sure { (s : Sources) (last : LastRun) (request : List (List ℕ)) (limit : ℕ) → AreLawful (without_book s) →
        IsGood s → (p : List ℕ) (r : Record) → record_at last.book p ≡ Some r → Needs s last request limit p →
        s.has_rule p ≡ true → (is_intact last.file r ≡ false) ⊎ (verdict_left s last p ≡ Some Begins) →
        IsBegunBy s last request limit p }
    ensures reason { (s : Sources) (last : LastRun) (request : List (List ℕ)) (limit : ℕ) → AreLawful (without_book s) →
        IsGood s → (p : List ℕ) (r : Record) → record_at last.book p ≡ Some r → Needs s last request limit p →
        (why : Reason) → listed s last p ≡ Some (Stale why) →
        (why ≡ Altered) ⊎ (verdict_left s last p ≡ Some Begins) →
        reason_of s last request (end_with s last request limit) p ≡ Some why }
{}

/// What is listed as a ring is cyclic in each such run, and its script isn't begun.
pub fn rings_are_cyclic()
    ensures { (s : Sources) (last : LastRun) (request : List (List ℕ)) (limit : ℕ) → AreLawful (without_book s) →
        IsGood s → (p : List ℕ) (r : Record) → record_at last.book p ≡ Some r → Needs s last request limit p →
        listed s last p ≡ Some Ring → (end_with s last request limit p ≡ None) ×
        ((rules_with s last request).begins p (end_with s last request limit) ≡ false) }
{}

/// A target that has a record and whose script such a run begins was listed, as stale or maybe.
pub fn begun_was_listed()
    ensures { (s : Sources) (last : LastRun) (request : List (List ℕ)) (limit : ℕ) → AreLawful (without_book s) →
        IsGood s → (p : List ℕ) (r : Record) → record_at last.book p ≡ Some r → Needs s last request limit p →
        IsBegunBy s last request limit p → (w : Word) × (listed s last p ≡ Some w) × (may_begin w ≡ true) }
{}

/// What a target that is listed as maybe hangs on: its record asks for that path, which has a rule, and has no record or
/// is itself listed as stale or maybe.
pub fn maybe_rests_on_begun()
    ensures { (s : Sources) (last : LastRun) (p q : List ℕ) (r : Record) → s.is_source p ≡ false →
        record_at last.book p ≡ Some r → listed s last p ≡ Some (Maybe q) →
        IsAmong (named s (checks_left s last p)) q × IsOpen s last q }
{}

/// Records are no deeper than there are records: from there on a further depth makes no difference.
pub fn book_is_deep_enough()
    ensures { (s : Sources) (last : LastRun) (request : List (List ℕ)) (n : ℕ) → length last.book ≤ n →
        (p : List ℕ) → verdict_at s (checks_of s last request) n p ≡
        verdict_at s (checks_of s last request) (length last.book) p }
{}

/// Verdicts of which each follows from the others and is one at some depth are those of the book. Code that computes them
/// in another order has to show no more.
pub fn fixed_verdicts_are_those()
    ensures { (s : Sources) (last : LastRun) (request : List (List ℕ)) (v : Verdicts) →
        AreFixed s (checks_of s last request) v → AreReached s (checks_of s last request) v → (p : List ℕ) →
        v p ≡ verdict_at s (checks_of s last request) (length last.book) p }
{}
