//! Laws over the definitions, as contracts of functions that do nothing.
ghost use Rattle.std.specs.Prelude.{◌≡◌, ℕ, List, [], None, Some, ◌≤◌, length};
ghost use Rattle.redo_record.specs.Paths.{IsAmong};
ghost use Rattle.redo_book.specs.Book.{Record, record_at};
ghost use Rattle.redo_build.specs.Rules.{AreLawful};
ghost use Rattle.redo_build.specs.Outcomes.{needed_at, outcome_at};
ghost use Rattle.redo_skip.specs.Sources.{Sources, without_book};
ghost use Rattle.redo_skip.specs.Checks.{Checks, AreChecks, AreSame, with_book};
ghost use Rattle.redo_skip.specs.Truth.{AreHonest, IsSkipping, NoneCyclic};
ghost use Rattle.redo_skip.specs.NewBook.{LastRun, checks_of, AreTrue, IsGood, IsOfRun, AreHonestRecords, new_book};

/// A build with a book keeps the laws of builds, whatever the book says. Only targets with a rule are in check.
pub fn books_are_lawful()
    ensures law { (s : Sources) (k : Checks) → AreLawful (without_book s) → AreChecks s k → AreLawful (with_book s k) }
    ensures checks { (s : Sources) (last : LastRun) (request : List (List ℕ)) → AreChecks s (checks_of s last request) }
{}

/// Without records, a build with a book is the build without one.
pub fn no_records_change_nothing()
    ensures none { (s : Sources) (k : Checks) → ((p : List ℕ) → k p ≡ None) → AreSame (with_book s k) (without_book s) }
    ensures empty { (s : Sources) (last : LastRun) (request : List (List ℕ)) → last.book ≡ [] →
        AreSame (with_book s (checks_of s last request)) (without_book s) }
{}

/// If all checks are honest, a build with a book comes to what the build without one comes to, as long as the latter
/// needs at most `limit` targets and none of them is cyclic.
pub fn skipping_is_sound()
    ensures { (s : Sources) (k : Checks) → AreLawful (without_book s) → AreChecks s k →
        (request : List (List ℕ)) (limit : ℕ) → length (needed_at (without_book s) request limit) ≤ limit →
        NoneCyclic (without_book s) request limit → AreHonest s k (outcome_at (without_book s) limit) →
        IsSkipping s k request limit }
{}

/// Even with cyclic targets, each target that the build without a book needs has the same outcome with one.
pub fn outcomes_agree()
    ensures { (s : Sources) (k : Checks) → AreLawful (without_book s) → AreChecks s k →
        (request : List (List ℕ)) (limit : ℕ) → length (needed_at (without_book s) request limit) ≤ limit →
        AreHonest s k (outcome_at (without_book s) limit) →
        (p : List ℕ) → IsAmong (needed_at (without_book s) request limit) p →
        outcome_at (with_book s k) limit p ≡ outcome_at (without_book s) limit p }
{}

/// If the records of the last run are honest, a build with its book needs no target that the build without it doesn't
/// need, cyclic targets or not; and so it keeps to the limit, too. As cyclic targets may be why fewer are needed, a
/// target that only the build without the book needs has no row.
pub fn honest_books_need_no_more()
    ensures needed { (s : Sources) (last : LastRun) (request : List (List ℕ)) (limit : ℕ) →
        AreLawful (without_book s) → length (needed_at (without_book s) request limit) ≤ limit →
        AreHonestRecords s last (outcome_at (without_book s) limit) →
        (p : List ℕ) → IsAmong (needed_at (with_book s (checks_of s last request)) request limit) p →
        IsAmong (needed_at (without_book s) request limit) p }
    ensures few { (s : Sources) (last : LastRun) (request : List (List ℕ)) (limit : ℕ) →
        AreLawful (without_book s) → length (needed_at (without_book s) request limit) ≤ limit →
        AreHonestRecords s last (outcome_at (without_book s) limit) →
        length (needed_at (with_book s (checks_of s last request)) request limit) ≤ limit }
{}

/// `skipping_is_sound` for the book of the last run, if its records are honest: whatever is requested, and whatever
/// files are there.
pub fn true_books_skip_soundly()
    ensures { (s : Sources) (last : LastRun) (request : List (List ℕ)) (limit : ℕ) → AreLawful (without_book s) →
        length (needed_at (without_book s) request limit) ≤ limit → NoneCyclic (without_book s) request limit →
        AreHonestRecords s last (outcome_at (without_book s) limit) →
        IsSkipping s (checks_of s last request) request limit }
{}

/// Each record of the new book comes from this run or from the last book, whatever became of the build. So all records
/// are true if those of the last book were.
pub fn new_book_is_true()
    ensures records { (s : Sources) (last : LastRun) (request : List (List ℕ)) (limit : ℕ) →
        AreLawful (without_book s) → IsGood s →
        length (needed_at (with_book s (checks_of s last request)) request limit) ≤ limit →
        (p : List ℕ) (r : Record) → new_book s last request limit p ≡ Some r → IsOfRun s last request limit p r }
    ensures book { (s : Sources) (last : LastRun) (request : List (List ℕ)) (limit : ℕ) →
        AreLawful (without_book s) → IsGood s →
        length (needed_at (with_book s (checks_of s last request)) request limit) ≤ limit →
        AreTrue (record_at last.book) → AreTrue (new_book s last request limit) }
{}
