//! Laws of runs that were broken off. The functions do nothing: each contract is a law.

ghost use Rattle.std.specs.Prelude.{◌≡◌, ◌≢◌, ◌⊎◌, ◌++◌, ◌∷◌, ℕ, Bool, List, [], Option, Some, None, All, Contains};
ghost use Rattle.std.specs.Prelude.{false, true};
ghost use Rattle.redo_digest.specs.Digest.{state_of};
ghost use Rattle.redo_tree.specs.Tree.{Directory, IsTree, Tree, file_at, node_at};
ghost use Rattle.redo_which.specs.Candidates.{book_path, journal_path};
ghost use Rattle.redo_book.specs.Book.{IsBook, IsText, Record, record_at};
ghost use Rattle.redo_skip.specs.NewBook.{AreTrue};
ghost use Rattle.redo_past.specs.Past.{IsBookOf, IsPast, PastView};
ghost use Rattle.redo_report.specs.declared.report.Report.{Report};
ghost use Rattle.redo_rules.specs.Build.{GivenView};
ghost use Rattle.redo_rules.specs.Results.{IsResult};
ghost use Rattle.redo_rules.specs.TreeSources.{AreTrueOfTrees, HasHonestBook, IsTrueOfTrees};
ghost use Rattle.redo_dir.specs.Stored.{Journals, Step, puts_in};
ghost use Rattle.redo_dir.specs.Storing.{steps_to_store};
ghost use Rattle.redo_dir.specs.Own.{is_own, is_temporary};
ghost use Rattle.redo_mend.specs.Mended.{IsNoBook, MendsTo, clearing};
ghost use Rattle.redo_mend.specs.Recovered.{IsRecovered, recovered_at};
ghost use Rattle.redo_recover.specs.Broken.{AreHonestWhereSaid, BreakOff, GoesOn, IsBrokenOff, IsStart};
ghost use Rattle.redo_recover.specs.Broken.{MayStore, journal_of};
ghost use Rattle.redo_recover.specs.Opening.{AreTwins, Opens, StayTwins};
ghost use Rattle.redo_recover.specs.Steps.{IsFinished, IsFound, IsOfOthers, IsStage, IsToStore, MayHold};

use redo_book::laws::{a_book_has_no_fault, a_text_has_one_book, each_text_is_a_book_or_refused};
use redo_past::laws::a_tree_has_one_past;
use redo_rules::laws::books_are_true;

/// Each record of a recovered book is one of the two books; so they are true where those of both were.
pub fn recovered_books_are_true()
    ensures from { (tree : Tree) (journal old : List Record) (p : List ℕ) (r : Record) →
        recovered_at tree journal old p ≡ Some r → (record_at journal p ≡ Some r) ⊎ (record_at old p ≡ Some r) }
    ensures skip { (tree : Tree) (journal old : List Record) → AreTrue (record_at journal) → AreTrue (record_at old) →
        AreTrue (recovered_at tree journal old) }
    ensures trees { (file_bytes : ℕ) (tree : Tree) (journal old : List Record) →
        AreTrueOfTrees file_bytes (record_at journal) → AreTrueOfTrees file_bytes (record_at old) →
        AreTrueOfTrees file_bytes (recovered_at tree journal old) }
    ensures all { (file_bytes : ℕ) (tree : Tree) (journal old book : List Record) →
        IsRecovered tree journal old book → All (IsTrueOfTrees file_bytes) journal → All (IsTrueOfTrees file_bytes) old →
        All (IsTrueOfTrees file_bytes) book }
{}

/// A recovered book is honest where both books are, of which only records matter that are as the files are.
pub fn recovered_books_are_honest()
    ensures { (given : GivenView) (tree : Tree) (journal old : List Record) →
        IsRecovered tree journal old given.past.book → AreHonestWhereSaid given tree journal →
        AreHonestWhereSaid given tree old → HasHonestBook given }
{}

/// After a run that was broken off, and whatever was written since. A file that the run stored is generated, and so no
/// source. A path that has what it had before the run is a source if it was one, with the same file. A file that no
/// record of the two books tells of is a source.
pub fn stored_files_are_no_sources()
    ensures stored { (given : GivenView) (result : Report) (is : IsResult given result) → IsStart given.past →
        (now : Tree) → IsTree now → (past : PastView) → GoesOn given result is now past →
        (p bytes : List ℕ) → MayStore given result is p bytes → file_at now p ≡ Some bytes →
        file_at past.sources p ≡ None }
    ensures left { (given : GivenView) (result : Report) (is : IsResult given result) → IsStart given.past →
        (now : Tree) → IsTree now → (past : PastView) → GoesOn given result is now past →
        (p : List ℕ) → p ≢ book_path → is_own (journal_of given result is) p ≡ false → file_at now p ≡ file_at given.past.tree p →
        file_at past.sources p ≡ file_at given.past.sources p }
    ensures edited { (given : GivenView) (result : Report) (is : IsResult given result) → IsStart given.past →
        (now : Tree) → IsTree now → (past : PastView) → GoesOn given result is now past →
        (p bytes : List ℕ) → p ≢ book_path → is_own (journal_of given result is) p ≡ false → file_at now p ≡ Some bytes →
        ((r : Record) → (Contains is.with_book.book r) ⊎ (Contains given.past.book r) → r.target ≡ p →
        state_of (Some bytes) ≢ r.state) → file_at past.sources p ≡ Some bytes }
{
    a_text_has_one_book();
}

/// Where nobody has written since, the sources are those that they were before the run: after one run that was broken
/// off, and after any number of them. And the book is true where it was.
pub fn sources_stay()
    ensures once { (given : GivenView) (result : Report) (is : IsResult given result) → IsStart given.past →
        (broken : Tree) → IsBrokenOff given result is broken → (past : PastView) → GoesOn given result is broken past →
        past.sources ≡ given.past.sources }
    ensures often { (n file_bytes : ℕ) (before after : PastView) → IsStart before →
        BreakOff n file_bytes before after →
        after.sources ≡ before.sources }
    ensures honest { (n file_bytes : ℕ) (before after : PastView) → IsStart before →
        BreakOff n file_bytes before after →
        All (IsTrueOfTrees file_bytes) before.book → All (IsTrueOfTrees file_bytes) after.book }
{
    a_text_has_one_book();
    books_are_true();
}

/// A tree whose book has no fault, or that has none, can be opened, whatever stands in the place of the journal.
pub fn a_tree_can_be_opened()
    ensures { (tree : Tree) (old : List Record) → IsTree tree → IsBookOf (file_at tree book_path) old →
        (past : PastView) × Opens tree past }
{
    each_text_is_a_book_or_refused();
    a_book_has_no_fault();
}

/// A tree is opened as one past at most; over what a run left that was broken off it is the one that the other laws
/// speak of; and recovering again, with the recovered book in the place of the old one, comes to the same book.
pub fn a_tree_is_opened_in_one_way()
    ensures one { (tree : Tree) (past other : PastView) → Opens tree past → Opens tree other → past ≡ other }
    ensures broken { (given : GivenView) (result : Report) (is : IsResult given result) → IsStart given.past →
        (broken : Tree) → IsBrokenOff given result is broken → (past : PastView) → Opens broken past →
        GoesOn given result is broken past }
    ensures again { (tree now : Tree) (journal old book : List Record) → IsBook journal → IsBook old →
        IsRecovered tree journal old book →
        ((r : Record) → Contains journal r ⊎ Contains old r → file_at now r.target ≡ file_at tree r.target) →
        IsRecovered now journal book book }
{
    a_text_has_one_book();
    a_tree_has_one_past();
}

/// What somebody writes after a run that was broken off counts as if there had been no such run: the sources are those
/// of the twin, in which there was none. And so after any number of runs that were broken off, with edits after each.
pub fn edits_count_as_without_the_run()
    ensures once { (given : GivenView) (result : Report) (is : IsResult given result) → IsStart given.past →
        (before : PastView) → IsStart before → given.past.sources ≡ before.sources →
        (now twin : Tree) → AreTwins given result is now before twin → (past : PastView) → Opens now past →
        (other : PastView) → IsPast other → other.tree ≡ twin → past.sources ≡ other.sources }
    ensures often { (n : ℕ) (start after twin_after : PastView) → IsStart start →
        StayTwins n start start after twin_after → after.sources ≡ twin_after.sources }
{
    a_text_has_one_book();
}

/// A journal that isn't whole is passed over: where a run was broken off while it wrote it, and so had stored nothing,
/// the next one goes on with what that one had. And no journal is whole before its last byte is written.
pub fn a_torn_journal_is_passed_over()
    ensures front { (text front rest : List ℕ) (book other : List Record) → IsText text book →
        text ≡ front ++ rest → IsText front other → rest ≡ [] }
    ensures passed { (past : PastView) → IsStart past → node_at past.tree journal_path ≡ None →
        (broken : Tree) → IsTree broken →
        ((p : List ℕ) → p ≢ journal_path → node_at broken p ≡ node_at past.tree p) →
        (text : List ℕ) → file_at broken journal_path ≡ Some text → IsNoBook text →
        (other : PastView) → Opens broken other → other ≡ past }
{
    a_tree_has_one_past();
}

/// While a run clears away what another one left, the next one goes on with the same tree after each step. And after each
/// step of clearing away and storing, a directory is one of the stages: so while the journal of the run stands the run is
/// broken off, whatever it was to store, and however many of its files were stored.
///
/// That the system does what it answers well is the premise.
pub fn each_step_is_a_stage()
    ensures clearing { (over : Bool) (tree mended : Tree) (named : Option (List ℕ)) → IsTree tree →
        MendsTo tree mended → IsOfOthers tree → IsFound tree mended named → (front rest : List Step) →
        clearing over tree mended ≡ front ++ rest → (now : Tree) → MayHold named tree front now →
        MendsTo now mended }
    ensures storing { (given : GivenView) (result : Report) (is : IsResult given result) → IsStart given.past →
        node_at given.past.tree journal_path ≡ None →
        ((p : List ℕ) → is_temporary (journal_of given result is) p ≡ true → node_at given.past.tree p ≡ None) →
        (over : Bool) (listed tree : Tree) → IsTree tree → MendsTo tree given.past.tree → IsOfOthers tree →
        (named : Option (List ℕ)) → IsFound tree given.past.tree named →
        (files : List (List ℕ × List ℕ)) → All (IsToStore given result is) files → (front rest : List Step) →
        clearing over tree given.past.tree ++ steps_to_store listed (journal_of given result is) files ≡ front ++ rest →
        (now : Tree) → MayHold named tree front now → IsStage given result is now }
    ensures broken { (given : GivenView) (result : Report) (is : IsResult given result) → IsStart given.past →
        node_at given.past.tree journal_path ≡ None →
        ((p : List ℕ) → is_temporary (journal_of given result is) p ≡ true → node_at given.past.tree p ≡ None) →
        (listed : Tree) (files : List (List ℕ × List ℕ)) → All (IsToStore given result is) files → (now : Tree) →
        MayHold None given.past.tree (Journals (journal_of given result is) ∷ puts_in listed files) now →
        IsBrokenOff given result is now }
    ensures finished { (given : GivenView) (result : Report) (is : IsResult given result) → IsStart given.past →
        node_at given.past.tree journal_path ≡ None →
        ((p : List ℕ) → is_temporary (journal_of given result is) p ≡ true → node_at given.past.tree p ≡ None) →
        (listed : Tree) (files : List (List ℕ × List ℕ)) → All (IsToStore given result is) files → (now : Tree) →
        MayHold None given.past.tree (steps_to_store listed (journal_of given result is) files) now →
        IsFinished given result is now }
{}
