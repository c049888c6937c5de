//! Laws of notes. The functions do nothing: each contract is a law.

ghost use Rattle.std.specs.Prelude.{◌≡◌, ℕ, List};
ghost use Rattle.redo_past.specs.Past.{PastView};
ghost use Rattle.redo_reads.specs.Reads.{ArePastsAlike};
ghost use Rattle.redo_report.specs.declared.report.Report.{Report};
ghost use Rattle.redo_notes.specs.Notes.{ruleless, shadowed, shadowed_within, unbuilt, unmade};

/// Which sources have a rule depends on names, on the book and on the files at its targets: they are the same for each
/// past with the same names and the same book whose files are the same there, whatever is in the others.
pub fn shadows_rest_on_the_book()
    ensures all { (past other : PastView) → ArePastsAlike past other → shadowed other ≡ shadowed past }
    ensures within { (past other : PastView) (places : List (List ℕ)) → ArePastsAlike past other →
        shadowed_within other places ≡ shadowed_within past places }
{}

/// The notes on a report depend on it, and on no more of the past.
pub fn notes_rest_on_the_book()
    ensures unbuilt { (past other : PastView) (request : List (List ℕ)) (report : Report) → ArePastsAlike past other →
        unbuilt other request report ≡ unbuilt past request report }
    ensures unmade { (past other : PastView) (report : Report) → ArePastsAlike past other →
        unmade other report ≡ unmade past report }
    ensures ruleless { (past other : PastView) → ArePastsAlike past other → ruleless other ≡ ruleless past }
{}
