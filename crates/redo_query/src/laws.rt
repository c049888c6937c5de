//! Laws of answers. The function does nothing: its contract is a law.

ghost use Rattle.redo_past.specs.Past.{PastView};
ghost use Rattle.redo_reads.specs.Reads.{ArePastsAlike};
ghost use Rattle.redo_query.specs.Answers.{IsAnswer};
ghost use Rattle.redo_query.specs.declared.answers.Answer.{Answer};
ghost use Rattle.redo_query.specs.declared.answers.Question.{Question};

/// What is answered depends on names, on the book and on the files at its targets: it is the same for each past with
/// the same names and the same book whose files are the same there, whatever is in the others.
pub fn answers_rest_on_the_book()
    ensures { (past other : PastView) (question : Question) (answer : Answer) → ArePastsAlike past other →
        IsAnswer past question answer → IsAnswer other question answer }
{}
