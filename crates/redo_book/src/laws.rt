//! Theorems about the definitions of books. The functions do nothing; each contract is a law.

ghost use Rattle.std.specs.Prelude.{◌≡◌, ℕ, List};
ghost use Rattle.redo_book.specs.Book.{IsBook, IsRefused, IsText, IsTextOrRefused, Record, book_lines, text_of};

/// A text is that of at most one book.
pub fn a_text_has_one_book()
    ensures { (text : List ℕ) (book other : List Record) → IsText text book → IsText text other → book ≡ other }
{}

/// No two books have the same text.
pub fn a_book_has_its_own_text()
    ensures { (book other : List Record) → IsBook book → IsBook other →
        text_of (book_lines book) ≡ text_of (book_lines other) → book ≡ other }
{}

/// A book's text has no line at fault.
pub fn a_book_has_no_fault()
    ensures { (text : List ℕ) (book : List Record) (n : ℕ) → IsText text book → IsRefused text n → ⊥ }
{}

/// A text has at most one first line at fault.
pub fn a_text_has_one_fault()
    ensures { (text : List ℕ) (n m : ℕ) → IsRefused text n → IsRefused text m → n ≡ m }
{}

/// A text that is no book's has a first line at fault. So reading, unless it fails, returns a book exactly for the
/// texts of books.
pub fn each_text_is_a_book_or_refused()
    ensures { (text : List ℕ) → IsTextOrRefused text }
{}
