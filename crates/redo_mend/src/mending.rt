//! The mended tree.

ghost use Rattle.std.specs.Prelude.{◌≡◌, ◌≢◌, ◌∷◌, [], IfErr, IfOk, IfSome, Ok, Some, option_map};
ghost use Rattle.redo_tree.specs.Tree.{Directory, File, added, file_at, node_at, without};
ghost use Rattle.redo_which.specs.Candidates.{book_path as path_of_book, journal_path as path_of_journal};
ghost use Rattle.redo_book.specs.Book.{IsText};
ghost use Rattle.redo_past.specs.Past.{RefusesBook};
ghost use Rattle.redo_mend.specs.Mended.{AreToSettle, HasNoMended, IsPassedOver, IsRecoveredTree, MendsTo};
ghost use Rattle.redo_mend.specs.Mended.{book_to_put as text_to_put, own_files};
ghost use Rattle.redo_mend.specs.inside.Leaving.{HasLeft};

use crate::journal::journal_in;
use crate::left::book_to_put;
use crate::named::targets_named;
use crate::own::temporaries;
use crate::recovered::{recovered_text, to_settle};
use redo_book::laws::a_book_has_no_fault;
use redo_book::{Book, BookFault};
use redo_dir::{Left, journal_path};
use redo_past::{book_of, book_path};
use redo_path::Path;
use redo_tree::{Content, Tree};
use std::alloc::{AllocError, Global};
use std::thread::Threads;

/// What a run goes on with over a directory as it was loaded.
#[derive(Drop)]
pub struct Mended {
    /// The tree to build.
    pub tree: Tree,
    /// What a run that was broken off has left; `None` if there is no journal.
    pub left: Option<Left>,
}

/// A journal, and the book that it has the text of.
#[derive(Drop)]
struct Journal {
    text: Content,
    book: Book,
}

/// The tree without the program's own files, with this text in the place of the book. Only memory can lack: the place is
/// free, and a file may be added to the top directory.
fn with_book(alloc: Global, tree: &Tree, own: &[Path], text: Vec<u8>) -> Result<Tree, AllocError>
    ensures { IfOk result (λ mended.
        added (without (without tree.now own.now) (path_of_book ∷ [])) path_of_book (File text.items) ≡ Ok mended) }
{
    let path = book_path(alloc)?;
    let mut mended = tree.without(alloc, own)?.without(alloc, &[path.clone()?])?;
    match mended.add_file(&path, text) {
        Ok(()) => Ok(mended),
        Err(_) => Err(AllocError),
    }
}

/// Mends a tree with a whole journal. The files that the two books tell of are digested by at most N threads, and keep
/// their digests.
fn recover<R: Threads + Sync>(
    rt: &R,
    alloc: Global,
    workers: usize,
    tree: Tree,
    journal: Journal,
) -> Result<Mended, BookFault>
    requires book { IsText journal.text journal.book }
    requires place { node_at tree path_of_book ≢ Some Directory }
    ensures mends { IfOk result (λ mended. IsRecoveredTree tree journal.text mended.tree) }
    ensures left { IfOk result (HasLeft tree journal.text) }
    ensures refused { IfErr result (λ fault. RefusesBook fault tree) }
{
    tree.is_tree();
    let old = book_of(alloc, &tree)?;
    let named = targets_named(alloc, &tree, &journal.book, &old)?;
    let tree = tree.keep_digests_by(rt, workers, &named);
    let text = recovered_text(alloc, &tree, &journal.book, &old)?;
    let mut own = temporaries(alloc, &tree, &journal.text)?;
    own.push(journal_path(alloc)?)?;
    let mended = with_book(alloc, &tree, &own, text)?;
    let book = book_to_put(alloc, &tree, &mended)?;
    let to_settle = to_settle(alloc, &tree, &journal.book)?;
    Ok(Mended {
        tree: mended,
        left: Some(Left {
            journal: journal.text,
            book,
            own,
            to_settle,
        }),
    })
}

/// The tree without a journal that is passed over.
fn pass_over(alloc: Global, tree: &Tree, journal: Content) -> Result<Mended, AllocError>
    requires { IsPassedOver tree.now journal }
    ensures tree { IfOk result (λ mended. mended.tree ≡ without tree.now (path_of_journal ∷ [])) }
    ensures left { IfOk result (HasLeft tree.now journal) }
{
    tree.is_tree();
    let mut own = Vec::new(alloc);
    own.push(journal_path(alloc)?)?;
    let tree = tree.without(alloc, &own)?;
    Ok(Mended {
        tree,
        left: Some(Left {
            journal,
            book: None,
            own,
            to_settle: Vec::new(alloc),
        }),
    })
}

/// What a run goes on with over a tree as it was loaded.
///
/// Without a journal it is the tree. With a whole one it is the tree with the recovered book: of each target the journal's
/// record if the file is as that says, else the old book's if the file is as that says, else none. The journal and the
/// temporary files of its run aren't in it. A journal that isn't whole is passed over, since nothing is stored before it
/// is; so is one where a directory stands in the place of the book. Where the journal is whole and the old book has a
/// fault, this is told as it is without a journal. Links and directories of the program's names stay.
pub fn mend<R: Threads + Sync>(
    rt: &R,
    alloc: Global,
    workers: usize,
    tree: Tree,
) -> Result<Mended, BookFault>
    ensures mends { IfOk result (λ mended. MendsTo tree mended.tree) }
    ensures journal { IfOk result (λ mended.
        option_map (λ left. left.journal) mended.left ≡ file_at tree path_of_journal) }
    ensures book { IfOk result (λ mended. IfSome mended.left (λ left. left.book ≡ text_to_put tree mended.tree)) }
    ensures own { IfOk result (λ mended. IfSome mended.left (λ left. left.own.items ≡ own_files tree mended.tree)) }
    ensures settle { IfOk result (λ mended. IfSome mended.left (λ left. AreToSettle tree left.journal left.to_settle.items)) }
    ensures refused { IfErr result (λ fault. RefusesBook fault tree) }
    ensures none { IfErr result (λ fault. HasNoMended fault tree) }
{
    a_book_has_no_fault();
    let Some(text) = tree.content(&journal_path(alloc)?) else {
        return Ok(Mended { tree, left: None });
    };
    let text = text.clone()?;
    match journal_in(alloc, &tree, &text)? {
        Some(book) => recover(rt, alloc, workers, tree, Journal { text, book }),
        None => Ok(pass_over(alloc, &tree, text)?),
    }
}
