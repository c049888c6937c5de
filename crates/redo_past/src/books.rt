//! The place of the new book among files.

ghost use Rattle.std.specs.Prelude.{◌≡◌, ◌≢◌, ◌≤◌, All, IfOk, List, OnOk, ℕ, length, map};
ghost use Rattle.std.specs.Cmp.Lexicographic.{slice_cmp};
ghost use Rattle.std.specs.List.{insert};
ghost use Rattle.std.specs.List.Sorted.{IsBinarySearchResult, IsSearchInRange};
ghost use Rattle.std.specs.Ordering.{nat_cmp};
ghost use Rattle.redo_report.specs.Reports.{AreAscending};
ghost use Rattle.redo_past.specs.NewBook.{with_file};
ghost use Rattle.redo_past.specs.inside.Books.{HasPlace};

use redo_path::Path;
use redo_tree::Content;
use std::alloc::AllocError;
use std::cmp::Ordering;

/// The index of a path among files, or the one that it would have.
fn search(files: &[(Path, Content)], path: &Path) -> Result<usize, usize>
    ensures within { IsSearchInRange result (length files.now) }
    ensures place { IsBinarySearchResult (λ file. slice_cmp nat_cmp file.0 path.now) files.now result }
{
    files.binary_search_by(
        |file: &(Path, Content)| -> Ordering
            ensures { result ≡ slice_cmp nat_cmp file.now.0 path.entry.now }
        { file.0.cmp(path) },
    )
}

/// Takes the file of a path out, if there is one, and returns the index that it had or would have.
fn take_out(files: &mut Vec<(Path, Content)>, path: &Path) -> usize
    requires { AreAscending (map (λ file. file.0) files.old.items) }
    ensures within { result ≤ length files.new.items }
    ensures none { All (λ file. file.0 ≢ path.now) files.new.items }
    ensures place { (bytes : List ℕ) →
        insert files.new.items result (path.now, bytes) ≡ with_file files.new.items path.now bytes }
    ensures others { (bytes : List ℕ) →
        with_file files.new.items path.now bytes ≡ with_file files.old.items path.now bytes }
{
    match search(files, path) {
        Ok(at) => {
            let _other = files.remove(at);
            at
        }
        Err(at) => at,
    }
}

/// Makes a place in path order for a file of this path, the only one of it. Returns its index. There is room for the file.
pub(crate) fn make_place(files: &mut Vec<(Path, Content)>, path: &Path) -> Result<usize, AllocError>
    requires { AreAscending (map (λ file. file.0) files.old.items) }
    ensures place { IfOk result (HasPlace files.new path.now) }
    ensures others { OnOk result ((bytes : List ℕ) →
        with_file files.new.items path.now bytes ≡ with_file files.old.items path.now bytes) }
{
    let at = take_out(files, path);
    files.reserve(1)?;
    Ok(at)
}
