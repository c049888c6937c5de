//! The name that is nearest to a word.

ghost use Rattle.std.specs.Prelude.{◌≡◌, ◌++◌, ◌∷◌, [], ℕ, List, IfOk, Some, map, option_copied};
ghost use Rattle.redo_query.specs.Nearest.{IsNear, edits as edits_between};
ghost use Rattle.redo_query.specs.inside.Best.{IsBest};

use redo_path::Path;
use std::alloc::{AllocError, Global};
use strsim::generic_levenshtein;

/// The nearest name so far, and how many edits lead to it.
#[derive(Clone, Copy)]
struct Best<'a> {
    name: &'a Path,
    count: usize,
}

/// How many edits lead from one path to another.
fn edits(alloc: Global, from: &Path, to: &Path) -> Result<usize, AllocError>
    ensures { IfOk result (λ count. count ≡ edits_between from.now to.now) }
{
    generic_levenshtein(alloc, from.text(), to.text())
}

/// The nearest name once this one came, to which so many edits lead.
fn nearer<'a>(best: Option<Best<'a>>, name: &'a Path, count: usize) -> Best<'a>
    ensures { (word : List ℕ) (names : List (List ℕ)) → count ≡ edits_between word name.entry.now →
        IsBest word names best.entry → IsBest word (names ++ name.entry.now ∷ []) (Some result) }
{
    match best {
        Some(best) if best.count <= count => best,
        _ => Best { name, count },
    }
}

/// The first of these names to which the fewest edits lead; `None` if there is no name.
pub(crate) fn nearest<'a>(
    alloc: Global,
    word: &Path,
    names: &[&'a Path],
) -> Result<Option<&'a Path>, AllocError>
    ensures { IfOk result (λ found. IsNear word.now (map (λ p. p.now) names.now) (option_copied found)) }
{
    let mut best = None;
    for name in names {
        let count = edits(alloc, word, name)?;
        best = Some(nearer(best, name, count));
    }
    match best {
        Some(best) => Ok(Some(best.name)),
        None => Ok(None),
    }
}
