//! Why scripts were begun.

ghost use Rattle.std.specs.Prelude.{◌≡◌, IfOk, List, None, OnOk, Some, bytes_eq, cond, map, ℕ};
ghost use Rattle.std.specs.Map.{lookup};
ghost use Rattle.std.specs.Option.{option_or};
ghost use Rattle.redo_explain.specs.Views.{begun_view};
ghost use Rattle.redo_page.specs.inside.Whys.{AreWhys};

use redo_explain::{Begun, reason_words};
use redo_names::PathMap;
use redo_path::Path;
use redo_tree::Tree;
use std::alloc::{AllocError, Global};

/// Why each begun script was begun, in words, by its target.
pub(crate) type Whys = PathMap<Vec<u8>>;

/// Puts in words for a path, unless it has some.
fn put_first(whys: &mut Whys, path: &Path, words: Vec<u8>) -> Result<(), AllocError>
    ensures { OnOk result ((q : List ℕ) → lookup (bytes_eq q) whys.new ≡
        option_or (lookup (bytes_eq q) whys.old) (cond (bytes_eq q path.now) (Some words) None)) }
{
    if whys.get(path).is_none() {
        whys.insert(path.clone()?, words)?;
    }
    Ok(())
}

/// Why each of these scripts was begun. The first one of a target counts.
pub(crate) fn whys_of(
    alloc: Global,
    sources: &Tree,
    begun: &[Begun<'_>],
) -> Result<Whys, AllocError>
    ensures { IfOk result (λ whys. AreWhys sources.now (map begun_view begun.now) whys) }
{
    let mut whys = PathMap::new(alloc);
    for script in begun {
        let words = reason_words(alloc, sources, &script.reason)?;
        put_first(&mut whys, script.target, words)?;
    }
    Ok(whys)
}
