//! A table of numbers that become known one after another.

ghost use Rattle.std.specs.Prelude.{◌≡◌, ◌<◌, ℕ, Some, IfOk, length, map};
ghost use Rattle.redo_alike.specs.inside.Known.{known_at};

use std::alloc::{AllocError, Global};

/// The numbers of a table in which each is known.
pub(crate) fn all_known(alloc: Global, known: &[Option<usize>]) -> Result<Vec<usize>, AllocError>
    requires { (n : ℕ) → n < length known.now → (x : ℕ) × (known_at known.now n ≡ Some x) }
    ensures { IfOk result (λ all. map Some all.items ≡ known.now) }
{
    let mut all = Vec::with_capacity(alloc, known.len())?;
    for one in known {
        let Some(number) = *one else { unreachable!() };
        all.push(number)?;
    }
    Ok(all)
}
