//! What a run is asked to build.

ghost use Rattle.std.specs.Prelude.{◌≡◌, codes, IfOk};
ghost use Rattle.redo_run.specs.Runs.{request_of};

use redo_path::{Path, resolve};
use std::alloc::{AllocError, Global};

/// The target that is built if none is named.
pub const DEFAULT_TARGET: &[u8] = b"all";

/// Its path.
fn default_target(alloc: Global) -> Result<Path, AllocError>
    ensures { IfOk result (λ path. path ≡ codes "all") }
{
    match resolve(alloc, &Path::root(), DEFAULT_TARGET) {
        Ok(path) => Ok(path),
        Err(_) => Err(AllocError),
    }
}

/// The targets that are named, or `all` if there are none.
#[tactic(auto, using(crate::proofs::ToldLemmas::named_targets))]
pub fn requested(alloc: Global, targets: &[Path]) -> Result<Vec<Path>, AllocError>
    ensures { IfOk result (λ request. request.items ≡ request_of targets.now) }
{
    if targets.is_empty() {
        return Ok(vec![in alloc; default_target(alloc)?]?);
    }
    targets.to_vec(alloc)
}
