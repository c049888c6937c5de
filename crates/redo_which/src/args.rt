//! The arguments of a script.

ghost use Rattle.std.specs.Prelude.{◌≡◌, IfOk};
ghost use Rattle.redo_which.specs.Views.{arguments_view};

use redo_path::Path;
use std::alloc::{AllocError, Global};

/// What `$3` has after `$1`.
const TEMPORARY: &[u8] = b".redo.tmp";

/// The arguments of a script, as redo(1) defines them. The parameters are computed from the target and need no memory
/// of their own.
#[derive(Debug, Drop)]
pub struct Args {
    /// The directory of the .do file, in which the script runs.
    pub dir: Path,
    /// The target.
    pub target: Path,
    /// The number of bytes at the end of the target that `default<suffix>.do` matched.
    pub cut: usize,
}

impl Args {
    /// `$1`: the target relative to the directory.
    pub fn one(&self) -> &[u8]
        ensures { result.now ≡ (arguments_view self.now).one }
    {
        self.target.below(&self.dir).unwrap_or(b"")
    }

    /// `$2`: the same without the suffix that `default<suffix>.do` matched.
    pub fn two(&self) -> &[u8]
        ensures { result.now ≡ (arguments_view self.now).two }
    {
        let one = self.one();
        &one[..one.len().saturating_sub(self.cut)]
    }

    /// `$3`: the temporary file relative to the directory, which is `$1` followed by `.redo.tmp`.
    pub fn three(&self, alloc: Global) -> Result<Vec<u8>, AllocError>
        ensures { IfOk result (λ three. three.items ≡ (arguments_view self.now).three) }
    {
        let one = self.one();
        let mut three = Vec::with_capacity(alloc, one.len().saturating_add(TEMPORARY.len()))?;
        three.extend_from_slice(one)?;
        three.extend_from_slice(TEMPORARY)?;
        Ok(three)
    }
}
