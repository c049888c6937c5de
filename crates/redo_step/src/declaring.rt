//! What redo-ifchange and redo-ifcreate declare, and what they wait for.

ghost use Rattle.std.specs.Prelude.{◌≡◌, OnOk, None};
ghost use Rattle.redo_record.specs.Entries.{with_entries};
ghost use Rattle.redo_step.specs.Declaring.{free_of, obstacle};
ghost use Rattle.redo_step.specs.inside.Machine.{kept_by, given_by, IsMeant};
ghost use Rattle.redo_step.specs.inside.Scene.{scene_setting};
ghost use Rattle.redo_step.specs.inside.Waiting.{targets_in};

use crate::halt::Halt;
use crate::scene::Scene;
use redo_path::Path;
use redo_record::{Dep, DepKind, Deps, Why};
use std::alloc::AllocError;

/// Declares these paths, in order.
pub(crate) fn declare(deps: &mut Deps, kind: DepKind, paths: &[Path]) -> Result<(), AllocError>
    ensures { OnOk result (deps.new ≡ with_entries deps.old kind paths.now) }
{
    deps.reserve(paths.len())?;
    for path in paths {
        deps.insert(Dep {
            kind,
            path: path.clone()?,
        })?;
    }
    Ok(())
}

impl Scene<'_> {
    /// The paths among these that aren't sources.
    pub(crate) fn targets(&self, mut paths: Vec<Path>) -> Vec<Path>
        ensures { result.items ≡ targets_in (scene_setting self.now) paths.items }
    {
        paths.retain(|path| self.source(path).is_none());
        paths
    }

    /// Refuses the first of these paths that exists (`Exists`) or has a rule (`Buildable`).
    pub(crate) fn check_free(&self, line: u64, paths: &[Path]) -> Result<(), Halt>
        ensures free { IsMeant (given_by (λ _. paths.now) result)
            (free_of paths.now (obstacle (scene_setting self.now) line paths.now)) }
        ensures keeps { kept_by result ≡ None }
    {
        for path in paths {
            if self.source(path).is_some() || self.is_directory(path) {
                return Err(Halt::fault(Why::Exists(line)));
            }
            if self.has_rule(path)? {
                return Err(Halt::fault(Why::Buildable(line)));
            }
        }
        Ok(())
    }
}
