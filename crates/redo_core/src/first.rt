//! What a path is at first sight.
ghost use Rattle.std.specs.Prelude.{◌≡◌, ◌<◌, IfOk};
ghost use Rattle.redo_which.specs.Rule.{found_of};
ghost use Rattle.redo_core.specs.inside.Slots.{IsFirstStage};
ghost use Rattle.redo_core.specs.inside.Works.{found_as};

use crate::build::Build;
use crate::check::Check;
use crate::fact::Fact;
use crate::facts::Facts;
use crate::table::{InCheck, Stage};
use crate::work::Work;
use redo_path::Path;
use redo_record::{Outcome, Record, Why};
use redo_which::{Found, Rule, lookup};
use std::alloc::{AllocError, Global};
use std::sync::Arc;

/// The first stage of a path, which is the target of this number: decided if it has no rule, else in check or ready.
pub(crate) fn first_stage(
    alloc: Global,
    path: &Path,
    build: &Build,
    number: usize,
) -> Result<Stage, AllocError>
    requires { number < build.now.limits.targets }
    ensures { IfOk result (IsFirstStage build.now path.now) }
{
    let (outcome, deps) = match lookup::find(alloc, build.given().sources(), path)? {
        Found::Rule(rule) => return ruled(alloc, path, build, rule),
        Found::Source => (Outcome::Source, Record::none(alloc)),
        Found::Directory => (Outcome::Failed(Why::Directory), Record::none(alloc)),
        Found::NoDirectory => (Outcome::Failed(Why::NoDirectory), Record::none(alloc)),
        Found::NoRule { missing } => (
            Outcome::Failed(Why::NoRule),
            Record::of_search(alloc, missing),
        ),
    };
    let target = path.clone()?;
    let deps = Arc::new(alloc, deps)?;
    let fact = Fact::of(build.given(), target, outcome, deps, false);
    Ok(Stage::Decided(build.publish(number, fact)?))
}

/// The first stage of a target with a rule: due if it is in check and no entry falls before one asks for a path, else
/// ready. Its script is read when it is advanced.
fn ruled(alloc: Global, path: &Path, build: &Build, rule: Rule) -> Result<Stage, AllocError>
    requires { found_of build.now.past.sources path.now ≡ found_as rule }
    ensures { IfOk result (IsFirstStage build.now path.now) }
{
    let facts = Facts::new(alloc);
    if let Some(check) = Check::of(alloc, build.given(), path)? {
        let held = Box::new(alloc, InCheck { rule, check, facts })?;
        return Ok(Stage::Due(held));
    }
    let own = build.share()?;
    let target = path.clone()?;
    let work = Work::unread(alloc, own, target, rule, facts)?;
    Ok(Stage::Ready(work))
}
