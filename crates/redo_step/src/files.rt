//! What `cat` and `test -f` see of a path.

ghost use Rattle.std.specs.Prelude.{◌≡◌, None, option_copied};
ghost use Rattle.redo_step.specs.Files.{file_of, answered_file};
ghost use Rattle.redo_step.specs.inside.Machine.{kept_by, given_by, IsMeant};
ghost use Rattle.redo_step.specs.inside.Scene.{scene_setting};

use crate::answers::Answers;
use crate::halt::Halt;
use crate::shell::Shell;
use redo_path::Path;
use redo_record::{Dep, DepKind, Deps, Why};

impl<A: Answers> Shell<'_, '_, A> {
    /// The file at a path that the script has declared. Any other path is the fault `Undeclared`.
    pub(crate) fn file(
        &self,
        line: u64,
        declared: &Deps,
        text: &[u8],
    ) -> Result<Option<&[u8]>, Halt>
        ensures file { IsMeant (given_by option_copied result)
            (file_of (scene_setting self.now.scene) (A.ask self.now.answers.now) declared.now line text.now) }
        ensures keeps { kept_by result ≡ None }
    {
        let change = Dep {
            kind: DepKind::Change,
            path: self.scene.path(line, text)?,
        };
        let is_changed = declared.contains(&change);
        let create = Dep {
            kind: DepKind::Create,
            path: change.path,
        };
        if !is_changed && !declared.contains(&create) {
            return Err(Halt::fault(Why::Undeclared(line)));
        }
        match self.scene.source(&create.path) {
            Some(bytes) => Ok(Some(bytes)),
            None if is_changed => self.answered(&create.path),
            None => Ok(None),
        }
    }

    /// The file at a path that redo-ifchange declared and that isn't a source.
    fn answered(&self, path: &Path) -> Result<Option<&[u8]>, Halt>
        ensures file { IsMeant (given_by option_copied result) (answered_file path.now
            (A.ask self.now.answers.now path.now)) }
        ensures keeps { kept_by result ≡ None }
    {
        match self.answers.answer(path) {
            Some(outcome) => Ok(outcome.file()),
            None => {
                let mut paths = Vec::new(self.scene.alloc);
                paths.push(path.clone()?)?;
                Err(Halt::Lacks(paths))
            }
        }
    }
}
