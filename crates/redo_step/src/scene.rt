//! What commands see: the tree, the rule's arguments, the limit of bytes, and the names that loops bind.

ghost use Rattle.std.specs.Prelude.{◌≡◌, IfOk, None, option_copied};
ghost use Rattle.std.specs.Str.{bytes_eq};
ghost use Rattle.redo_script.specs.View.{word_of};
ghost use Rattle.redo_step.specs.Words.{text_of, path_of};
ghost use Rattle.redo_step.specs.Setting.{with_value};
ghost use Rattle.redo_step.specs.Outputs.{is_third};
ghost use Rattle.redo_step.specs.inside.Machine.{kept_by, given_by, IsMeant};
ghost use Rattle.redo_step.specs.inside.Scene.{scene_setting};

use crate::halt::Halt;
use crate::scope::{Binding, with_binding};
use crate::text::Text;
use crate::value::word_value;
use redo_bytes::Bytes;
use redo_path::{Path, PathFault, resolve};
use redo_record::Why;
use redo_script::Word;
use redo_tree::{Kind, Tree};
use redo_which::lookup::find;
use redo_which::{Args, Found};
use std::alloc::{AllocError, Global};

/// What a script's commands see besides the answers.
#[derive(Drop)]
pub(crate) struct Scene<'a> {
    pub(crate) alloc: Global,
    pub(crate) tree: &'a Tree,
    pub(crate) target: &'a Path,
    pub(crate) args: &'a Args,
    pub(crate) limit: usize,
    /// The names that the loops around a statement bind, innermost first.
    pub(crate) bound: Vec<Binding>,
}

impl<'a> Scene<'a> {
    /// What commands see in a turn of a loop, which gives this name this value.
    pub(crate) fn with_value(&self, name: &Bytes, value: &Bytes) -> Result<Scene<'a>, AllocError>
        ensures { IfOk result (λ inner. scene_setting inner ≡ with_value (scene_setting self.now) name.now value.now) }
    {
        let bound = with_binding(self.alloc, &self.bound, name, value)?;
        Ok(Scene {
            alloc: self.alloc,
            tree: self.tree,
            target: self.target,
            args: self.args,
            limit: self.limit,
            bound,
        })
    }
}

impl Scene<'_> {
    /// The most bytes that standard output or `$3` may have.
    #[tactic(auto, unfolding(crate::specs::Setting::setting_by))]
    pub(crate) fn limit(&self) -> usize
        ensures { result ≡ (scene_setting self.now).limit }
    {
        self.limit
    }

    /// The value of a word, or the fault `Unquoted`.
    #[tactic(auto, unfolding(crate::specs::Setting::setting_by))]
    pub(crate) fn text<'s>(&'s self, line: u64, word: &'s Word) -> Result<Text<'s>, Halt>
        ensures text { IsMeant (given_by (λ t. t) result) (text_of (scene_setting self.now) line (word_of word.now)) }
        ensures keeps { kept_by result ≡ None }
    {
        match word_value(self.alloc, self.args, &self.bound, word)? {
            Some(text) => Ok(text),
            None => Err(Halt::fault(Why::Unquoted(line))),
        }
    }

    /// The path that a text names from the script's directory, or the fault `Outside`.
    #[tactic(auto, unfolding(crate::specs::Setting::setting_by, crate::specs::Path::resolved))]
    pub(crate) fn path(&self, line: u64, text: &[u8]) -> Result<Path, Halt>
        ensures path { IsMeant (given_by (λ p. p) result) (path_of (scene_setting self.now) line text.now) }
        ensures keeps { kept_by result ≡ None }
    {
        match resolve(self.alloc, &self.args.dir, text) {
            Ok(path) => Ok(path),
            Err(PathFault::Memory) => Err(Halt::Memory),
            Err(_) => Err(Halt::fault(Why::Outside(line))),
        }
    }

    /// The bytes of a source, or `None` for any other path.
    #[tactic(auto, unfolding(crate::specs::Setting::setting_by))]
    pub(crate) fn source(&self, path: &Path) -> Option<&[u8]>
        ensures { option_copied result ≡ (scene_setting self.now).source path.now }
    {
        self.tree.file(path)
    }

    #[tactic(auto, unfolding(crate::specs::Setting::setting_by))]
    pub(crate) fn is_directory(&self, path: &Path) -> bool
        ensures { result ≡ (scene_setting self.now).is_directory path.now }
    {
        match self.tree.kind(path) {
            Kind::Dir => true,
            Kind::File | Kind::Nothing => false,
        }
    }

    /// Whether a rule makes this path.
    #[tactic(auto, unfolding(crate::specs::Setting::setting_by))]
    pub(crate) fn has_rule(&self, path: &Path) -> Result<bool, AllocError>
        ensures { IfOk result (λ found. found ≡ (scene_setting self.now).has_rule path.now) }
    {
        match find(self.alloc, self.tree, path)? {
            Found::Rule(_) => Ok(true),
            _ => Ok(false),
        }
    }

    /// Whether a path is the target.
    #[tactic(auto, unfolding(crate::specs::Setting::setting_by))]
    pub(crate) fn is_target(&self, path: &Path) -> bool
        ensures { result ≡ bytes_eq path.now (scene_setting self.now).target }
    {
        path == self.target
    }

    /// Whether a path is that of `$3`.
    #[tactic(auto, unfolding(crate::specs::Setting::setting_by, crate::specs::Path::resolved))]
    pub(crate) fn is_third(&self, path: &Path) -> Result<bool, AllocError>
        ensures { IfOk result (λ found. found ≡ is_third (scene_setting self.now).third path.now) }
    {
        let three = self.args.three(self.alloc)?;
        match resolve(self.alloc, &self.args.dir, &three) {
            Ok(third) => Ok(third == *path),
            Err(PathFault::Memory) => Err(AllocError),
            Err(_) => Ok(false),
        }
    }
}
