//! The values of a command's words, and the paths that they name.

ghost use Rattle.std.specs.Prelude.{◌≡◌, None};
ghost use Rattle.redo_script.specs.View.{words_of};
ghost use Rattle.redo_step.specs.Words.{texts_of, paths_of, operands_of};
ghost use Rattle.redo_step.specs.inside.Machine.{kept_by, given_by, IsMeant};
ghost use Rattle.redo_step.specs.inside.Scene.{scene_setting};

use crate::halt::Halt;
use crate::scene::Scene;
use crate::scope::Values;
use crate::text::Text;
use redo_path::Path;
use redo_script::Word;

impl Scene<'_> {
    /// The values of these words, from left to right.
    pub(crate) fn texts<'s>(&'s self, line: u64, words: &'s [Word]) -> Result<Vec<Text<'s>>, Halt>
        ensures texts { IsMeant (given_by (λ ts. ts.items) result)
            (texts_of (scene_setting self.now) line (words_of words.now)) }
        ensures keeps { kept_by result ≡ None }
    {
        let mut texts = Vec::with_capacity(self.alloc, words.len())?;
        for word in words {
            texts.push(self.text(line, word)?)?;
        }
        Ok(texts)
    }

    /// The values of a loop's words, which its turns share.
    pub(crate) fn values(&self, line: u64, words: &[Word]) -> Result<Values, Halt>
        ensures values { IsMeant (given_by (λ vs. vs) result)
            (texts_of (scene_setting self.now) line (words_of words.now)) }
        ensures keeps { kept_by result ≡ None }
    {
        let texts = self.texts(line, words)?;
        Ok(Values::of(self.alloc, &texts)?)
    }

    /// The paths that these texts name.
    pub(crate) fn paths(&self, line: u64, texts: &[Text]) -> Result<Vec<Path>, Halt>
        ensures paths { IsMeant (given_by (λ ps. ps.items) result) (paths_of (scene_setting self.now) line texts.now) }
        ensures keeps { kept_by result ≡ None }
    {
        let mut paths = Vec::with_capacity(self.alloc, texts.len())?;
        for text in texts {
            paths.push(self.path(line, text.bytes())?)?;
        }
        Ok(paths)
    }

    /// The paths that these words name.
    pub(crate) fn operands(&self, line: u64, words: &[Word]) -> Result<Vec<Path>, Halt>
        ensures paths { IsMeant (given_by (λ ps. ps.items) result)
            (operands_of (scene_setting self.now) line (words_of words.now)) }
        ensures keeps { kept_by result ≡ None }
    {
        let texts = self.texts(line, words)?;
        self.paths(line, &texts)
    }
}
