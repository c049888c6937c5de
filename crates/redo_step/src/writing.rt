//! What `echo`, `printf` and `cat` write, and where.

ghost use Rattle.std.specs.Prelude.{◌≡◌, ◌++◌, ◌∷◌, [], OnOk, IfErr, OnSome, None, Some, option_map};
ghost use Rattle.redo_script.specs.View.{writer_of, redirection_of};
ghost use Rattle.redo_step.specs.Outputs.{joined, writer_texts, bytes_of, goal_of, written};
ghost use Rattle.redo_step.specs.Files.{contents_of};
ghost use Rattle.redo_step.specs.Statements.{with_state};
ghost use Rattle.redo_step.specs.inside.Machine.{state_of, end_by, kept_by, given_by, run_by, IsMeant};
ghost use Rattle.redo_step.specs.inside.Scene.{scene_setting};
ghost use Rattle.redo_step.specs.inside.Sink.{Adds, Fills};
ghost use Rattle.redo_step.specs.inside.Writing.{writing_of, content_of, appended, put_bytes};

use crate::answers::Answers;
use crate::halt::Halt;
use crate::machine::Effects;
use crate::printf::printf;
use crate::scene::Scene;
use crate::shell::Shell;
use crate::sink::Sink;
use crate::text::Text;
use redo_record::{Deps, Why};
use redo_script::{Redirection, Writer};
use std::alloc::AllocError;
use std::mem;

/// A command that writes, with the values of its words.
#[derive(Drop)]
enum Writing<'a> {
    Echo(Vec<Text<'a>>),
    Printf(Text<'a>, Vec<Text<'a>>),
    Cat(Vec<Text<'a>>),
}

/// Adds these texts with one space between them, and a newline.
fn echo(texts: &[Text], sink: &mut Sink) -> Result<(), AllocError>
    ensures { OnOk result (Adds (joined texts.now ++ 10 ∷ []) sink.old sink.new) }
{
    add_joined(texts, sink)?;
    sink.add(b"\n")
}

/// Adds these texts with one space between them.
fn add_joined(texts: &[Text], sink: &mut Sink) -> Result<(), AllocError>
    ensures { OnOk result (Adds (joined texts.now) sink.old sink.new) }
{
    let Some((first, others)) = texts.split_first() else {
        return Ok(());
    };
    sink.add(first.bytes())?;
    for text in others {
        sink.add(b" ")?;
        sink.add(text.bytes())?;
    }
    Ok(())
}

impl Scene<'_> {
    /// The values of a command's words.
    fn writing<'s>(&'s self, line: u64, writer: &'s Writer) -> Result<Writing<'s>, Halt>
        ensures texts { IsMeant (given_by writing_of result)
            (writer_texts (scene_setting self.now) line (writer_of writer.now)) }
        ensures keeps { kept_by result ≡ None }
    {
        match writer {
            Writer::Echo(words) => Ok(Writing::Echo(self.texts(line, words)?)),
            Writer::Printf(format, words) => {
                let format = self.text(line, format)?;
                let texts = self.texts(line, words)?;
                Ok(Writing::Printf(format, texts))
            }
            Writer::Cat(words) => Ok(Writing::Cat(self.texts(line, words)?)),
        }
    }

    /// Where a command writes: to standard output, or to `$3` and whether it appends there.
    fn goal(&self, line: u64, redirection: &Option<Redirection>) -> Result<Option<bool>, Halt>
        ensures goal { IsMeant (given_by (λ goal. goal) result)
            (goal_of (scene_setting self.now) line (option_map redirection_of redirection.now)) }
        ensures keeps { kept_by result ≡ None }
    {
        let Some(redirection) = redirection else {
            return Ok(None);
        };
        let text = self.text(line, &redirection.word)?;
        let path = self.path(line, text.bytes())?;
        if self.is_target(&path) {
            return Err(Halt::fault(Why::Direct(line)));
        }
        if !self.is_third(&path)? {
            return Err(Halt::fault(Why::Elsewhere(line)));
        }
        Ok(Some(redirection.appends))
    }
}

impl<A: Answers> Shell<'_, '_, A> {
    /// Adds the files that these texts name.
    fn cat(&self, line: u64, texts: &[Text], declared: &Deps, sink: &mut Sink) -> Result<(), Halt>
        ensures fills { Fills result
            (contents_of (scene_setting self.now.scene) (A.ask self.now.answers.now) declared.now line texts.now)
            sink.old sink.new }
        ensures keeps { kept_by result ≡ None }
    {
        for text in texts {
            self.cat_one(line, text.bytes(), declared, sink)?;
        }
        Ok(())
    }

    /// Adds the file that a text names.
    fn cat_one(&self, line: u64, text: &[u8], declared: &Deps, sink: &mut Sink) -> Result<(), Halt>
        ensures fills { Fills result
            (content_of (scene_setting self.now.scene) (A.ask self.now.answers.now) declared.now line text.now)
            sink.old sink.new }
        ensures keeps { kept_by result ≡ None }
    {
        match self.file(line, declared, text)? {
            Some(bytes) => {
                sink.add(bytes)?;
                Ok(())
            }
            None => Err(Halt::exit(1)),
        }
    }

    /// Adds what a command writes.
    fn fill(
        &self,
        line: u64,
        writing: &Writing,
        declared: &Deps,
        sink: &mut Sink,
    ) -> Result<(), Halt>
        ensures fills { Fills result
            (bytes_of (scene_setting self.now.scene) (A.ask self.now.answers.now) declared.now line
            (writing_of writing.now))
            sink.old sink.new }
        ensures keeps { kept_by result ≡ None }
    {
        match writing {
            Writing::Echo(texts) => {
                echo(texts, sink)?;
                Ok(())
            }
            Writing::Printf(format, texts) => printf(
                self.scene.alloc,
                line,
                format.bytes(),
                texts,
                sink,
            ),
            Writing::Cat(texts) => self.cat(line, texts, declared, sink),
        }
    }

    /// Appends what a command writes. If the command stops, the bytes are as before.
    fn append(
        &self,
        line: u64,
        writing: &Writing,
        declared: &Deps,
        bytes: Vec<u8>,
    ) -> (Vec<u8>, Result<(), Halt>)
        ensures appends { IsMeant (given_by (λ _. result.0.items) result.1)
            (appended (scene_setting self.now.scene) (A.ask self.now.answers.now) declared.now line
            (writing_of writing.now) bytes.items) }
        ensures spares { IfErr result.1 (λ stop. OnSome (end_by stop) (result.0.items ≡ bytes.items)) }
        ensures keeps { kept_by result.1 ≡ None }
    {
        let length = bytes.len();
        let mut sink = Sink::new(bytes, self.scene.limit());
        let end = self.fill(line, writing, declared, &mut sink);
        let Sink {
            mut bytes,
            is_over,
            ..
        } = sink;
        let end = match end {
            Ok(()) if is_over => Err(Halt::fault(Why::TooLarge(line))),
            end => end,
        };
        if end.is_err() {
            bytes.truncate(length);
        }
        (bytes, end)
    }

    /// Writes to standard output.
    fn write_output(&self, line: u64, writing: &Writing, effects: &mut Effects) -> Result<(), Halt>
        ensures run { IsMeant (run_by result (state_of effects.new))
            (put_bytes (scene_setting self.now.scene) (A.ask self.now.answers.now) line (writing_of writing.now) None
            (state_of effects.old)) }
        ensures keeps { kept_by result ≡ None }
    {
        let bytes = mem::replace(&mut effects.output, Vec::new(self.scene.alloc));
        let (bytes, end) = self.append(line, writing, &effects.deps, bytes);
        effects.output = bytes;
        end
    }

    /// Writes to `$3`.
    fn write_third(
        &self,
        line: u64,
        writing: &Writing,
        appends: bool,
        effects: &mut Effects,
    ) -> Result<(), Halt>
        ensures run { IsMeant (run_by result (state_of effects.new))
            (put_bytes (scene_setting self.now.scene) (A.ask self.now.answers.now) line (writing_of writing.now)
            (Some appends) (state_of effects.old)) }
        ensures keeps { kept_by result ≡ None }
    {
        if appends {
            if let Some(bytes) = effects.third.take() {
                let (bytes, end) = self.append(line, writing, &effects.deps, bytes);
                effects.third = Some(bytes);
                return end;
            }
        }
        let bytes = Vec::new(self.scene.alloc);
        let (bytes, end) = self.append(line, writing, &effects.deps, bytes);
        if end.is_ok() {
            effects.third = Some(bytes);
        }
        end
    }

    /// Runs a command that writes.
    pub(crate) fn write(
        &self,
        line: u64,
        writer: &Writer,
        redirection: &Option<Redirection>,
        effects: &mut Effects,
    ) -> Result<(), Halt>
        ensures run { IsMeant (run_by result (state_of effects.new))
            (with_state
            (written (scene_setting self.now.scene) (A.ask self.now.answers.now) line (writer_of writer.now)
            (option_map redirection_of redirection.now) (state_of effects.old))
            (state_of effects.old)) }
        ensures keeps { kept_by result ≡ None }
    {
        let writing = self.scene.writing(line, writer)?;
        match self.scene.goal(line, redirection)? {
            None => self.write_output(line, &writing, effects),
            Some(appends) => self.write_third(line, &writing, appends, effects),
        }
    }
}
