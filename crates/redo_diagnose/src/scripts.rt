//! A failed target's script, read and run again with the outcomes that the report has.

ghost use Rattle.std.specs.Prelude.{◌≡◌, IfOk, IfSome};
ghost use Rattle.redo_record.specs.declared.outcome.Why.{Why};
ghost use Rattle.redo_diagnose.specs.Diagnoses.{IsIn, IsMark};

use crate::answers::Answered;
use crate::diagnosis::Place;
use crate::ends::{Blamed, of_end, of_whole};
use crate::faults::of_fault;
use crate::places::{line_at, place_at};
use crate::reasons::line_named;
use crate::said::Said;
use redo_path::Path;
use redo_record::Why;
use redo_script::{Reason, ScriptFault, Span, parse, place_of_fault, statement_words};
use redo_step::{EndPlace, Ending, Limits, ScriptInputs, find_end};
use redo_tree::Tree;
use redo_which::Rule;
use std::alloc::{AllocError, Global};

/// A target's script, and what it is given.
#[derive(Drop)]
pub(crate) struct Failed<'a> {
    pub(crate) sources: &'a Tree,
    pub(crate) target: &'a Path,
    pub(crate) rule: Rule,
    pub(crate) text: &'a [u8],
    pub(crate) limits: Limits,
}

/// What is said of a script, and where in its text.
#[derive(Drop)]
pub(crate) struct Remark {
    pub(crate) place: Option<Place>,
    pub(crate) said: Said,
}

/// The bytes of a span.
fn word_at<'a>(text: &'a [u8], span: &Span) -> &'a [u8] {
    let end = span.end.min(text.len());
    &text[span.start.min(end)..end]
}

/// The bytes from the first of some words to the last.
fn whole(words: &[Span]) -> Option<Span> {
    Some(Span {
        start: words.first()?.start,
        end: words.last()?.end,
    })
}

/// The words as they are written.
fn written<'a>(text: &'a [u8], words: &[Span]) -> &'a [u8] {
    match whole(words) {
        Some(span) => word_at(text, &span),
        None => b"",
    }
}

/// What is shown of a statement where no operand is to blame: all of it if it ended the script with a status, else its
/// name.
fn shown_of(words: &[Span], why: Why) -> Option<Span> {
    match why {
        Why::Exit(_) => whole(words),
        _ => words.first().copied(),
    }
}

/// The line of a span; the first, if there is none.
fn line_of(text: &[u8], span: Option<Span>) -> u64 {
    match span {
        Some(span) => line_at(text, span.start),
        None => 1,
    }
}

/// The word to blame.
fn operand_of<'a>(text: &[u8], words: &'a [Span], end: &EndPlace) -> Option<&'a Span> {
    match &end.fault {
        Some(fault) => words.get(word_number(first_word(text, words), words.len(), fault.operand)),
        None => None,
    }
}

/// The name of a statement's command.
fn first_word<'a>(text: &'a [u8], words: &[Span]) -> &'a [u8] {
    match words.first() {
        Some(span) => word_at(text, span),
        None => b"",
    }
}

/// What the word to blame stood for.
fn value_of(end: &EndPlace) -> &[u8] {
    match &end.fault {
        Some(fault) => fault.value.as_slice(),
        None => b"",
    }
}

/// Which of a statement's words an operand is: those of `test` have an operator before or between them.
fn word_number(command: &[u8], words: usize, operand: usize) -> usize {
    match (command, words) {
        (b"test", 3) => 2,
        (b"test", _) if operand > 0 => 3,
        _ => operand.saturating_add(1),
    }
}

/// Whether a script that ended so has failed with this reason.
fn is_reason(end: &Ending, why: Why) -> bool {
    match end {
        Ending::Exited(status) => why == Why::Exit(*status),
        Ending::Faulted(fault) => why == *fault,
    }
}

impl Failed<'_> {
    /// The place of a span in this line.
    fn place(
        &self,
        alloc: Global,
        line: u64,
        span: Option<Span>,
    ) -> Result<Option<Place>, AllocError>
        ensures file { IfOk result (λ place. IfSome place (λ place. place.file ≡ self.now.rule.do_file)) }
        ensures mark { IfOk result (λ place. IfSome place (IsMark self.now.text.now line)) }
    {
        place_at(alloc, &self.rule.do_file, self.text, line, span)
    }

    /// What is wrong with a text that can't be read.
    pub(crate) fn fault(&self, alloc: Global, fault: &ScriptFault) -> Result<Remark, AllocError>
        ensures { IfOk result (λ found. IfSome found.place
            (IsIn self.now.rule.do_file self.now.text.now (Why.Script fault.now))) }
    {
        let found = place_of_fault(alloc, self.text, fault)?;
        let said = of_fault(alloc, self.text, fault, &found)?;
        let span = Span {
            start: found.span.start.saturating_sub(said.before),
            end: found
                .span
                .end
                .max(found.span.start.saturating_add(said.along)),
        };
        let place = self.place(alloc, fault.line, Some(span))?;
        Ok(Remark { place, said })
    }
    /// Where the script ends with this reason.
    fn end(
        &self,
        alloc: Global,
        answers: &Answered<'_>,
        why: Why,
    ) -> Result<Option<EndPlace>, AllocError> {
        let script = match parse(alloc, self.text) {
            Ok(script) => script,
            Err(fault) if fault.why == Reason::Memory => return Err(AllocError),
            Err(_) => return Ok(None),
        };
        let inputs = ScriptInputs {
            tree: self.sources,
            target: self.target,
            args: &self.rule.args,
            limits: self.limits,
        };
        match find_end(alloc, &inputs, &script, answers)? {
            Some(place) if is_reason(&place.end, why) => Ok(Some(place)),
            _ => Ok(None),
        }
    }

    /// The words of the statement at which the script ended.
    fn words(&self, alloc: Global, end: &EndPlace) -> Result<Vec<Span>, AllocError> {
        let words = statement_words(alloc, self.text, end.statement)?;
        Ok(words.unwrap_or(Vec::new(alloc)))
    }

    /// What ended the script at this place with this reason.
    fn blamed(
        &self,
        alloc: Global,
        answers: &Answered<'_>,
        why: Why,
        end: &EndPlace,
    ) -> Result<Remark, AllocError>
        ensures { IfOk result (λ found. IfSome found.place (IsIn self.now.rule.do_file self.now.text.now why)) }
    {
        let words = self.words(alloc, end)?;
        let operand = operand_of(self.text, &words, end);
        let blamed = Blamed {
            command: first_word(self.text, &words),
            written: written(self.text, &words),
            word: operand.map(|span| word_at(self.text, span)),
            value: value_of(end),
            dir: &self.rule.args.dir,
        };
        let said = of_end(alloc, self.sources, answers, why, &blamed)?;
        let place = self.place_of_end(alloc, why, operand, shown_of(&words, why))?;
        Ok(Remark { place, said })
    }

    /// The place of an operand, or of its command if it is in a later line than the reason names.
    fn place_of_end(
        &self,
        alloc: Global,
        why: Why,
        operand: Option<&Span>,
        command: Option<Span>,
    ) -> Result<Option<Place>, AllocError>
        ensures { IfOk result (λ place. IfSome place (IsIn self.now.rule.do_file self.now.text.now why)) }
    {
        let span = operand.copied().or(command);
        let here = line_of(self.text, span);
        match line_named(why) {
            Some(line) if line != here => self.place(alloc, line, command),
            _ => self.place(alloc, here, span),
        }
    }

    /// What is wrong with a script that ended with this reason.
    pub(crate) fn ended(
        &self,
        alloc: Global,
        answers: &Answered<'_>,
        why: Why,
    ) -> Result<Remark, AllocError>
        ensures { IfOk result (λ found. IfSome found.place (IsIn self.now.rule.do_file self.now.text.now why)) }
    {
        match self.end(alloc, answers, why)? {
            Some(end) => self.blamed(alloc, answers, why, &end),
            None => self.whole(alloc, why),
        }
    }

    /// What is wrong with a script of which no command is to blame: both outputs are written by no single one.
    fn whole(&self, alloc: Global, why: Why) -> Result<Remark, AllocError>
        ensures { IfOk result (λ found. IfSome found.place (IsIn self.now.rule.do_file self.now.text.now why)) }
    {
        let line = line_named(why).unwrap_or(1);
        let place = self.place(alloc, line, Some(Span { start: 0, end: 0 }))?;
        let said = of_whole(alloc, why)?;
        Ok(Remark { place, said })
    }

    /// The place of the operand that a script waits for, which ended with this reason.
    pub(crate) fn asked(
        &self,
        alloc: Global,
        answers: &Answered<'_>,
        why: Why,
    ) -> Result<Option<Place>, AllocError>
        ensures { IfOk result (λ place. IfSome place (IsIn self.now.rule.do_file self.now.text.now why)) }
    {
        let Some(end) = self.end(alloc, answers, why)? else {
            return Ok(None);
        };
        let words = self.words(alloc, &end)?;
        let operand = operand_of(self.text, &words, &end);
        self.place_of_end(alloc, why, operand, shown_of(&words, why))
    }
}
