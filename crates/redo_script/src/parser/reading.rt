//! Statements read token by token, with the words that a fault or a run may have to be shown at.

ghost use Rattle.std.specs.Prelude.{◌≡◌, ◌≤◌, ◌<◌, ◌+◌, ◌^◌, length};

use crate::fault::{Reason, ScriptFault};
use crate::item::Item;
use crate::lexer::marks::{Marked, Scanner};
use crate::name::CommandName;
use crate::open::binds;
use crate::parser::{Parser, Phase};
use crate::places::{FaultPlace, Span, Spot};
use crate::token::Token;
use std::alloc::{AllocError, Global};

/// The bytes of a span, if the text has them.
fn bytes_at(text: &[u8], span: Span) -> &[u8] {
    if span.start <= span.end && span.end <= text.len() {
        &text[span.start..span.end]
    } else {
        b""
    }
}

/// What kind of token was read last. The end of the text counts as that of a line.
#[derive(Clone, Copy, Debug, PartialEq, Eq)]
enum Kind {
    Word,
    Redirect,
    Semicolon,
    LineEnd,
}

impl Kind {
    fn of(token: &Token) -> Kind {
        match token {
            Token::Word(_, _) => Kind::Word,
            Token::Redirect(_, _) => Kind::Redirect,
            Token::Semicolon(_) => Kind::Semicolon,
            Token::Newline(_) => Kind::LineEnd,
        }
    }
}

/// The operand that doesn't fit, where one alone is to blame.
fn unfit(name: CommandName, operands: &[Span]) -> Option<Span> {
    match name {
        CommandName::True | CommandName::False | CommandName::Always => operands.first().copied(),
        CommandName::Exit => match operands {
            [_, second, ..] => Some(*second),
            [first] => Some(*first),
            [] => None,
        },
        _ => None,
    }
}

/// Reads the statements of a text.
#[derive(Drop)]
pub struct Reading<'a> {
    scanner: Scanner<'a>,
    parser: Parser<'a>,
    /// What was expected before the token that was read last, its kind and its bytes.
    phase: Phase,
    kind: Kind,
    span: Span,
    /// Each `if` and `for` that is open, innermost last.
    openers: Vec<Span>,
    /// How many statements have begun.
    begun: usize,
    /// How many may begin before no more words are kept.
    most: usize,
    /// The words of the statement that began last.
    words: Vec<Span>,
    is_redirected: bool,
}

impl<'a> Reading<'a> {
    /// No statement yet. It keeps the words of the last statement that begins, but of none past the first `most`.
    fn new(alloc: Global, most: usize) -> Reading<'a>
        ensures { result.scanner.lexer.line ≡ 1 }
    {
        Reading {
            scanner: Scanner::new(alloc),
            parser: Parser::new(alloc),
            phase: Phase::AtCommand,
            kind: Kind::LineEnd,
            span: Span { start: 0, end: 0 },
            openers: Vec::new(alloc),
            begun: 0,
            most,
            words: Vec::new(alloc),
            is_redirected: false,
        }
    }

    /// Keeps a word of the statement.
    fn keep(&mut self) -> Result<(), AllocError>
        ensures { self.new.scanner ≡ self.old.scanner }
    {
        if self.begun <= self.most {
            self.words.push(self.span)?;
        }
        Ok(())
    }

    /// A statement begins.
    fn begin(&mut self)
        ensures { self.new.scanner.lexer ≡ self.old.scanner.lexer }
    {
        self.begun = self.begun.saturating_add(1);
        self.is_redirected = false;
        self.scanner.forget_names();
        if self.begun <= self.most {
            self.words.clear();
        }
    }

    /// A word in the place of a command was read.
    fn note_first(&mut self) -> Result<(), AllocError>
        ensures { self.new.scanner.lexer ≡ self.old.scanner.lexer }
    {
        match self.parser.phase {
            Phase::InCommand => {
                self.begin();
                self.keep()
            }
            Phase::BehindIf(_) => {
                self.begin();
                self.openers.push(self.span)?;
                Ok(())
            }
            Phase::BehindFor(_) => {
                self.begin();
                self.openers.push(self.span)?;
                self.keep()
            }
            Phase::BehindFi(_) | Phase::BehindDone(_) => {
                let _closed = self.openers.pop();
                Ok(())
            }
            _ => Ok(()),
        }
    }

    /// The token that was read last fits.
    fn note(&mut self) -> Result<(), AllocError>
        ensures { self.new.scanner.lexer ≡ self.old.scanner.lexer }
    {
        match (self.kind, self.phase) {
            (Kind::Word, Phase::AtCommand) => self.note_first(),
            (
                Kind::Word,
                Phase::InCommand | Phase::BehindIf(_) | Phase::InCondition | Phase::InWords(_),
            ) => self.keep(),
            (Kind::Redirect, _) => {
                self.is_redirected = true;
                Ok(())
            }
            _ => Ok(()),
        }
    }

    fn token(&mut self, marked: Marked<'a>) -> Result<(), ScriptFault>
        ensures { self.new.scanner.lexer ≡ self.old.scanner.lexer }
    {
        self.phase = self.parser.phase;
        self.kind = Kind::of(&marked.token);
        self.span = marked.span;
        self.parser.token(marked.token)?;
        self.note()?;
        Ok(())
    }

    /// Reads the byte at `at`.
    fn byte(&mut self, at: usize, byte: u8) -> Result<(), ScriptFault>
        requires { self.old.scanner.lexer.line + 1 < 2 ^ 64 }
        ensures { self.new.scanner.lexer.line ≤ self.old.scanner.lexer.line + 1 }
    {
        for marked in self.scanner.byte(at, byte)? {
            self.token(marked)?;
        }
        Ok(())
    }

    /// Reads a text up to its first fault.
    fn read(&mut self, text: &[u8]) -> Result<(), ScriptFault>
        requires { self.old.scanner.lexer.line ≡ 1 }
    {
        for (at, byte) in text.iter().enumerate() {
            self.byte(at, *byte)?;
        }
        // The end of a text ends its line.
        self.byte(text.len(), b'\n')
    }

    /// The first `$NAME` of the statement that no loop binds.
    fn unbound(&self, text: &[u8]) -> Option<Span> {
        for name in self.scanner.names() {
            let inside = Span {
                start: name.start.saturating_add(1),
                end: name.end,
            };
            if !binds(&self.parser.opens, bytes_at(text, inside)) {
                return Some(*name);
            }
        }
        None
    }

    /// The place of a command whose operands or redirection don't fit.
    fn ill_command(&self, text: &[u8]) -> FaultPlace {
        let [name, operands @ ..] = self.words.as_slice() else {
            return self.opener();
        };
        let operand = match CommandName::of(&Item::Lent(true, bytes_at(text, *name))) {
            Some(command) if !self.is_redirected => unfit(command, operands),
            _ => None,
        };
        match operand {
            Some(span) => FaultPlace {
                span,
                what: Spot::Operand,
            },
            None => FaultPlace {
                span: *name,
                what: Spot::Command,
            },
        }
    }

    /// The innermost `if` or `for` that is open; if none is, no byte.
    fn opener(&self) -> FaultPlace {
        let span = match self.openers.last() {
            Some(span) => *span,
            None => Span { start: 0, end: 0 },
        };
        FaultPlace {
            span,
            what: Spot::Opener,
        }
    }

    /// The token that was read last. The end of a line is where an `if` or `for` lacks what has to follow it.
    fn last(&self) -> FaultPlace {
        let what = match self.kind {
            Kind::Word => Spot::Word,
            Kind::Redirect | Kind::Semicolon => Spot::Sign,
            Kind::LineEnd => return self.opener(),
        };
        FaultPlace {
            span: self.span,
            what,
        }
    }

    /// Where the fault is that the token has which was read last.
    fn place(&self, text: &[u8], why: Reason) -> FaultPlace {
        let is_inside = matches!(self.phase, Phase::InCommand | Phase::InCondition);
        if why == Reason::Unsupported
            && (is_inside || matches!(self.phase, Phase::InWords(_)))
            && let Some(span) = self.unbound(text)
        {
            return FaultPlace {
                span,
                what: Spot::Name,
            };
        }
        if is_inside {
            return self.ill_command(text);
        }
        self.last()
    }
}

/// What is to blame for the fault of a text whose commands have one.
pub fn blamed(alloc: Global, text: &[u8]) -> Result<FaultPlace, AllocError> {
    let mut reading = Reading::new(alloc, usize::MAX);
    match reading.read(text) {
        Ok(()) => Ok(reading.opener()),
        Err(fault) if fault.is_memory() => Err(AllocError),
        Err(fault) => Ok(reading.place(text, fault.why)),
    }
}

/// The words of the statement with this number, as far as the text can be read.
pub fn words_of(
    alloc: Global,
    text: &[u8],
    number: usize,
) -> Result<Option<Vec<Span>>, AllocError> {
    let mut reading = Reading::new(alloc, number.saturating_add(1));
    if let Err(fault) = reading.read(text)
        && fault.is_memory()
    {
        return Err(AllocError);
    }
    Ok((reading.begun > number).then_some(reading.words))
}
