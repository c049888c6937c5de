//! The value of a word.

ghost use Rattle.std.specs.Prelude.{◌≡◌, IfOk, option_copied, option_map};
ghost use Rattle.redo_script.specs.View.{word_of, symbols_of};
ghost use Rattle.redo_which.specs.Views.{arguments_view};
ghost use Rattle.redo_step.specs.Setting.{value_in};
ghost use Rattle.redo_step.specs.Value.{value_of, value_bound, is_fit, are_plain};
ghost use Rattle.redo_step.specs.inside.Parts.{added, fit};

use crate::scope::{Binding, bound_value};
use crate::text::Text;
use redo_script::{Parameter, Part, Word, is_plain_byte};
use redo_which::Args;
use std::alloc::{AllocError, Global};

/// What a parameter stands for.
pub(crate) fn argument<'a>(
    alloc: Global,
    args: &'a Args,
    parameter: Parameter,
) -> Result<Text<'a>, AllocError>
    ensures { IfOk result (λ text. text ≡ value_in (arguments_view args.now) parameter) }
{
    match parameter {
        Parameter::One => Ok(Text::lent(args.one())),
        Parameter::Two => Ok(Text::lent(args.two())),
        Parameter::Three => Ok(Text::held(args.three(alloc)?)),
    }
}

/// Whether a value may stand outside quotes.
pub(crate) fn is_fit_value(bytes: &[u8]) -> bool
    ensures { result ≡ is_fit bytes.now }
{
    !bytes.is_empty() && are_plain_bytes(bytes)
}

#[tactic(auto, using(crate::proofs::ValueLemmas::plain_at, crate::proofs::ValueLemmas::plain_end))]
fn are_plain_bytes(bytes: &[u8]) -> bool
    ensures { result ≡ are_plain bytes.now }
{
    for byte in bytes {
        if !is_plain_byte(*byte) {
            return false;
        }
    }
    true
}

/// This text, or `None` if it may not stand outside quotes.
fn fit_text(text: Text<'_>) -> Option<Text<'_>>
    ensures { result ≡ fit text.entry }
{
    if is_fit_value(text.bytes()) {
        Some(text)
    } else {
        None
    }
}

/// What a part stands for, or `None` if it is outside quotes and its value isn't fit.
fn part_value<'a>(
    alloc: Global,
    args: &'a Args,
    bound: &'a [Binding],
    part: &'a Part,
) -> Result<Option<Text<'a>>, AllocError>
    ensures { IfOk result (λ value.
        value ≡ added (value_in (arguments_view args.now)) (value_bound bound.now) part.now) }
{
    match part {
        Part::Lit(bytes) => Ok(Some(Text::lent(bytes.as_slice()))),
        Part::Quoted(parameter) => Ok(Some(argument(alloc, args, *parameter)?)),
        Part::Bare(parameter) => Ok(fit_text(argument(alloc, args, *parameter)?)),
        Part::NamedQuoted(name) => Ok(Some(Text::lent(bound_value(bound, name.as_slice())))),
        Part::NamedBare(name) => Ok(fit_text(Text::lent(bound_value(bound, name.as_slice())))),
    }
}

/// What parts stand for, joined.
fn joined_value(
    alloc: Global,
    args: &Args,
    bound: &[Binding],
    parts: &[Part],
) -> Result<Option<Vec<u8>>, AllocError>
    ensures { IfOk result (λ value. option_map (λ v. v.items) value ≡
        value_of (value_in (arguments_view args.now)) (value_bound bound.now) (symbols_of parts.now)) }
{
    let mut value = Vec::new(alloc);
    for part in parts {
        let Some(text) = part_value(alloc, args, bound, part)? else {
            return Ok(None);
        };
        value.extend_from_slice(text.bytes())?;
    }
    Ok(Some(value))
}

/// The value of a word in parts, or `None` if that of a part outside quotes isn't fit.
fn parts_value<'a>(
    alloc: Global,
    args: &'a Args,
    bound: &'a [Binding],
    parts: &'a [Part],
) -> Result<Option<Text<'a>>, AllocError>
    ensures { IfOk result (λ value. value ≡
        value_of (value_in (arguments_view args.now)) (value_bound bound.now) (symbols_of parts.now)) }
{
    match parts {
        [part] => part_value(alloc, args, bound, part),
        parts => match joined_value(alloc, args, bound, parts)? {
            Some(bytes) => Ok(Some(Text::held(bytes))),
            None => Ok(None),
        },
    }
}

/// The value of a word with these bindings, or `None` if that of a part outside quotes isn't fit.
#[tactic(auto, using(crate::proofs::ValueLemmas::value_of_literal))]
pub(crate) fn word_value<'a>(
    alloc: Global,
    args: &'a Args,
    bound: &'a [Binding],
    word: &'a Word,
) -> Result<Option<Text<'a>>, AllocError>
    ensures { IfOk result (λ value. value ≡
        value_of (value_in (arguments_view args.now)) (value_bound bound.now) (word_of word.now)) }
{
    match word {
        Word::Literal(bytes) => Ok(Some(Text::lent(bytes.as_slice()))),
        Word::Mixed(parts) => parts_value(alloc, args, bound, parts),
    }
}
