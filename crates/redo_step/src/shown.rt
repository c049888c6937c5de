//! What is told of a word's value.

ghost use Rattle.std.specs.Prelude.{◌≡◌, IfOk};
ghost use Rattle.redo_script.specs.View.{word_of, symbols_of};
ghost use Rattle.redo_which.specs.Views.{arguments_view};
ghost use Rattle.redo_step.specs.Setting.{value_in};
ghost use Rattle.redo_step.specs.Value.{value_bound};
ghost use Rattle.redo_step.specs.Operands.{shown_value, first_unfit};
ghost use Rattle.redo_step.specs.inside.Parts.{unfit, unfit_part};

use crate::scope::{Binding, bound_value};
use crate::text::Text;
use crate::value::{argument, is_fit_value, word_value};
use redo_bytes::Bytes;
use redo_script::{Part, Word};
use redo_which::Args;
use std::alloc::{AllocError, Global};

/// The value of a word with these bindings, or what its first parameter or name outside quotes stands for that isn't
/// fit.
#[tactic(auto, using(crate::proofs::BlameLemmas::unfit_literal, crate::proofs::ValueLemmas::value_of_literal))]
pub(crate) fn shown_value(
    alloc: Global,
    args: &Args,
    bound: &[Binding],
    word: &Word,
) -> Result<Bytes, AllocError>
    ensures { IfOk result (λ value. value ≡
        shown_value (value_in (arguments_view args.now)) (value_bound bound.now) (word_of word.now)) }
{
    if let Some(text) = word_value(alloc, args, bound, word)? {
        return Bytes::from_slice(alloc, text.bytes());
    }
    match word {
        Word::Literal(_) => Ok(Bytes::empty()),
        Word::Mixed(parts) => first_unfit(alloc, args, bound, parts),
    }
}

/// What the first part outside quotes stands for that isn't fit; no bytes if all are.
fn first_unfit(
    alloc: Global,
    args: &Args,
    bound: &[Binding],
    parts: &[Part],
) -> Result<Bytes, AllocError>
    ensures { IfOk result (λ value. value ≡
        first_unfit (value_in (arguments_view args.now)) (value_bound bound.now) (symbols_of parts.now)) }
{
    for part in parts {
        if let Some(text) = unfit_part(alloc, args, bound, part)? {
            return Bytes::from_slice(alloc, text.bytes());
        }
    }
    Ok(Bytes::empty())
}

/// What a part stands for, if it is outside quotes and that isn't fit.
fn unfit_part<'a>(
    alloc: Global,
    args: &'a Args,
    bound: &'a [Binding],
    part: &'a Part,
) -> Result<Option<Text<'a>>, AllocError>
    ensures { IfOk result (λ value.
        value ≡ unfit_part (value_in (arguments_view args.now)) (value_bound bound.now) part.now) }
{
    match part {
        Part::Bare(parameter) => Ok(unfit_text(argument(alloc, args, *parameter)?)),
        Part::NamedBare(name) => Ok(unfit_text(Text::lent(bound_value(bound, name.as_slice())))),
        Part::Lit(_) | Part::Quoted(_) | Part::NamedQuoted(_) => Ok(None),
    }
}

/// This text, if it may not stand outside quotes.
fn unfit_text(text: Text<'_>) -> Option<Text<'_>>
    ensures { result ≡ unfit text.entry }
{
    if is_fit_value(text.bytes()) {
        None
    } else {
        Some(text)
    }
}
