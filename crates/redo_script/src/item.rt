//! Words of a command, as they are written.

ghost use Rattle.std.specs.Prelude.{◌≡◌, ◌++◌, ◌&&◌, true, false, [], IfOk, Some, None, option_map};
ghost use Rattle.std.specs.Option.{MatchOption};
ghost use Rattle.redo_script.specs.Bytes.{all_continue, is_name};
ghost use Rattle.redo_script.specs.Syntax.{Word as Symbols};
ghost use Rattle.redo_script.specs.Forms.{spells, is_named, literal_on, as_name, name_of, knows_word};
ghost use Rattle.redo_script.specs.Parsing.{is_one_of, words_outside, loop_words, if_words, names_in};
ghost use Rattle.redo_script.specs.View.{symbols_of_part, symbols_of, word_of};
ghost use Rattle.redo_script.specs.inside.Parser.{item_of, stack_onto};

use crate::ast::{Part, Word};
use crate::bytes::{is_name_byte, is_name_start};
use crate::open::{Open, binds};
use redo_bytes::Bytes;
use std::alloc::{AllocError, Global};

/// A word of a command, and whether it is written with plain bytes only.
#[derive(Debug, Drop)]
pub enum Item<'a> {
    /// These bytes of the text.
    Lent(bool, &'a [u8]),
    /// Pieces in order.
    Built(bool, Vec<Part>),
}

/// What is left of a name after a part of a word, if the name begins with that part.
fn past_part<'a>(part: &Part, name: &'a [u8]) -> Option<&'a [u8]>
    ensures { MatchOption result
        ((w : Symbols) → spells (symbols_of_part part.now ++ w) name.now ≡ false)
        (λ rest. (w : Symbols) → spells (symbols_of_part part.now ++ w) name.now ≡ spells w rest.now) }
{
    match part {
        Part::Lit(bytes) => name.strip_prefix(bytes.as_slice()),
        Part::Quoted(_) | Part::Bare(_) | Part::NamedQuoted(_) | Part::NamedBare(_) => None,
    }
}

/// Whether the parts are exactly the bytes of this name, without a parameter.
fn parts_spell(parts: &[Part], name: &[u8]) -> bool
    ensures { result ≡ spells (symbols_of parts.now) name.now }
{
    let mut left = name;
    for part in parts {
        match past_part(part, left) {
            Some(rest) => left = rest,
            None => return false,
        }
    }
    left.is_empty()
}

/// These bytes and those of a part, unless it is a parameter.
#[tactic(auto, using(crate::proofs::WordLemmas::literal_past))]
fn with_part(mut literal: Vec<u8>, part: &Part) -> Result<Option<Vec<u8>>, AllocError>
    ensures { IfOk result (λ longer. MatchOption longer
        ((w : Symbols) → literal_on literal.items (symbols_of_part part.now ++ w) ≡ None)
        (λ v. (w : Symbols) → literal_on literal.items (symbols_of_part part.now ++ w) ≡ literal_on v.items w)) }
{
    match part {
        Part::Lit(bytes) => {
            literal.extend_from_slice(bytes.as_slice())?;
            Ok(Some(literal))
        }
        Part::Quoted(_) | Part::Bare(_) | Part::NamedQuoted(_) | Part::NamedBare(_) => Ok(None),
    }
}

/// The bytes of the parts, if none of them is a parameter.
fn parts_literal(alloc: Global, parts: &[Part]) -> Result<Option<Vec<u8>>, AllocError>
    ensures { IfOk result (λ bytes. option_map (λ v. v.items) bytes ≡ literal_on [] (symbols_of parts.now)) }
{
    let mut literal = Vec::new(alloc);
    for part in parts {
        match with_part(literal, part)? {
            Some(longer) => literal = longer,
            None => return Ok(None),
        }
    }
    Ok(Some(literal))
}

/// Whether a name may continue with these bytes.
fn are_name_bytes(bytes: &[u8]) -> bool
    ensures { result ≡ all_continue bytes.now }
{
    for byte in bytes {
        if !is_name_byte(*byte) {
            return false;
        }
    }
    true
}

/// Whether the bytes are a name.
fn is_name_text(bytes: &[u8]) -> bool
    ensures { result ≡ is_name bytes.now }
{
    match bytes {
        [first, others @ ..] => is_name_start(*first) && are_name_bytes(others),
        [] => false,
    }
}

/// These bytes, if they are a name.
fn name_from(alloc: Global, bytes: &[u8]) -> Result<Option<Bytes>, AllocError>
    ensures { IfOk result (λ name. name ≡ as_name (Some bytes.now)) }
{
    if is_name_text(bytes) {
        return Ok(Some(Bytes::from_slice(alloc, bytes)?));
    }
    Ok(None)
}

/// Whether the part is no name, or a name that one of `opens` binds.
#[tactic(auto, using(crate::proofs::WordLemmas::knows_past))]
fn part_known(part: &Part, opens: &[Open]) -> bool
    ensures { (w : Symbols) → knows_word (names_in (stack_onto [] opens.now)) (symbols_of_part part.now ++ w) ≡
        (result && knows_word (names_in (stack_onto [] opens.now)) w) }
{
    match part {
        Part::NamedQuoted(name) | Part::NamedBare(name) => binds(opens, name.as_slice()),
        Part::Lit(_) | Part::Quoted(_) | Part::Bare(_) => true,
    }
}

/// Whether each name in the parts is bound by one of `opens`.
fn parts_known(parts: &[Part], opens: &[Open]) -> bool
    ensures { result ≡ knows_word (names_in (stack_onto [] opens.now)) (symbols_of parts.now) }
{
    for part in parts {
        if !part_known(part, opens) {
            return false;
        }
    }
    true
}

/// Whether each name in the word is bound by one of `opens`.
#[tactic(auto, using(crate::proofs::WordLemmas::knows_bytes))]
pub fn is_known(word: &Word, opens: &[Open]) -> bool
    ensures { result ≡ knows_word (names_in (stack_onto [] opens.now)) (word_of word.now) }
{
    match word {
        Word::Literal(_) => true,
        Word::Mixed(parts) => parts_known(parts, opens),
    }
}

impl Item<'_> {
    /// Whether the word is written with plain bytes only.
    pub fn is_plain(&self) -> bool
        ensures { result ≡ (item_of self.now).is_plain }
    {
        match self {
            Item::Lent(is_plain, _) | Item::Built(is_plain, _) => *is_plain,
        }
    }

    /// Whether the word may be this name, by its length. A word is compared with many names, and most of them have another
    /// length.
    #[inline(always)]
    #[tactic(auto, using(crate::proofs::SpelledLemmas::other_length))]
    fn may_be(&self, name: &[u8]) -> bool
        ensures { result ≡ false → spells (item_of self.now).word name.now ≡ false }
    {
        match self {
            Item::Lent(_, bytes) if bytes.len() != name.len() => false,
            _ => true,
        }
    }

    /// Whether the word is exactly the bytes of this name, without a parameter.
    #[inline(always)]
    pub fn spells(&self, name: &[u8]) -> bool
        ensures { result ≡ spells (item_of self.now).word name.now }
    {
        match self {
            Item::Lent(_, bytes) => *bytes == name,
            Item::Built(_, parts) => parts_spell(parts, name),
        }
    }

    #[inline(always)]
    pub fn is_named(&self, name: &[u8]) -> bool
        ensures { result ≡ is_named name.now (item_of self.now) }
    {
        self.is_plain() && self.may_be(name) && self.spells(name)
    }

    /// The word, which owns its bytes.
    pub fn into_word(self, alloc: Global) -> Result<Word, AllocError>
        ensures { IfOk result (λ word. word_of word ≡ (item_of self.entry).word) }
    {
        match self {
            Item::Lent(_, bytes) => Ok(Word::Literal(Bytes::from_slice(alloc, bytes)?)),
            Item::Built(_, parts) => Ok(Word::Mixed(parts)),
        }
    }

    /// The name that the word is, if it is one.
    #[tactic(auto, using(crate::proofs::WordLemmas::literal_bytes))]
    pub fn name(&self, alloc: Global) -> Result<Option<Bytes>, AllocError>
        ensures { IfOk result (λ name. name ≡ name_of (item_of self.now)) }
    {
        match self {
            Item::Lent(true, bytes) => name_from(alloc, bytes),
            Item::Built(true, parts) => match parts_literal(alloc, parts)? {
                Some(bytes) => name_from(alloc, &bytes),
                None => Ok(None),
            },
            _ => Ok(None),
        }
    }

    /// Whether each name in the word is bound by one of `opens`.
    #[tactic(auto, using(crate::proofs::WordLemmas::knows_bytes))]
    pub fn is_known(&self, opens: &[Open]) -> bool
        ensures { result ≡ knows_word (names_in (stack_onto [] opens.now)) (item_of self.now).word }
    {
        match self {
            Item::Lent(_, _) => true,
            Item::Built(_, parts) => parts_known(parts, opens),
        }
    }

    /// Whether this is a reserved word of an `if` after its condition.
    pub fn is_of_if(&self) -> bool
        ensures { result ≡ is_one_of if_words (item_of self.now) }
    {
        self.is_named(b"then") || self.is_named(b"else") || self.is_named(b"fi")
    }

    /// Whether this is a reserved word of a loop.
    pub fn is_of_loop(&self) -> bool
        ensures { result ≡ is_one_of loop_words (item_of self.now) }
    {
        self.is_named(b"for") || self.is_named(b"do") || self.is_named(b"done")
    }

    /// Whether this is a reserved word that the subset leaves out.
    pub fn is_outside(&self) -> bool
        ensures { result ≡ is_one_of words_outside (item_of self.now) }
    {
        self.is_named(b"!")
            || self.is_named(b"elif")
            || self.is_named(b"while")
            || self.is_named(b"until")
            || self.is_named(b"case")
            || self.is_named(b"esac")
    }
}
