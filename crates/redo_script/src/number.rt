//! The status given to `exit`.

ghost use Rattle.std.specs.Prelude.{◌≡◌, ◌∷◌, ◌++◌, ◌≤◌, None, map, []};
ghost use Rattle.std.specs.Option.{MatchOption};
ghost use Rattle.redo_script.specs.Syntax.{Word as Symbols, byte as byte_symbol};
ghost use Rattle.redo_script.specs.Forms.{status_of};
ghost use Rattle.redo_script.specs.View.{symbols_of_part, symbols_of, word_of};
ghost use Rattle.redo_script.specs.inside.Parser.{status_on};

use crate::ast::{Part, Word};

/// A number as far as it was read, and how many digits it has.
#[derive(Clone, Copy, Debug)]
struct Number {
    digits: u8,
    value: u8,
    ghost few: { digits ≤ 3 },
}

impl Number {
    fn new() -> Number
        ensures digits { result.digits ≡ 0 }
        ensures value { result.value ≡ 0 }
    {
        Number {
            digits: 0,
            value: 0,
        }
    }

    /// The number with this byte as its next digit. `None` if it isn't a digit, or if the number then has more than
    /// three or is above 255.
    fn past_digit(self, byte: u8) -> Option<Number>
        ensures { MatchOption result
            ((w : Symbols) → status_on self.digits self.value (byte_symbol byte ∷ w) ≡ None)
            (λ number. (w : Symbols) →
            status_on self.digits self.value (byte_symbol byte ∷ w) ≡ status_on number.digits number.value w) }
    {
        if self.digits >= 3 || !byte.is_ascii_digit() {
            return None;
        }
        let value = self.value.checked_mul(10)?.checked_add(byte - b'0')?;
        Some(Number {
            digits: self.digits + 1,
            value,
        })
    }

    /// The number with these bytes as its next digits.
    fn past_bytes(self, bytes: &[u8]) -> Option<Number>
        ensures { MatchOption result
            ((w : Symbols) → status_on self.digits self.value (map byte_symbol bytes.now ++ w) ≡ None)
            (λ number. (w : Symbols) → status_on self.digits self.value (map byte_symbol bytes.now ++ w)
            ≡ status_on number.digits number.value w) }
    {
        let mut number = self;
        for byte in bytes {
            number = number.past_digit(*byte)?;
        }
        Some(number)
    }

    /// The number with the bytes of this part as its next digits.
    fn past_part(self, part: &Part) -> Option<Number>
        ensures { MatchOption result
            ((w : Symbols) → status_on self.digits self.value (symbols_of_part part.now ++ w) ≡ None)
            (λ number. (w : Symbols) → status_on self.digits self.value (symbols_of_part part.now ++ w)
            ≡ status_on number.digits number.value w) }
    {
        match part {
            Part::Lit(bytes) => self.past_bytes(bytes.as_slice()),
            Part::Quoted(_) | Part::Bare(_) | Part::NamedQuoted(_) | Part::NamedBare(_) => None,
        }
    }

    /// The number with the bytes of these parts as its next digits.
    fn past_parts(self, parts: &[Part]) -> Option<Number>
        ensures { MatchOption result
            (status_on self.digits self.value (symbols_of parts.now) ≡ None)
            (λ number. status_on self.digits self.value (symbols_of parts.now)
            ≡ status_on number.digits number.value []) }
    {
        let mut number = self;
        for part in parts {
            number = number.past_part(part)?;
        }
        Some(number)
    }

    /// The number with the bytes of this word as its next digits.
    fn past_word(self, word: &Word) -> Option<Number>
        ensures { MatchOption result
            (status_on self.digits self.value (word_of word.now) ≡ None)
            (λ number. status_on self.digits self.value (word_of word.now) ≡ status_on number.digits number.value []) }
    {
        match word {
            Word::Literal(bytes) => self.past_bytes(bytes.as_slice()),
            Word::Mixed(parts) => self.past_parts(parts),
        }
    }
}

/// The status that a word stands for: one to three plain digits, at most 255.
pub fn status_of_word(is_plain: bool, word: &Word) -> Option<u8>
    ensures { result ≡ status_of (record { is_plain = is_plain; word = word_of word.now }) }
{
    if !is_plain {
        return None;
    }
    let number = Number::new().past_word(word)?;
    if number.digits == 0 {
        return None;
    }
    Some(number.value)
}
