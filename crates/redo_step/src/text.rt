//! The bytes of a word's value.

ghost use Rattle.std.specs.Prelude.{◌≡◌};

use std::marker::Model;

/// Bytes that are borrowed or owned.
#[derive(Drop)]
enum Bytes<'a> {
    Lent(&'a [u8]),
    Held(Vec<u8>),
}

/// The value of a word. If the word is a single part other than `$3`, its bytes are borrowed from the script or from an
/// argument, not copied. In a contract it is its bytes.
#[derive(Drop)]
pub(crate) struct Text<'a> {
    bytes: Bytes<'a>,
}

impl<'a> Model for Text<'a> {
    ghost use Rattle.std.specs.Prelude.{List, ℕ};
    ghost use Rattle.redo_step.specs.inside.Text.{bytes_in};

    ghost Value = { List ℕ };

    ghost view = { λ t. bytes_in t.bytes };
}

impl<'a> Text<'a> {
    /// A text that borrows its bytes.
    pub(crate) fn lent(bytes: &'a [u8]) -> Text<'a>
        ensures { result ≡ bytes.now }
    {
        Text {
            bytes: Bytes::Lent(bytes),
        }
    }

    /// A text that owns its bytes.
    pub(crate) fn held(bytes: Vec<u8>) -> Text<'a>
        ensures { result ≡ bytes.items }
    {
        Text {
            bytes: Bytes::Held(bytes),
        }
    }

    pub(crate) fn bytes(&self) -> &[u8]
        ensures { result.now ≡ self.now }
    {
        match &self.bytes {
            Bytes::Lent(bytes) => bytes,
            Bytes::Held(bytes) => bytes,
        }
    }
}
