//! A page that is being written.

ghost use Rattle.std.specs.Prelude.{◌≡◌, ◌++◌, [], OnOk};
ghost use Rattle.redo_page.specs.Parts.{Fixed, Number, Quoted, Text, written};

use crate::escape::{Form, push_escaped};
use crate::parts::Part;
use itoa::Buffer;
use std::alloc::{AllocError, Global};
use std::marker::Model;

/// A page that is being written: fixed parts, numbers and texts, and nothing else. In a contract it is its bytes so
/// far.
#[derive(Drop)]
pub(crate) struct Writer {
    bytes: Vec<u8>,
}

impl Model for Writer {
    ghost use Rattle.std.specs.Prelude.{List, ℕ};

    ghost Value = { List ℕ };

    ghost view = { λ w. w.bytes.items };
}

impl Writer {
    pub(crate) fn new(alloc: Global) -> Writer
        ensures { result ≡ [] }
    {
        Writer {
            bytes: Vec::new(alloc),
        }
    }

    /// The page.
    pub(crate) fn into_bytes(self) -> Vec<u8>
        ensures { result.items ≡ self }
    {
        self.bytes
    }

    /// Adds a fixed part.
    #[tactic(auto, unfolding(crate::specs::Parts::written))]
    pub(crate) fn fixed(&mut self, part: Part) -> Result<(), AllocError>
        ensures { OnOk result (self.new ≡ self.old ++ written (Fixed part)) }
    {
        self.bytes.extend_from_slice(part.bytes())
    }

    /// Adds a number in decimal.
    #[tactic(auto, unfolding(crate::specs::Parts::written))]
    pub(crate) fn number(&mut self, number: u64) -> Result<(), AllocError>
        ensures { OnOk result (self.new ≡ self.old ++ written (Number number)) }
    {
        let mut digits = Buffer::new();
        self.bytes
            .extend_from_slice(digits.format(number).as_bytes())
    }

    /// Adds a text, escaped.
    #[tactic(auto, unfolding(crate::specs::Parts::written, crate::specs::Html::escaped))]
    pub(crate) fn text(&mut self, text: &[u8]) -> Result<(), AllocError>
        ensures { OnOk result (self.new ≡ self.old ++ written (Text text.now)) }
    {
        push_escaped(&mut self.bytes, Form::Html, text)
    }

    /// Adds a text of the data, in quotes.
    #[tactic(auto, unfolding(crate::specs::Parts::written, crate::specs::Html::quoted))]
    pub(crate) fn quoted(&mut self, text: &[u8]) -> Result<(), AllocError>
        ensures { OnOk result (self.new ≡ self.old ++ written (Quoted text.now)) }
    {
        self.bytes.push(b'"')?;
        push_escaped(&mut self.bytes, Form::Json, text)?;
        self.bytes.push(b'"')?;
        Ok(())
    }
}
