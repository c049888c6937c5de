//! A JSON text that is being written.

ghost use Rattle.std.specs.Prelude.{◌≡◌, ◌++◌, ◌∷◌, [], OnOk, IfOk};
ghost use Rattle.json.specs.Print.{print};
ghost use Rattle.json.specs.Token.{begin_array, begin_object, boolean, end_array, end_object, key, string};
ghost use Rattle.redo_json.specs.Members.{number_member, text_member};

use json::Writer;
use std::alloc::{AllocError, Global};
use std::marker::Model;

/// A JSON text that is being written. In a contract it is the list of its tokens.
#[derive(Drop)]
pub(crate) struct Tokens {
    writer: Writer,
}

impl Model for Tokens {
    ghost use Rattle.std.specs.Prelude.{◌≡◌, [], List};
    ghost use Rattle.json.specs.Token.{Token, tokens_code};

    ghost Value = { List Token };

    ghost coded = { tokens_code };

    ghost view = { λ t. t.writer.tokens };

    ghost invariant = { λ t. t.writer.before ≡ [] };
}

impl Tokens {
    pub(crate) fn new(alloc: Global) -> Tokens
        ensures { result ≡ [] }
    {
        Tokens {
            writer: Writer::new(Vec::new(alloc)),
        }
    }

    /// The text of the tokens, and a newline.
    pub(crate) fn into_line(self) -> Result<Vec<u8>, AllocError>
        ensures { IfOk result (λ text. text.items ≡ print self ++ 10 ∷ []) }
    {
        let mut text = self.writer.into_inner();
        text.push(b'\n')?;
        Ok(text)
    }

    pub(crate) fn begin_object(&mut self) -> Result<(), AllocError>
        ensures { OnOk result (self.new ≡ self.old ++ begin_object ∷ []) }
    {
        self.writer.begin_object()
    }

    pub(crate) fn end_object(&mut self) -> Result<(), AllocError>
        ensures { OnOk result (self.new ≡ self.old ++ end_object ∷ []) }
    {
        self.writer.end_object()
    }

    /// A member whose value is an array that begins.
    pub(crate) fn begin_array(&mut self, name: &str) -> Result<(), AllocError>
        ensures { OnOk result (self.new ≡ self.old ++ key name.now ∷ begin_array ∷ []) }
    {
        self.writer.key(name)?;
        self.writer.begin_array()
    }

    pub(crate) fn end_array(&mut self) -> Result<(), AllocError>
        ensures { OnOk result (self.new ≡ self.old ++ end_array ∷ []) }
    {
        self.writer.end_array()
    }

    /// The name of a member. Its value comes next.
    pub(crate) fn key(&mut self, name: &str) -> Result<(), AllocError>
        ensures { OnOk result (self.new ≡ self.old ++ key name.now ∷ []) }
    {
        self.writer.key(name)
    }

    /// A member whose value is a text.
    pub(crate) fn text(&mut self, name: &str, text: &str) -> Result<(), AllocError>
        ensures { OnOk result (self.new ≡ self.old ++ text_member name.now text.now) }
    {
        self.writer.key(name)?;
        self.writer.string(text)
    }

    /// A member whose value is a number.
    pub(crate) fn number(&mut self, name: &str, n: u64) -> Result<(), AllocError>
        ensures { OnOk result (self.new ≡ self.old ++ number_member name.now n) }
    {
        self.writer.key(name)?;
        self.writer.u64(n)
    }

    /// A member that is true or false.
    pub(crate) fn boolean(&mut self, name: &str, is: bool) -> Result<(), AllocError>
        ensures { OnOk result (self.new ≡ self.old ++ key name.now ∷ boolean is ∷ []) }
    {
        self.writer.key(name)?;
        self.writer.boolean(is)
    }
}
