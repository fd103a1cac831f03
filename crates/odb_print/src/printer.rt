//! Compact JSON text, printed straight into bytes.
ghost use Rattle.std.specs.Prelude.{◌≡◌, ◌++◌, ◌∷◌, [], OnOk};
ghost use Rattle.std.specs.Fmt.{signed_decimal};
ghost use Rattle.json.specs.Print.{IsPrintable, print};
ghost use Rattle.json.specs.Reads.{token_of};
ghost use Rattle.json.specs.Token as token;

use json::{Token, Writer};
use std::alloc::{AllocError, Global};
use std::marker::Model;

/// Compact JSON text that is being printed (RFC 8259): tokens, with no space between them. It places the
/// commas and the colons; how arrays and objects nest is its caller's.
///
/// Where one of its calls was refused memory, the text is of no use.
#[derive(Drop)]
pub struct Printer {
    writer: Writer,
}

impl Model for Printer {
    ghost use Rattle.std.specs.Prelude.{◌≡◌, List, []};
    ghost use Rattle.json.specs.Token.{Token, tokens_code};

    ghost Value = { List Token };

    ghost coded = { tokens_code };

    ghost view = { λ p. p.writer.tokens };

    ghost invariant = { λ p. p.writer.before ≡ [] };
}

impl Printer {
    /// Makes a text without a token.
    pub fn new(alloc: Global) -> Printer
        ensures { result ≡ [] }
    {
        Printer {
            writer: Writer::new(Vec::new(alloc)),
        }
    }

    /// Adds a token: whatever is printed but a number, which `integer` adds.
    #[inline(always)]
    pub fn put(&mut self, token: Token<'_>) -> Result<(), AllocError>
        requires { IsPrintable (token_of token) }
        ensures { OnOk result (self.new ≡ self.old ++ token_of token.entry ∷ []) }
    {
        self.writer.token(token)
    }

    /// Prints an integer, in decimal.
    #[inline(always)]
    pub fn integer(&mut self, integer: i64) -> Result<(), AllocError>
        ensures { OnOk result (self.new ≡ self.old ++ token.number (signed_decimal integer) ∷ []) }
    {
        self.writer.i64(integer)
    }

    /// Returns the text.
    pub fn finish(self) -> Vec<u8>
        ensures { result.items ≡ print self }
    {
        let Printer { writer } = self;
        writer.into_inner()
    }
}
