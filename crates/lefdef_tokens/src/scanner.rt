//! The tokens of a text, one at a time.

ghost use Rattle.std.specs.Prelude.{◌≡◌, ◌≤◌, ◌+◌, length, IfOk, IfSome};
ghost use Rattle.statement_model.specs.Tokens.{tokens, first_token, later_tokens};
ghost use Rattle.lefdef_tokens.specs.TokenViews.{IsIn, found_of};

use crate::step::token_at;
use crate::token::Token;
use design_model::fault::Fault;
use std::marker::Model;

/// Gives the tokens of a text in order, and then its end or its fault, for good.
#[derive(Drop)]
pub struct Scanner<'t> {
    text: &'t [u8],
    pos: usize,
}

impl<'t> Model for Scanner<'t> {
    ghost use Rattle.std.specs.Prelude.{◌≤◌, length, drop};
    ghost use Rattle.statement_model.specs.Tokens.{Scan, lex, Open};
    ghost use Rattle.statement_model.specs.Tokens.Open.{between};

    ghost Value = { Scan };

    ghost view = { λ s. record { text = s.text.now; left = lex s.pos between (drop s.pos s.text.now) } };

    ghost invariant = { λ s. s.pos ≤ length s.text.now };
}

impl<'t> Scanner<'t> {
    pub fn new(text: &'t [u8]) -> Scanner<'t>
        ensures { result ≡ record { text = text.now; left = tokens text.now } }
    {
        Scanner { text, pos: 0 }
    }

    pub fn next(&mut self) -> Result<Option<Token<'t>>, Fault>
        ensures gives { found_of result ≡ first_token self.old.left }
        ensures left { self.new.left ≡ later_tokens self.old.left }
        ensures text { self.new.text ≡ self.old.text }
        ensures slice { IfOk result (λ found. IfSome found (λ t. IsIn self.old.text t)) }
    {
        match token_at(self.text, self.pos)? {
            Some((token, end)) => {
                self.pos = end;
                Ok(Some(token))
            }
            None => Ok(None),
        }
    }
}
