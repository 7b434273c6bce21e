//! Reading words of a kind that is expected, without a look at the token after them.

ghost use Rattle.std.specs.Prelude.{◌≡◌, ◌<◌};
ghost use Rattle.lefdef_tokens.specs.Runs.{ComesFirst};

use crate::cursor::Cursor;
use crate::expected::{digits_at, mark_at};
use crate::step::token_between;
use crate::token::Token;
use crate::token_run::TokenRun;

/// The tokens that are left, where none was looked for yet, and how many were left where the first invalid number stood.
#[derive(Clone, Copy)]
pub struct Unseen<'t> {
    pub tokens: TokenRun<'t>,
    pub bad: Option<usize>,
}

impl<'t> Unseen<'t> {
    ghost use Rattle.std.specs.Prelude.{◌∷◌, [], ◌≤◌, length, true, IfSome};
    ghost use Rattle.std.specs.List.{slice_range};
    ghost use Rattle.form_meanings.specs.Words.{is_place, next_word};
    ghost use Rattle.design_model.specs.Units.{are_digits};
    ghost use Rattle.lefdef_tokens.specs.Views.{pieces_of, rest_of, words_of};
    ghost use Rattle.lefdef_tokens.specs.Places.{StandsAt, past};
    ghost use Rattle.lefdef_tokens.specs.Unseens.{Finds, IsFurther, unseen_rest, unseen_word};

    /// The same tokens, where the next one is looked for.
    #[inline(always)]
    pub fn seen(self) -> Cursor<'t>
        ensures rest { rest_of result ≡ unseen_rest self.entry }
        ensures tokens { result.tokens ≡ self.entry.tokens }
    {
        Cursor::at(self.tokens, self.bad)
    }

    /// The next token, by where it stands.
    #[inline(always)]
    fn past(self, start: usize, end: usize) -> Option<(Token<'t>, Unseen<'t>)>
        requires { 0 < self.tokens.count → ComesFirst self.tokens.text.now self.tokens.pos start end }
        ensures next { Finds unseen_word result (next_word (unseen_rest self.entry)) }
        ensures first { IfSome result (λ x. words_of self.entry.tokens ≡ x.0.bytes.now ∷ words_of x.1.tokens) }
        ensures at { IfSome result (λ x. StandsAt (pieces_of self.entry.tokens) x.0) }
        ensures left { IfSome result (λ x. pieces_of x.1.tokens ≡ past 1 (pieces_of self.entry.tokens)) }
        ensures bytes { IfSome result (λ x. x.0.bytes.now ≡ slice_range self.entry.tokens.text.now start end) }
        ensures further { IfSome result (λ x. IsFurther self.entry.tokens x.1.tokens) }
    {
        if self.tokens.is_empty() {
            return None;
        }
        let token = token_between(self.tokens.text, start, end);
        let tokens = self.tokens.after(token);
        let bad = self.bad;
        Some((token, Unseen { tokens, bad }))
    }

    /// The next token, where it has one to nine digits and stands between two blanks; `None` says nothing.
    #[inline(always)]
    pub fn digits(self) -> Option<(Token<'t>, Unseen<'t>)>
        ensures next { Finds unseen_word result (next_word (unseen_rest self.entry)) }
        ensures first { IfSome result (λ x. words_of self.entry.tokens ≡ x.0.bytes.now ∷ words_of x.1.tokens) }
        ensures digits { IfSome result (λ x. are_digits x.0.bytes.now ≡ true) }
        ensures few { IfSome result (λ x. length x.0.bytes.now ≤ 9) }
        ensures place { IfSome result (λ x. is_place x.0.bytes.now ≡ true) }
        ensures at { IfSome result (λ x. StandsAt (pieces_of self.entry.tokens) x.0) }
        ensures left { IfSome result (λ x. pieces_of x.1.tokens ≡ past 1 (pieces_of self.entry.tokens)) }
        ensures further { IfSome result (λ x. IsFurther self.entry.tokens x.1.tokens) }
    {
        let (start, end) = digits_at(self.tokens.text, self.tokens.pos)?;
        self.past(start, end)
    }

    /// The next token, where it is this byte and stands behind a blank; `None` says nothing.
    #[inline(always)]
    pub fn mark(self, mark: u8) -> Option<(Token<'t>, Unseen<'t>)>
        requires high { 35 < mark }
        requires low { mark < 127 }
        ensures next { Finds unseen_word result (next_word (unseen_rest self.entry)) }
        ensures first { IfSome result (λ x. words_of self.entry.tokens ≡ x.0.bytes.now ∷ words_of x.1.tokens) }
        ensures word { IfSome result (λ x. x.0.bytes.now ≡ mark ∷ []) }
        ensures at { IfSome result (λ x. StandsAt (pieces_of self.entry.tokens) x.0) }
        ensures left { IfSome result (λ x. pieces_of x.1.tokens ≡ past 1 (pieces_of self.entry.tokens)) }
        ensures further { IfSome result (λ x. IsFurther self.entry.tokens x.1.tokens) }
    {
        let (start, end) = mark_at(self.tokens.text, self.tokens.pos, mark)?;
        self.past(start, end)
    }
}
